// How much of a text is composed as it is typed, and whether all of it is: most names are, and no letter of theirs is looked up in the
// table.
ghost use Rattle.std.specs.Prelude.{◌≡◌, ◌+◌, ◌≤◌, length};
ghost use Rattle.text.specs.Bytes.{all, part};
ghost use Rattle.names.specs.Codes.{is_plain};
ghost use Rattle.names.specs.Names.{composed, is_form};
ghost use Rattle.names.specs.Steps.{is_lead, is_tail, follows, paired_from, Front, OwnFront, PlainTo};

use super::lone_letter;
use tables::get_or;
use text::{Class, in_class};

// Whether a name may have a code point in one byte.
pub fn is_plain(b: u8) -> bool
    ensures { result ≡ is_plain b }
{
    ((32 <= b) & (b <= 126)) & in_class(Class::Name, b)
}

// How many bytes at the front of a text are composed as they are typed, where those up to a place are: up to a byte that a mark may
// stand behind, and up to one that begins no letter.
fn front_from(s: &[u8], from: usize) -> usize
    requires { Front s.now from }
    ensures { OwnFront s.now result }
{
    let mut i = from; // a letter has one byte or two, so that no range of places serves
    while i < s.len() {
        let a = s[i];
        let b = get_or(s, i + 1, 0);
        if b == 204 {
            return i;
        }
        let x = lone_letter(a, b);
        let w = x.width;
        if w == 0 {
            return i;
        }
        i += w;
    }
    i
}

// Whether the sixteen bytes from a place on are code points by themselves. It does not stop before the end, so that a compiler takes
// them at once.
fn is_plain_block(s: &[u8], at: usize) -> bool
    requires { at + 16 ≤ length s.now }
    ensures { result ≡ all is_plain (part s.now at 16) }
{
    let mut plain = true;
    for i in 0..16 {
        plain = plain & is_plain(s[at + i]);
    }
    plain
}

// How many bytes at the front are such, by whole blocks.
fn plain_blocks(s: &[u8]) -> usize
    ensures { PlainTo s.now result }
{
    let mut i: usize = 0; // how far the whole blocks reach is not known before
    while 16 <= s.len() - i {
        let plain = is_plain_block(s, i);
        if !plain {
            return i;
        }
        i += 16;
    }
    i
}

// How many bytes at the front of a text are composed as they are typed. Those that are code points by themselves are passed over first:
// a mark may stand behind the last of them.
pub fn own_front(s: &[u8]) -> usize
    ensures { OwnFront s.now result }
{
    for i in plain_blocks(s)..s.len() {
        if !is_plain(s[i]) {
            return front_from(s, i.saturating_sub(1));
        }
    }
    s.len()
}

// Whether a text is its own composed form.
pub fn is_own_form(s: &[u8]) -> bool
    ensures { result ≡ is_form s.now (composed s.now) }
{
    own_front(s) == s.len()
}

// Whether a byte is the first, or the second, of the two of a letter: two words of the definitions, of a line each.
fn is_lead(b: u8) -> bool
    ensures { result ≡ is_lead b }
{
    (194 <= b) & (b <= 197)
}

fn is_tail(b: u8) -> bool
    ensures { result ≡ is_tail b }
{
    (128 <= b) & (b <= 191)
}

// Whether b may stand behind p in a composed text: a second byte behind a first one and nowhere else, and none below U+00A0.
fn does_follow(p: u8, b: u8) -> bool
    ensures { result ≡ follows p b }
{
    let lead = is_lead(p);
    let tail = is_tail(b);
    ((lead & tail) | (!lead & !tail)) & ((p != 194) | (160 <= b))
}

// Whether each byte may stand where it does: where a composed text may have all bytes, whether it is its own composed form. It does not
// stop before the end, so that a compiler takes many bytes at a time; a held register's texts are tested so.
pub fn all_paired(s: &[u8]) -> bool
    ensures { result ≡ paired_from 0 s.now }
{
    if s.len() == 0 {
        return true;
    }
    let mut fits = does_follow(0, s[0]);
    for i in 1..s.len() {
        fits = fits & does_follow(s[i - 1], s[i]);
    }
    fits & !is_lead(s[s.len() - 1])
}
