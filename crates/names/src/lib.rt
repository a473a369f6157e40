// Names in two spellings: the table of compositions, whether bytes are a name, and its composed form.
#![tactic(auto)]

ghost use Rattle.std.specs.Prelude.{◌≡◌, ◌+◌, ◌<◌, ◌^◌, length, drop};
ghost use Rattle.buffer.specs.Writing.{written};
ghost use Rattle.names.specs.Codes.{encode};
ghost use Rattle.names.specs.Names.{composed_name, has_name_shape, is_name, is_property_name, is_namespace, is_composed_name, is_composed_property_name, is_composed_namespace};
ghost use Rattle.names.specs.Steps.{IsLent, letter_pair, lone_letter, letter_of, letter_at, LetterTold, Front, FormPut};

pub mod composed_codes; // composed_codes.rt: the composed letters of the table
pub mod letter_codes; // letter_codes.rt: its letters
pub mod mark_codes; // mark_codes.rt: its marks
pub mod own_form; // own_form.rt: how much of a text is composed as it is typed
pub mod putting; // putting.rt: a name judged and composed by a table that is lent
pub mod table; // table.rt: a letter and a mark looked up in it

use buffer::{put_byte, put_bytes};
use own_form::{is_own_form, is_plain, own_front};
use table::{Table, composed_letter};
use tables::get_or;
use text::{Class, all_in, in_class, one_of, part};

// A composed letter of a name, and how many of the bytes that were typed it has; 0 where they begin with none. No Option: the
// definitions tell it so, and the tables give the code 0 for none already.
#[derive(Clone, Copy)]
pub struct Letter {
    pub code: u16,
    pub width: usize,
}

// The letter that two bytes write by themselves, U+00A0 to U+017F; 0 where they write none.
fn letter_pair(a: u8, b: u8) -> u16
    ensures { result ≡ letter_pair a b }
{
    let code = 64 * u16::from(a % 32) + u16::from(b % 64);
    if ((194 <= a) & (a <= 197)) & ((128 <= b) & (b <= 191)) & (160 <= code) {
        code
    } else {
        0
    }
}

// The letter that a text begins with where no mark composes with its first byte, a.
fn lone_letter(a: u8, b: u8) -> Letter
    ensures { result ≡ lone_letter a b }
{
    if is_plain(a) {
        return Letter {
            code: u16::from(a),
            width: 1,
        };
    }
    let code = letter_pair(a, b);
    if code == 0 {
        return Letter { code: 0, width: 0 };
    }
    Letter { code, width: 2 }
}

// Four arrays that are lent: those of the table, or others, whose letters nothing is told of. What goes by them is compiled into its
// callers, so that their lengths are known where a Table lends them.
#[derive(Clone, Copy)]
struct Lent<'a> {
    places: &'a [u8],
    letters: &'a [u16],
    marks: &'a [u16],
    codes: &'a [u16],
}

impl Lent<'_> {
    // The composed letter that three bytes begin with. The table is asked only where the second is 204, as of every mark; the third
    // then tells the mark.
    #[inline(always)]
    fn letter_of(&self, a: u8, b: u8, c: u8) -> Letter
        ensures { LetterTold (IsLent self.now) result (letter_of a b c) }
    {
        if b != 204 {
            return lone_letter(a, b);
        }
        let code = composed_letter(
            self.places,
            self.letters,
            self.marks,
            self.codes,
            u16::from(a),
            640 + u16::from(c),
        );
        if code == 0 {
            return lone_letter(a, b);
        }
        Letter { code, width: 3 }
    }

    // The composed letter at a place.
    #[inline(always)]
    fn letter_at(&self, s: &[u8], i: usize) -> Letter
        ensures { LetterTold (IsLent self.now) result (letter_at (drop i s.now)) }
    {
        if s.len() <= i {
            return Letter { code: 0, width: 0 };
        }
        self.letter_of(get_or(s, i, 0), get_or(s, i + 1, 0), get_or(s, i + 2, 0))
    }
}

// How many bytes a code point has.
fn size_of(code: u16) -> usize
    ensures { result ≡ length (encode code) }
{
    if code < 128 { 1 } else { 2 }
}

// Whether the length as typed and the ends are those of a name.
fn has_name_shape(s: &[u8]) -> bool
    ensures { result ≡ has_name_shape s.now }
{
    if s.len() == 0 {
        return false;
    }
    let first = get_or(s, 0, 0);
    let last = get_or(s, s.len() - 1, 0);
    ((1 <= s.len()) & (s.len() <= 64))
        & !one_of(first, b"!~+")
        & !in_class(Class::Blank, first)
        & !in_class(Class::Blank, last)
}

// Whether the bytes are a name that is its own composed form.
pub fn is_composed_name(s: &[u8]) -> bool
    ensures { result ≡ is_composed_name s.now }
{
    has_name_shape(s) & is_own_form(s)
}

// The same of a property name, and of a namespace.
pub fn is_composed_property_name(s: &[u8]) -> bool
    ensures { result ≡ is_composed_property_name s.now }
{
    is_composed_name(s) & all_in(s, Class::NoDot)
}

pub fn is_composed_namespace(s: &[u8]) -> bool
    ensures { result ≡ is_composed_namespace s.now }
{
    (s.len() == 0) | is_composed_name(s)
}

// Writes a code point below 2,048, as far as there is room.
fn put_code(h: &mut [u8], at: usize, code: u16)
    ensures { h.new ≡ written h.old at (encode code) }
{
    if code < 128 {
        put_byte(h, at, (code % 128) as u8);
        return;
    }
    if h.len() <= at {
        return;
    }
    put_byte(h, at, (192 + code / 64 % 32) as u8);
    put_byte(h, at + 1, (128 + code % 64) as u8);
}

// Goes over a text once, from a place up to which it is its own composed form: writes that form, letter by letter, and tells how long
// it is, 0 where there is none.
#[inline(always)]
fn compose_from(lent: &Lent, h: &mut [u8], at: usize, s: &[u8], front: usize) -> usize
    requires { Front s.now front × (at + length s.now < 2 ^ 64) }
    ensures { IsLent lent.now → FormPut s.now h.old at h.new result }
{
    put_bytes(h, at, part(s, 0, front));
    let mut n = front;
    let mut i = front; // a letter has up to three bytes, so that no range of places serves
    while i < s.len() {
        let x = lent.letter_at(s, i);
        let w = x.width;
        if w == 0 {
            return 0;
        }
        put_code(h, at + n, x.code);
        n += size_of(x.code);
        i += w;
    }
    n
}

// The same with a table of its own. It is a function apart from its callers so that they stay small enough to be compiled into theirs.
fn compose_rest(h: &mut [u8], at: usize, s: &[u8], front: usize) -> usize
    requires { Front s.now front × (at + length s.now < 2 ^ 64) }
    ensures { FormPut s.now h.old at h.new result }
{
    let table = Table::new();
    compose_from(&table.lent(), h, at, s, front)
}

// Whether the bytes are a name.
pub fn is_name(s: &[u8]) -> bool
    ensures { result ≡ is_name s.now }
{
    if !has_name_shape(s) {
        return false;
    }
    let front = own_front(s);
    if front == s.len() {
        return true;
    }
    let mut form = [0u8; 64];
    let n = compose_rest(&mut form, 0, s, front);
    0 < n
}

// Whether the bytes are a property name, and a namespace.
pub fn is_property_name(s: &[u8]) -> bool
    ensures { result ≡ is_property_name s.now }
{
    is_name(s) & all_in(s, Class::NoDot)
}

pub fn is_namespace(s: &[u8]) -> bool
    ensures { result ≡ is_namespace s.now }
{
    (s.len() == 0) | is_name(s)
}

// Writes the composed form of a name, as far as there is room, and tells how long it is; bytes that have none stay as they are.
pub fn put_composed(h: &mut [u8], at: usize, s: &[u8]) -> usize
    ensures { (result ≡ length (composed_name s.now)) × (h.new ≡ written h.old at (composed_name s.now)) }
{
    let front = own_front(s);
    if front == s.len() {
        put_bytes(h, at, s);
        return front;
    }
    let start = at.min(h.len());
    let n = compose_rest(h, start, s, front);
    if n == 0 {
        put_bytes(h, start, s);
        return s.len();
    }
    n
}
