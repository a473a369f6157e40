// Entries with their names composed, in a text of their own.
ghost use Rattle.std.specs.Prelude.{◌≡◌, cond, [], length};
ghost use Rattle.text.specs.Bytes.{Bytes};
ghost use Rattle.text.specs.Parts.{part_of};
ghost use Rattle.buffer.specs.Writing.{written};
ghost use Rattle.register_text_entries.specs.Composing.{has_first, has_second, has_gap, gap, is_named, broken_by, SecondPut, Copies, Composes};

use super::table::{item_at, put_item};
use super::{Item, Tag};
use buffer::put_bytes;
use names::table::Table;
use tables::narrow;
use text::{Class, Span, all_in, part};
use values::is_value;

// An entry that was copied, and whether it breaks a rule. No Option: those behind a broken one are copied too, as is said of every row.
#[derive(Clone, Copy)]
pub struct Copied {
    pub item: Item,
    pub broken: bool,
}

// Whether an entry has a first part, and a second.
fn has_first(tag: Tag) -> bool
    ensures { result ≡ has_first tag }
{
    tag != Tag::Close
}

fn has_second(tag: Tag) -> bool
    ensures { result ≡ has_second tag }
{
    matches!(tag, Tag::Page | Tag::Val)
}

// Whether an entry declares something: then `" "` stands behind its first part, as in a register text.
fn has_gap(tag: Tag) -> bool
    ensures { result ≡ has_gap tag }
{
    matches!(tag, Tag::Prop | Tag::Page)
}

// Whether the second part of an entry is a name.
fn is_named(tag: Tag) -> bool
    ensures { result ≡ is_named tag }
{
    tag == Tag::Page
}

// A part that an entry has, or an empty one.
fn kept(has: bool, p: Span) -> Span
    ensures { (s : Bytes) → part_of s result ≡ cond has (part_of s p) [] }
{
    if has { p } else { Span { start: 0, len: 0 } }
}

// How long what stands behind the first part is; writing it.
fn gap_size(tag: Tag) -> u16
    ensures { result ≡ length (gap tag) }
{
    if has_gap(tag) { 3 } else { 0 }
}

fn put_gap(copy: &mut [u8], at: usize, tag: Tag)
    ensures { copy.new ≡ written copy.old at (gap tag) }
{
    if has_gap(tag) {
        put_bytes(copy, at, b"\" \"");
    }
}

// Whether an entry of these parts breaks a rule, n and m being how long the composed forms of its names are, 0 where they are none.
fn is_broken(tag: Tag, n: usize, m: usize, a: &[u8], b: &[u8]) -> bool
    ensures { result ≡ broken_by tag n m a.now b.now }
{
    match tag {
        Tag::Prop => !((0 < n) & all_in(a, Class::NoDot)),
        Tag::Page => !(((a.len() == 0) | (0 < n)) & (0 < m)),
        Tag::Cat => !(0 < n),
        Tag::Val => !((0 < n) & all_in(a, Class::NoDot) & is_value(b)),
        Tag::Close => false,
    }
}

// Writes the second part, a name composed and a value as typed, and tells how long it then is, 0 where it is to be a name and is none.
fn put_second(table: &Table, copy: &mut [u8], at: u16, tag: Tag, b: &[u8]) -> usize
    ensures { SecondPut tag b.now copy.old at copy.new result }
{
    if is_named(tag) {
        table.put_name(copy, at, b)
    } else {
        put_bytes(copy, usize::from(at), b);
        b.len()
    }
}

// Copies an entry of s to a place, its names composed; the item's next place is the one behind it.
fn copy_entry(table: &Table, s: &[u8], item: Item, copy: &mut [u8], at: u16) -> Copied
    ensures { Copies s.now item copy.old at copy.new result }
{
    let tag = item.tag;
    let kind = item.kind;
    let first = kept(has_first(tag), item.first);
    let second = kept(has_second(tag), item.second);
    let a = part(s, first.start, first.len);
    let b = part(s, second.start, second.len);
    let start = usize::from(at);
    let first_size = table.put_name(copy, at, a);
    let n = usize::from(narrow(first_size));
    let end = start + n;
    put_gap(copy, end, tag);
    let behind = narrow(end + usize::from(gap_size(tag)));
    let begin = usize::from(behind);
    let second_size = put_second(table, copy, behind, tag, b);
    let m = usize::from(narrow(second_size));
    let broken = is_broken(tag, first_size, second_size, a, b);
    Copied {
        item: Item {
            tag,
            kind,
            first: Span { start, len: n },
            second: Span {
                start: begin,
                len: m,
            },
            inner: false,
            next: begin + m,
        },
        broken,
    }
}

// Copies the first n entries in t, their names composed: they are then in the rows of u, over the copy. Tells whether one breaks a rule.
pub fn compose(s: &[u8], t: &[u16], n: usize, copy: &mut [u8], u: &mut [u16]) -> bool
    ensures { Composes s.now t.now n copy.old u.old copy.new u.new result }
{
    let table = Table::new();
    let mut broken = false;
    let mut end: u16 = 0;
    for i in 0..n {
        let copied = copy_entry(&table, s, item_at(t, i), copy, end);
        let item = copied.item;
        put_item(u, i, item);
        end = narrow(item.next);
        broken = broken | copied.broken;
    }
    broken
}
