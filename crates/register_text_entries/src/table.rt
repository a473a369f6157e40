// Entries as rows of five numbers: a code, and the start and length of two parts of the text.
ghost use Rattle.std.specs.Prelude.{◌≡◌, ◌%◌, get_or, set};
ghost use Rattle.text.specs.Bytes.{Bytes};
ghost use Rattle.text.specs.Parts.{part_of};
ghost use Rattle.register_text_entries.specs.Items.{entry_in};
ghost use Rattle.register_text_entries.specs.Table.{entry_code, tag_from, kind_of_code, entry_from, entry_at, with_row};

use super::{Item, Tag};
use tables::{get_or, narrow};
use text::Span;
use values::{Kind, kind_from};

// Writes a number at a place of a table, where there is room.
pub fn put(t: &mut [u16], at: usize, v: usize)
    ensures { t.new ≡ set t.old at (v % 65536) }
{
    tables::put(t, at, narrow(v));
}

// The code of an entry.
pub fn code_of(tag: Tag, kind: Kind) -> usize
    ensures { result ≡ entry_code tag kind }
{
    match tag {
        Tag::Page => 0,
        Tag::Cat => 1,
        Tag::Val => 2,
        Tag::Close => 3,
        Tag::Prop => 4 + usize::from(u8::from(kind)),
    }
}

// Writes an item into row n, where there is room.
pub fn put_item(t: &mut [u16], n: usize, item: Item)
    ensures { t.new ≡ with_row t.old n item }
{
    if n <= t.len() / 5 {
        let at = 5 * n;
        put(t, at, code_of(item.tag, item.kind));
        put(t, at + 1, item.first.start);
        put(t, at + 2, item.first.len);
        put(t, at + 3, item.second.start);
        put(t, at + 4, item.second.len);
    }
}

// What the entry of a code is.
pub fn tag_of(code: usize) -> Tag
    ensures { result ≡ tag_from code }
{
    match code {
        0 => Tag::Page,
        1 => Tag::Cat,
        2 => Tag::Val,
        3 => Tag::Close,
        _ => Tag::Prop,
    }
}

// The kind of a property's code.
pub fn kind_of(code: usize) -> Kind
    ensures { result ≡ kind_of_code code }
{
    if code < 4 {
        return kind_from(0);
    }
    kind_from(((code - 4) % 256) as u8)
}

// The item of a code and two parts.
pub fn item_from(code: usize, first: Span, second: Span) -> Item
    ensures { (s : Bytes) → entry_in s result ≡ entry_from code (part_of s first) (part_of s second) }
{
    Item {
        tag: tag_of(code),
        kind: kind_of(code),
        first,
        second,
        inner: false,
        next: 0,
    }
}

// The item in row i.
pub fn item_at(t: &[u16], i: usize) -> Item
    ensures { (s : Bytes) → entry_in s result ≡ entry_at s t.now i }
{
    if t.len() / 5 < i {
        let none = Span { start: 0, len: 0 };
        return item_from(0, none, none);
    }
    let at = 5 * i;
    let first = Span {
        start: usize::from(get_or(t, at + 1, 0)),
        len: usize::from(get_or(t, at + 2, 0)),
    };
    let second = Span {
        start: usize::from(get_or(t, at + 3, 0)),
        len: usize::from(get_or(t, at + 4, 0)),
    };
    item_from(usize::from(get_or(t, at, 0)), first, second)
}
