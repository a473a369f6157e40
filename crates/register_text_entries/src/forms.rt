// The forms of the register text, each read at a place.
ghost use Rattle.std.specs.Prelude.{◌≡◌, length, drop};
ghost use Rattle.values.specs.Values.{kind_word};
ghost use Rattle.language.specs.RegisterText.{quoted, kind_word_at, prop_form, page_form, cat_form, val_form, closing, next_entry};
ghost use Rattle.register_text_entries.specs.Items.{Finds, Quotes, framed, kind_in, place_of, ReadsEntry};

use super::{Item, Tag};
use text::{Class, Span, scan, word_at};
use values::{Kind, kind_at, word_length};

// The place behind the word w, where it stands at a place.
pub fn after_word(s: &[u8], at: usize, w: &[u8]) -> Option<usize>
    ensures { Finds s.now at w.now result }
{
    if !word_at(s, at, w) {
        return None;
    }
    if at <= s.len() {
        Some(at + w.len())
    } else {
        Some(s.len())
    }
}

// The text between quotation marks at a place, and the place behind it.
pub fn quoted_at(s: &[u8], at: usize) -> Option<(Span, usize)>
    ensures { Quotes s.now (quoted (drop at s.now)) result }
{
    let start = after_word(s, at, b"\"")?;
    let end = scan(s, start, Class::Quotable);
    let next = after_word(s, end, b"\"")?;
    let len = end - start;
    Some((Span { start, len }, next))
}

// The text between quotation marks that stands between the words w and v at a place, and the place behind v.
pub fn framed_at(s: &[u8], at: usize, w: &[u8], v: &[u8]) -> Option<(Span, usize)>
    ensures { Quotes s.now (framed w.now v.now (drop at s.now)) result }
{
    let start = after_word(s, at, w)?;
    let (text, end) = quoted_at(s, start)?;
    let next = after_word(s, end, v)?;
    Some((text, next))
}

// The kind word at a place, and the place behind it.
pub fn kind_word(s: &[u8], at: usize) -> Option<(Kind, usize)>
    ensures { kind_in s.now result ≡ kind_word_at (drop at s.now) }
{
    let kind = kind_at(s, at)?;
    Some((kind, at + word_length(kind)))
}

// A property line at a place.
pub fn prop_form(s: &[u8], at: usize) -> Option<Item>
    ensures { ReadsEntry s.now (prop_form (drop at s.now)) result }
{
    let (first, a) = framed_at(s, at, b"(prop ", b" ")?;
    let (kind, b) = kind_word(s, a)?;
    let next = after_word(s, b, b")\n")?;
    Some(Item {
        tag: Tag::Prop,
        kind,
        first,
        second: first,
        inner: false,
        next,
    })
}

// The head of a page form at a place.
pub fn page_form(s: &[u8], at: usize) -> Option<Item>
    ensures { ReadsEntry s.now (page_form (drop at s.now)) result }
{
    let (first, a) = framed_at(s, at, b"(page ", b" ")?;
    let (second, next) = quoted_at(s, a)?;
    Some(Item {
        tag: Tag::Page,
        kind: Kind::Page,
        first,
        second,
        inner: true,
        next,
    })
}

// A cat form at a place.
pub fn cat_form(s: &[u8], at: usize) -> Option<Item>
    ensures { ReadsEntry s.now (cat_form (drop at s.now)) result }
{
    let (first, next) = framed_at(s, at, b" (cat ", b")")?;
    Some(Item {
        tag: Tag::Cat,
        kind: Kind::Page,
        first,
        second: first,
        inner: true,
        next,
    })
}

// A val form at a place.
pub fn val_form(s: &[u8], at: usize) -> Option<Item>
    ensures { ReadsEntry s.now (val_form (drop at s.now)) result }
{
    let (first, a) = framed_at(s, at, b" (val ", b" ")?;
    let (second, b) = quoted_at(s, a)?;
    let next = after_word(s, b, b")")?;
    Some(Item {
        tag: Tag::Val,
        kind: Kind::Page,
        first,
        second,
        inner: true,
        next,
    })
}

// The end of a page form at a place.
pub fn closing_form(s: &[u8], at: usize) -> Option<Item>
    ensures { ReadsEntry s.now (closing (drop at s.now)) result }
{
    let next = after_word(s, at, b")\n")?;
    let none = Span { start: 0, len: 0 };
    Some(Item {
        tag: Tag::Close,
        kind: Kind::Page,
        first: none,
        second: none,
        inner: false,
        next,
    })
}

// The entry at a place, at the start of a line or inside a page form.
pub fn next_entry(s: &[u8], at: usize, inner: bool) -> Option<Item>
    ensures { ReadsEntry s.now (next_entry (place_of inner) (drop at s.now)) result }
{
    if inner {
        if let Some(cat) = cat_form(s, at) {
            return Some(cat);
        }
        if let Some(val) = val_form(s, at) {
            return Some(val);
        }
        return closing_form(s, at);
    }
    if let Some(prop) = prop_form(s, at) {
        return Some(prop);
    }
    page_form(s, at)
}
