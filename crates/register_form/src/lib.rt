// The held register: reading its rows. Every number is one of 16 bits, so that no place overflows; what lies behind the bytes is 0.
#![tactic(auto, unfolding(crate::specs::Form::form_start, crate::specs::Form::form_at, crate::specs::Form::term_at, crate::specs::Form::text_start, crate::specs::Form::text_at, crate::specs::Form::property_at, crate::specs::Form::page_at, crate::specs::Dictionary::space_of, crate::specs::Dictionary::name_of))]

ghost use Rattle.std.specs.Prelude.{◌≡◌, suc, ◌+◌, ◌*◌};
ghost use Rattle.buffer.specs.Numbers.{two_at};
ghost use Rattle.values.specs.Values.{kind_from};
ghost use Rattle.register_form.specs.Dictionary.{space_of, name_of, group_of, term_code};
ghost use Rattle.register_form.specs.Form.{kind_byte, page_count, property_count, term_count, text_count, property_at, page_at, form_start, form_at, term_at, text_start, text_at};

pub mod layout; // layout.rt: where the regions begin, and how many rows they have room for

use buffer::{eight_at, two_at};
pub use layout::REGISTER_BYTES;
use tables::get_or;
use text::part;
use values::{Kind, kind_from};

// Where row i of a region begins whose rows have so many bytes; number i of a region of numbers.
fn row_at(region: u16, bytes: u16, i: u16) -> usize
    ensures { result ≡ region + bytes * i }
{
    usize::from(region) + usize::from(bytes) * usize::from(i)
}

pub fn number_at(h: &[u8], region: u16, i: u16) -> u16
    ensures { result ≡ two_at h.now (region + 2 * i) }
{
    two_at(h, row_at(region, 2, i))
}

// How many properties, pages, terms and texts there are. Readers of one line each, here and below: each promises a word of the layout
// of its own, which a number of the region as a parameter would take from its callers.
pub fn property_count(h: &[u8]) -> u16
    ensures { result ≡ property_count h.now }
{
    two_at(h, 0)
}

pub fn page_count(h: &[u8]) -> u16
    ensures { result ≡ page_count h.now }
{
    two_at(h, 2)
}

pub fn term_count(h: &[u8]) -> u16
    ensures { result ≡ term_count h.now }
{
    two_at(h, 4)
}

pub fn text_count(h: &[u8]) -> u16
    ensures { result ≡ text_count h.now }
{
    two_at(h, 6)
}

// The byte of property p's kind, and the kind; the number of the text that is its name.
pub fn kind_byte(h: &[u8], p: u16) -> u8
    ensures { result ≡ kind_byte h.now p }
{
    get_or(h, row_at(layout::PROPERTIES, 3, p), 0)
}

pub fn kind_at(h: &[u8], p: u16) -> Kind
    ensures { result ≡ (property_at h.now p).kind }
{
    kind_from(kind_byte(h, p))
}

pub fn name_number(h: &[u8], p: u16) -> u16
    ensures { result ≡ (property_at h.now p).name }
{
    two_at(h, row_at(layout::PROPERTY_NAMES, 3, p))
}

// The number of the text that is page i's identifier; where its forms begin, and where they end.
pub fn identifier_number(h: &[u8], i: u16) -> u16
    ensures { result ≡ (page_at h.now i).identifier }
{
    number_at(h, layout::PAGES, i)
}

pub fn form_start(h: &[u8], i: u16) -> u16
    ensures { result ≡ form_start h.now i }
{
    number_at(h, layout::FORM_STARTS, i)
}

pub fn form_end(h: &[u8], i: u16) -> u16
    ensures { result ≡ form_start h.now (suc i) }
{
    number_at(h, layout::FORM_ENDS, i)
}

// The number of the term that form j is.
pub fn form_at(h: &[u8], j: u16) -> u16
    ensures { result ≡ form_at h.now j }
{
    number_at(h, layout::FORMS, j)
}

// The bytes of term f, its group and its code.
pub fn term_at(h: &[u8], f: u16) -> &[u8]
    ensures { result.now ≡ term_at h.now f }
{
    part(h, row_at(layout::TERMS, 9, f), 9)
}

pub fn group_at(h: &[u8], f: u16) -> u8
    ensures { result ≡ group_of (term_at h.now f) }
{
    get_or(h, row_at(layout::TERMS, 9, f), 0)
}

pub fn code_at(h: &[u8], f: u16) -> u64
    ensures { result ≡ term_code (term_at h.now f) }
{
    eight_at(h, row_at(layout::CODES, 9, f))
}

// Where text x begins among the bytes of all texts, and where it ends.
pub fn text_start(h: &[u8], x: u16) -> u16
    ensures { result ≡ text_start h.now x }
{
    number_at(h, layout::TEXT_STARTS, x)
}

pub fn text_end(h: &[u8], x: u16) -> u16
    ensures { result ≡ text_start h.now (suc x) }
{
    number_at(h, layout::TEXT_ENDS, x)
}

// Text x.
pub fn text_at(h: &[u8], x: u16) -> &[u8]
    ensures { result.now ≡ text_at h.now x }
{
    let start = text_start(h, x);
    part(
        h,
        usize::from(layout::TEXTS) + usize::from(start),
        usize::from(text_end(h, x).saturating_sub(start)),
    )
}

// The namespace and the name in a text; in text x.
pub fn space_of(t: &[u8]) -> &[u8]
    ensures { result.now ≡ space_of t.now }
{
    part(t, 1, usize::from(get_or(t, 0, 0)))
}

pub fn name_of(t: &[u8]) -> &[u8]
    ensures { result.now ≡ name_of t.now }
{
    part(t, 1 + usize::from(get_or(t, 0, 0)), t.len())
}

pub fn space_at(h: &[u8], x: u16) -> &[u8]
    ensures { result.now ≡ space_of (text_at h.now x) }
{
    space_of(text_at(h, x))
}

pub fn name_at(h: &[u8], x: u16) -> &[u8]
    ensures { result.now ≡ name_of (text_at h.now x) }
{
    name_of(text_at(h, x))
}
