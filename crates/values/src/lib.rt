// References, values and kinds: the tests, and how the values are read.
#![tactic(auto)]

ghost use Rattle.std.specs.Prelude.{◌≡◌};
ghost use Rattle.names.specs.Names.{is_name, is_property_name, is_namespace, is_sized, last};
ghost use Rattle.values.specs.Names.{is_value, is_reference, reference};
ghost use Rattle.values.specs.Answers.{has_bare_ends, Splits};

mod booleans; // booleans.rt: booleans
mod dates; // dates.rt: dates
pub mod kinds; // kinds.rt: what differs from kind to kind
mod numbers; // numbers.rt: numbers
pub mod rules; // rules.rt: the rules for bytes, in a table

pub use dates::{is_date_code, read_date};
pub use kinds::{
    KIND_COUNT, in_range, kind_at, kind_from, read_scalar, scalar_length, word_length,
};
use names::{is_name, is_namespace};
use tables::get_or;
use text::{Class, Span, all_in, in_class, part, scan, trimmed};

// The kinds of a property's values.
#[derive(Clone, Copy, Debug, PartialEq, Eq)]
pub enum Kind {
    Page,
    Scalar(Scalar),
    String,
}

// The kinds whose values are numbers of an order of their own: each value has a code.
#[derive(Clone, Copy, Debug, PartialEq, Eq)]
pub enum Scalar {
    Number,
    Boolean,
}

// A reference as written: where its namespace, if it has one, and its article name lie.
#[derive(Clone, Copy)]
pub struct Split {
    pub namespace: Option<Span>,
    pub article: Span,
}

// The last byte of a text, 0 of an empty one.
fn last_byte(s: &[u8]) -> u8
    ensures { result ≡ last s.now }
{
    if s.len() == 0 {
        return 0;
    }
    get_or(s, s.len() - 1, 0)
}

// Whether there are 1 to 64 bytes.
fn is_sized(s: &[u8]) -> bool
    ensures { result ≡ is_sized s.now }
{
    (1 <= s.len()) & (s.len() <= 64)
}

// Whether there is no blank at either end.
fn has_bare_ends(s: &[u8]) -> bool
    ensures { result ≡ has_bare_ends s.now }
{
    !in_class(Class::Blank, get_or(s, 0, 0)) & !in_class(Class::Blank, last_byte(s))
}

// Whether the bytes are a value.
pub fn is_value(s: &[u8]) -> bool
    ensures { result ≡ is_value s.now }
{
    is_sized(s) & all_in(s, Class::Value) & (get_or(s, 0, 0) != b'~') & has_bare_ends(s)
}

// Where the two sides of a reference lie, split at the first colon and trimmed.
pub fn split_reference(s: &[u8]) -> Split
    ensures { Splits s.now result }
{
    let colon = scan(s, 0, Class::NoColon);
    if colon < s.len() {
        return Split {
            namespace: Some(trimmed(s, 0, colon)),
            article: trimmed(s, colon + 1, s.len()),
        };
    }
    Split {
        namespace: None,
        article: trimmed(s, 0, s.len()),
    }
}

// Whether the bytes are a reference.
pub fn is_reference(s: &[u8]) -> bool
    ensures { result ≡ is_reference (reference s.now) }
{
    let split = split_reference(s);
    let a = split.article;
    let named = is_name(part(s, a.start, a.len));
    match split.namespace {
        Some(n) => is_namespace(part(s, n.start, n.len)) & named,
        None => named,
    }
}
