// What differs from kind to kind: its word, its byte, and of a scalar kind how it is read, what codes it has, how long it is, spelled.
ghost use Rattle.std.specs.Prelude.{◌≡◌, length, drop};
ghost use Rattle.values.specs.Values.{kind_word, kind_code, kind_from, read_scalar, lowest, above, in_range};
ghost use Rattle.values.specs.Spelling.{spell_scalar};
ghost use Rattle.values.specs.Answers.{kind_at};

use crate::booleans::{boolean_length, read_boolean};
use crate::numbers::{number_length, read_number};
use crate::{Kind, Scalar};
use text::word_at;

// Every kind has a byte below this.
pub const KIND_COUNT: u8 = 4;

// The kind whose word stands at a place.
pub fn kind_at(s: &[u8], at: usize) -> Option<Kind>
    ensures { result ≡ kind_at (drop at s.now) }
{
    if word_at(s, at, b"page") {
        return Some(Kind::Page);
    }
    if word_at(s, at, b"number") {
        return Some(Kind::Scalar(Scalar::Number));
    }
    if word_at(s, at, b"boolean") {
        return Some(Kind::Scalar(Scalar::Boolean));
    }
    word_at(s, at, b"string").then_some(Kind::String)
}

// How long the word of a kind is.
pub fn word_length(k: Kind) -> usize
    ensures { result ≡ length (kind_word k) }
{
    match k {
        Kind::Page => 4,
        Kind::Scalar(Scalar::Number) => 6,
        Kind::Scalar(Scalar::Boolean) => 7,
        Kind::String => 6,
    }
}

// The byte of a kind in held forms.
impl From<Kind> for u8 {
    ghost from_gives = { λ k n. n ≡ kind_code k };

    fn from(k: Kind) -> u8 {
        match k {
            Kind::Page => 0,
            Kind::Scalar(Scalar::Number) => 1,
            Kind::Scalar(Scalar::Boolean) => 2,
            Kind::String => 3,
        }
    }
}

// The kind of a byte; of one that no kind has, the last kind. A TryFrom would refuse that byte, and this answers for every byte.
pub fn kind_from(b: u8) -> Kind
    ensures { result ≡ kind_from b }
{
    match b {
        0 => Kind::Page,
        1 => Kind::Scalar(Scalar::Number),
        2 => Kind::Scalar(Scalar::Boolean),
        _ => Kind::String,
    }
}

// The code of the value that the bytes write in a scalar kind.
pub fn read_scalar(k: Scalar, s: &[u8]) -> Option<u64>
    ensures { result ≡ read_scalar k s.now }
{
    match k {
        Scalar::Number => read_number(s),
        Scalar::Boolean => read_boolean(s),
    }
}

// The lowest code of a scalar kind, and the one above all: two tables of the definitions.
fn lowest_code(k: Scalar) -> u64
    ensures { result ≡ lowest k }
{
    match k {
        Scalar::Number => 1,
        Scalar::Boolean => 0,
    }
}

fn code_above(k: Scalar) -> u64
    ensures { result ≡ above k }
{
    match k {
        Scalar::Number => 2_000_000_000_000_000_000,
        Scalar::Boolean => 2,
    }
}

// Whether a scalar kind has a value of that code.
pub fn in_range(k: Scalar, c: u64) -> bool
    ensures { result ≡ in_range k c }
{
    (lowest_code(k) <= c) & (c < code_above(k))
}

// How long the value is that a code tells, spelled.
pub fn scalar_length(k: Scalar, c: u64) -> usize
    ensures { result ≡ length (spell_scalar k c) }
{
    match k {
        Scalar::Number => number_length(c),
        Scalar::Boolean => boolean_length(c),
    }
}
