// What differs from comparator to comparator, as they are written: its word, its byte, what it means.
ghost use Rattle.std.specs.Prelude.{◌≡◌, length, drop};
ghost use Rattle.language.specs.Comparators.{word, typed, first_typed, is_equal, comparator_code, comparator_from, strictly, or_equal, in_any_namespace};

use crate::{Comparator, SurfaceComparator};
use text::word_at;

// No comparator has a byte above this.
pub const LAST_COMPARATOR: u8 = 5;

// The comparator that is written at a place.
pub fn comparator_at(s: &[u8], at: usize) -> SurfaceComparator
    ensures { result ≡ first_typed typed (drop at s.now) }
{
    if word_at(s, at, b"!") {
        return SurfaceComparator::Unequal;
    }
    if word_at(s, at, b">>") {
        return SurfaceComparator::Greater;
    }
    if word_at(s, at, b">") {
        return SurfaceComparator::AtLeast;
    }
    if word_at(s, at, b"<<") {
        return SurfaceComparator::Less;
    }
    if word_at(s, at, b"<") {
        SurfaceComparator::AtMost
    } else {
        SurfaceComparator::Equal
    }
}

// How long the word of a comparator is.
pub fn word_length(c: SurfaceComparator) -> u8
    ensures { result ≡ length (word c) }
{
    match c {
        SurfaceComparator::Equal => 0,
        SurfaceComparator::Unequal | SurfaceComparator::AtLeast | SurfaceComparator::AtMost => 1,
        SurfaceComparator::Greater | SurfaceComparator::Less => 2,
    }
}

// Whether no comparator is written.
pub fn is_equal(c: SurfaceComparator) -> bool
    ensures { result ≡ is_equal c }
{
    c == SurfaceComparator::Equal
}

// The byte of a comparator in held trees.
impl From<SurfaceComparator> for u8 {
    ghost from_gives = { λ c n. n ≡ comparator_code c };

    fn from(c: SurfaceComparator) -> u8 {
        match c {
            SurfaceComparator::Equal => 0,
            SurfaceComparator::Unequal => 1,
            SurfaceComparator::Greater => 2,
            SurfaceComparator::Less => 3,
            SurfaceComparator::AtLeast => 4,
            SurfaceComparator::AtMost => LAST_COMPARATOR,
        }
    }
}

// The comparator of a byte; of one that no comparator has, the last. A TryFrom would refuse that byte, and this answers for every byte.
pub fn comparator_from(code: u8) -> SurfaceComparator
    ensures { result ≡ comparator_from code }
{
    match code {
        0 => SurfaceComparator::Equal,
        1 => SurfaceComparator::Unequal,
        2 => SurfaceComparator::Greater,
        3 => SurfaceComparator::Less,
        4 => SurfaceComparator::AtLeast,
        _ => SurfaceComparator::AtMost,
    }
}

// The core comparator that one is, equality aside.
pub fn strict(c: SurfaceComparator) -> Comparator
    ensures { result ≡ strictly c }
{
    match c {
        SurfaceComparator::Equal => Comparator::Equal,
        SurfaceComparator::Unequal => Comparator::Unequal,
        SurfaceComparator::Greater | SurfaceComparator::AtLeast => Comparator::Greater,
        SurfaceComparator::Less | SurfaceComparator::AtMost => Comparator::Less,
    }
}

// Whether equality is added.
pub fn or_equal(c: SurfaceComparator) -> bool
    ensures { result ≡ or_equal c }
{
    matches!(c, SurfaceComparator::AtLeast | SurfaceComparator::AtMost)
}

// Whether a name is looked for in every namespace, whichever is written.
pub fn in_any_namespace(c: SurfaceComparator) -> bool
    ensures { result ≡ in_any_namespace c }
{
    c == SurfaceComparator::Unequal
}
