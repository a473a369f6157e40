// Shapes and counts of parts.
ghost use Rattle.std.specs.Prelude.{◌≡◌};
ghost use Rattle.query_tree.specs.Pass.{alike as are_alike, is_query, is_or, is_two, is_property, is_alternatives, bracket as bracket_of, full_bytes, is_good, up_to_bytes, up_to_levels};

use query_tree::{Item, Shape};

// What may stand on both sides of `||`.
pub fn alike(a: Shape, b: Shape) -> bool
    ensures { result ≡ are_alike a b }
{
    (a == b)
        & matches!(
            a,
            Shape::Categories | Shape::Identifiers | Shape::Alternatives
        )
}

pub fn is_query(s: Shape) -> bool
    ensures { result ≡ is_query s }
{
    !is_alternatives(s)
}

pub fn is_or(s: Shape) -> bool
    ensures { result ≡ is_or s }
{
    matches!(s, Shape::Disjunction)
}

pub fn is_two(s: Shape) -> bool
    ensures { result ≡ is_two s }
{
    matches!(s, Shape::Disjunction | Shape::Conjunction)
}

pub fn is_property(s: Shape) -> bool
    ensures { result ≡ is_property s }
{
    matches!(s, Shape::Property)
}

pub fn is_alternatives(s: Shape) -> bool
    ensures { result ≡ is_alternatives s }
{
    matches!(s, Shape::Alternatives)
}

// The bytes of a shape's brackets.
fn bracket(s: Shape) -> u16
    ensures { result ≡ bracket_of s }
{
    match s {
        Shape::Categories => 13,
        Shape::Identifiers => 4,
        Shape::Alternatives | Shape::Property | Shape::Disjunction | Shape::Conjunction => 0,
    }
}

// A part's bytes with its brackets.
pub fn full_bytes(i: Item) -> usize
    ensures { result ≡ full_bytes i }
{
    usize::from(bracket(i.shape)) + usize::from(i.bytes)
}

// Whether the rules are kept, as an operand or as a whole.
pub fn is_good(i: Item) -> bool
    ensures { result ≡ is_good i }
{
    i.kept & !i.leads
}

// A count of bytes up to the first that is too large; of levels or names. Each is one line by the library's min.
pub fn up_to_bytes(n: usize) -> u16
    ensures { result ≡ up_to_bytes n }
{
    n.min(1025) as u16
}

pub fn up_to_levels(n: usize) -> u16
    ensures { result ≡ up_to_levels n }
{
    n.min(9) as u16
}
