// What heads, pieces and brackets without `::` add to a held tree.
#![tactic(auto)]

ghost use Rattle.std.specs.Prelude.{◌≡◌};

use query_tree_write::Place;

pub mod adding; // adding.rt: a node, a connective, conditions
pub mod plain; // plain.rt: heads, pieces, brackets without `::`

// What was read so far: where the tree's nodes end, and whether a condition of 14, 15 or 16 was met. They are kept apart, since only at the
// end of the text is it known that 13 is not the answer, and which is the lowest.
#[derive(Clone, Copy)]
pub struct Seen {
    pub place: Place,
    pub deep: bool,
    pub name: bool,
    pub value: bool,
}

// What joins two sides.
#[derive(Clone, Copy, Debug, PartialEq, Eq)]
pub enum Connective {
    And,
    Or,
    Bar,
}

// The same answer, its parts read one by one: right behind the call that answers, its bytes are not copied as fast.
pub fn again(o: Option<(usize, Seen)>) -> Option<(usize, Seen)>
    ensures { result ≡ o }
{
    let (next, seen) = o?;
    Some((next, seen))
}
