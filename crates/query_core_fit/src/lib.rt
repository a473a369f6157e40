// Fitting a held tree to the kinds of a register: from the whole query down to its pieces, to nodes of the core.
#![tactic(auto)]

ghost use Rattle.language.specs.Register.{kinds_of};
ghost use Rattle.register_form.specs.Form.{register_in};
ghost use Rattle.query_core_fit.specs.Answers.{FitsTree};

use buffer::two_at;
use descent::fit_query;
use language::Refusal;
use properties::some_undeclared;
use query_core::{Place, count_of, finish, layout};
use text::Span;

pub mod descent; // descent.rt: a tree from its last node down
pub mod leaves; // leaves.rt: what a single node asks for and puts
pub mod properties; // properties.rt: the properties that a tree names

// What a node asks for: its two sides (and whether they are joined by OR), the query that it leads to, the alternatives or the rest
// of the chain that it names, or nothing.
#[derive(Clone, Copy)]
pub enum Step {
    Two(usize, bool),
    Subquery,
    Property(Span),
    Link(Span),
    Leaf,
}

// Fits a held tree to the kinds that a register declares; the buffer becomes the held query's. Refused are a property that is not
// declared, a piece that is unfit for its kind, and more than 256 nodes.
pub fn fit_tree(tree: &[u8], register: &[u8], held: &mut [u8]) -> Result<(), Refusal>
    ensures { FitsTree tree.now (kinds_of (register_in register.now)) held.old result held.new }
{
    let n = usize::from(two_at(tree, 0));
    if some_undeclared(tree, n, register) {
        return Err(Refusal::Undeclared);
    }
    let start = Place { code: 0 };
    let Some(place) = fit_query(tree, n, register, held, start) else {
        return Err(Refusal::UnfitPiece);
    };
    if layout::MOST_NODES < count_of(place) {
        return Err(Refusal::TooManyNodes);
    }
    finish(held, place);
    Ok(())
}
