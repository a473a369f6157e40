// The nodes of references and values, put behind those that a held query has. Names and constants are copied into its heap.
#![tactic(auto)]

ghost use Rattle.std.specs.Prelude.{◌≡◌};

use query_core::{Constant, Place};
use text::Span;

pub mod terms; // terms.rt: what a piece of the text writes
pub mod writing; // writing.rt: nodes into a held query

// What is compared: an article name, or the values of a property with a constant.
#[derive(Clone, Copy)]
pub enum Comparison {
    Article(Span),
    Value(Span, Constant),
}

// The same answer, its parts read one by one: right behind the call that answers, its bytes are not copied as fast.
pub fn again(emitted: Option<Place>) -> Option<Place>
    ensures { result ≡ emitted }
{
    match emitted {
        Some(place) => Some(place),
        None => None,
    }
}
