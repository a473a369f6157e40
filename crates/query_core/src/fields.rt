// The fields of a slot, from its bytes, and the node of a selector that keeps its rules.
ghost use Rattle.std.specs.Prelude.{◌≡◌};
ghost use Rattle.query_core.specs.Held.{slot_from};
ghost use Rattle.query_core.specs.Reading.{selected};

use crate::{Connective, Node, Selector, Slot};
use buffer::{eight_at, two_at};
use tables::get_or;
use text::Span;

// The node of a selector, where its name keeps its rule.
pub fn selected_if(fit: bool, selector: Selector) -> Option<Node>
    ensures { result ≡ selected fit selector }
{
    fit.then_some(Node {
        connective: Connective::Select,
        selector,
    })
}

// The places of the two strings in a node's bytes: one function by a number of the string would be no shorter.
#[tactic(auto, unfolding(crate::specs::Held::slot_from))]
pub fn first_of(b: &[u8]) -> Span
    ensures { result ≡ (slot_from b.now).first }
{
    Span {
        start: usize::from(two_at(b, 4)),
        len: usize::from(two_at(b, 6)),
    }
}

#[tactic(auto, unfolding(crate::specs::Held::slot_from))]
pub fn second_of(b: &[u8]) -> Span
    ensures { result ≡ (slot_from b.now).second }
{
    Span {
        start: usize::from(two_at(b, 8)),
        len: usize::from(two_at(b, 10)),
    }
}

// The numbers in a node's bytes.
#[tactic(auto, unfolding(crate::specs::Held::slot_from))]
pub fn slot_from(b: &[u8]) -> Slot
    ensures { result ≡ slot_from b.now }
{
    let first = first_of(b);
    let second = second_of(b);
    Slot {
        tag: get_or(b, 0, 0),
        comparator: get_or(b, 1, 0),
        kind: get_or(b, 2, 0),
        first,
        second,
        number: eight_at(b, 12),
    }
}
