// Whether bytes are the form of a query: number 21's test.
ghost use Rattle.std.specs.Prelude.{◌≡◌};
ghost use Rattle.query_core.specs.Held.{held_query};
ghost use Rattle.std.specs.Option.{is_some};
ghost use Rattle.query_core.specs.Stack.{arity_by};

use crate::reading::node_at;
use crate::{Connective, Node, QUERY_BYTES, Selector, layout};
use buffer::two_at;

// How many queries a node takes from the stack; each node leaves one.
fn arity(node: Node) -> usize
    ensures { result ≡ arity_by node }
{
    match node.connective {
        Connective::And | Connective::Or => 2,
        Connective::Select => match node.selector {
            Selector::Subquery(_) => 1,
            Selector::Category(_)
            | Selector::Namespace(_)
            | Selector::Existence(_)
            | Selector::Article(_, _)
            | Selector::Value(_, _, _)
            | Selector::Link(_, _, _) => 0,
        },
    }
}

// Whether the bytes are the form of a query: each node reads, none lacks what it takes, and one query is left.
pub fn is_query(h: &[u8]) -> bool
    ensures { result ≡ is_some (held_query h.now) }
{
    let count = usize::from(two_at(h, 0));
    let sized = (QUERY_BYTES <= h.len()) & (1 <= count) & (count <= layout::MOST_NODES);
    if !sized {
        return false;
    }
    let mut height: usize = 0;
    for i in 0..count {
        let Some(node) = node_at(h, i) else {
            return false;
        };
        let taken = arity(node);
        if height < taken {
            return false;
        }
        height = height - taken + 1;
    }
    height == 1
}
