// Whether a run compares values of two kinds: number 23's test.
ghost use Rattle.std.specs.Prelude.{◌≡◌};
ghost use Rattle.language.specs.Semantics.{mismatch};
ghost use Rattle.ask_evaluation.specs.Mixing.{expected_in, Mixes, Mismatches};

use crate::query_heap;
use buffer::two_at;
use query_core::{Connective, Constant, Node, Selector, expects_kind_at, node_at};
use register_form_view::other_kind;
use text::{Span, part};
use values::Kind;

// The property whose values a node expects to be of one kind, by where its name lies, and the kind.
fn expected_by(node: Node) -> Option<(Span, Kind)>
    ensures { result ≡ expected_in node.connective node.selector }
{
    let connective = node.connective;
    let selector = node.selector;
    match connective {
        Connective::And | Connective::Or => None,
        Connective::Select => match selector {
            Selector::Category(_)
            | Selector::Namespace(_)
            | Selector::Existence(_)
            | Selector::Article(_, _) => None,
            Selector::Subquery(p) => Some((p, Kind::Page)),
            Selector::Value(p, _, Constant::Scalar(k, _)) => Some((p, Kind::Scalar(k))),
            Selector::Value(p, _, Constant::String(_)) => Some((p, Kind::String)),
            Selector::Link(p, _, _) => Some((p, Kind::Page)),
        },
    }
}

// Whether some page holds a value of another kind than the node in a place expects.
fn mixes_at(q: &[u8], i: usize, h: &[u8]) -> bool
    ensures { Mixes h.now q.now i result }
{
    if !expects_kind_at(q, i) {
        return false;
    }
    let Some(node) = node_at(q, i) else {
        return false;
    };
    let Some((p, kind)) = expected_by(node) else {
        return false;
    };
    other_kind(h, part(query_heap(q), p.start, p.len), kind)
}

// Whether the run of a held query on an opened register has a mismatch.
pub fn has_mismatch(q: &[u8], h: &[u8]) -> bool
    ensures { Mismatches h.now q.now result }
{
    let n = usize::from(two_at(q, 0));
    let mut some = false;
    for i in 0..n {
        some = some | mixes_at(q, i, h);
    }
    some
}
