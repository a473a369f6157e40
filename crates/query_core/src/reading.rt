// A node from its bytes: the numbers are read first, and the rest decides on numbers.
ghost use Rattle.std.specs.Prelude.{◌≡◌};
ghost use Rattle.text.specs.Bytes.{part as part_from};
ghost use Rattle.query_core.specs.Held.{slot, comparator_from, slot_from, slot_in, heap_in, node_of, node_in};
ghost use Rattle.query_core.specs.Reading.{joining, ConstantReads, ReadsNode, expects_kind, TestsNode};

use crate::fields::{first_of, second_of, selected_if, slot_from};
use crate::links::link_from;
use crate::{Connective, Constant, Node, Selector, Slot, layout};
use language::Comparator;
use names::{is_composed_name, is_composed_namespace, is_composed_property_name};
use tables::get_or;
use text::{Span, part};
use values::{KIND_COUNT, Kind, in_range, is_value, kind_from};

// The comparator of a code.
#[tactic(auto, unfolding(crate::specs::Held::comparator_from))]
fn comparator_from(code: u8) -> Option<Comparator>
    ensures { result ≡ comparator_from code }
{
    match code {
        layout::EQUAL => Some(Comparator::Equal),
        layout::UNEQUAL => Some(Comparator::Unequal),
        layout::GREATER => Some(Comparator::Greater),
        layout::LESS => Some(Comparator::Less),
        _ => None,
    }
}

// The constant of a slot.
fn constant_from(heap: &[u8], x: Slot) -> Option<Constant>
    ensures { ConstantReads heap.now x result }
{
    let kind = x.kind;
    if KIND_COUNT <= kind {
        return None;
    }
    match kind_from(kind) {
        Kind::Page => None,
        Kind::Scalar(k) => {
            let n = x.number;
            let fit = in_range(k, n);
            fit.then_some(Constant::Scalar(k, n))
        }
        Kind::String => {
            let p = x.second;
            let fit = is_value(part(heap, p.start, p.len));
            fit.then_some(Constant::String(p))
        }
    }
}

// An article comparison, the bytes of a slot of tag 6.
fn article_from(heap: &[u8], b: &[u8]) -> Option<Node>
    ensures { ReadsNode heap.now (node_of heap.now 6 (slot_from b.now)) result }
{
    let c = comparator_from(get_or(b, 1, 0))?;
    let p = second_of(b);
    let fit = is_composed_name(part(heap, p.start, p.len));
    selected_if(fit, Selector::Article(c, p))
}

// A value comparison, a slot of tag 7.
fn value_from(heap: &[u8], x: Slot) -> Option<Node>
    ensures { ReadsNode heap.now (node_of heap.now 7 x) result }
{
    let c = comparator_from(x.comparator)?;
    let k = constant_from(heap, x)?;
    let p = x.first;
    let fit = is_composed_property_name(part(heap, p.start, p.len));
    selected_if(fit, Selector::Value(p, c, k))
}

// A connective's node.
fn joined(connective: Connective) -> Option<Node>
    ensures { result ≡ joining connective }
{
    let p = Span { start: 0, len: 0 };
    Some(Node {
        connective,
        selector: Selector::Category(p),
    })
}

// The node of a slot by its tag; no more is read than the tag asks for.
fn node_from(heap: &[u8], tag: u8, b: &[u8]) -> Option<Node>
    ensures { ReadsNode heap.now (node_of heap.now tag (slot_from b.now)) result }
{
    match tag {
        layout::AND => joined(Connective::And),
        layout::OR => joined(Connective::Or),
        layout::CATEGORY => {
            let p = first_of(b);
            selected_if(
                is_composed_name(part(heap, p.start, p.len)),
                Selector::Category(p),
            )
        }
        layout::NAMESPACE => {
            let p = first_of(b);
            selected_if(
                is_composed_namespace(part(heap, p.start, p.len)),
                Selector::Namespace(p),
            )
        }
        layout::EXISTENCE => {
            let p = first_of(b);
            selected_if(
                is_composed_property_name(part(heap, p.start, p.len)),
                Selector::Existence(p),
            )
        }
        layout::SUBQUERY => {
            let p = first_of(b);
            selected_if(
                is_composed_property_name(part(heap, p.start, p.len)),
                Selector::Subquery(p),
            )
        }
        layout::ARTICLE => article_from(heap, b),
        layout::VALUE => value_from(heap, slot_from(b)),
        layout::LINK => link_from(heap, b),
        _ => None,
    }
}

// The bytes of a node.
fn slot_bytes(h: &[u8], i: usize) -> &[u8]
    ensures { result.now ≡ part_from h.now (slot i) 20 }
{
    if h.len() / layout::NODE_BYTES < i {
        return &h[..0];
    }
    part(
        h,
        layout::NODES + layout::NODE_BYTES * i,
        layout::NODE_BYTES,
    )
}

// The tag of the node in a place.
#[tactic(auto, unfolding(crate::specs::Held::slot_from))]
fn tag_at(h: &[u8], i: usize) -> u8
    ensures { result ≡ (slot_in h.now i).tag }
{
    get_or(slot_bytes(h, i), 0, 0)
}

// Whether the node in a place is a subquery, a value comparison or a link: by its tag alone.
pub fn expects_kind_at(h: &[u8], i: usize) -> bool
    ensures { TestsNode expects_kind (node_in h.now i) result }
{
    let tag = tag_at(h, i);
    (tag == layout::SUBQUERY) | (tag == layout::VALUE) | (tag == layout::LINK)
}

// The node in a place.
pub fn node_at(h: &[u8], i: usize) -> Option<Node>
    ensures { ReadsNode (heap_in h.now) (node_in h.now i) result }
{
    let heap = part(h, layout::HEAP, layout::HEAP_BYTES);
    let b = slot_bytes(h, i);
    node_from(heap, get_or(b, 0, 0), b)
}
