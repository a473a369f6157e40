// Parts made of others.
ghost use Rattle.std.specs.Prelude.{◌≡◌, ◌&&◌, ◌-◌, eqb};
ghost use Rattle.query_tree_spelling.specs.Spelled.{wrapped as wrapped_if, under as under_if};
ghost use Rattle.query_tree.specs.Pass.{is_query, full_bytes, subquery_item, property_item, link_item, bar_item, or_item, and_item};

use crate::leaves::length_of;
use crate::shapes::{
    alike, full_bytes, is_alternatives, is_good, is_or, is_property, is_query, is_two, up_to_bytes,
    up_to_levels,
};
use names::is_composed_property_name;
use query_tree::{Item, Shape};

// Whether a part that begins at a node and ends before another has n nodes.
fn is_size(n: usize, at: usize, from: usize) -> bool
    ensures { result ≡ eqb n (at - from) }
{
    n == at.saturating_sub(from)
}

// Bytes, and depth, of a part that stands in a group of its own or not.
fn wrapped(grouped: bool, i: Item) -> usize
    ensures { result ≡ wrapped_if grouped (full_bytes i) }
{
    let n = full_bytes(i);
    if grouped { 7 + n } else { n }
}

fn under(grouped: bool, n: u16) -> usize
    ensures { result ≡ under_if grouped n }
{
    let n = usize::from(n);
    if grouped { n + 1 } else { n }
}

#[tactic(auto, unfolding(query_tree::specs::Pass::subquery_item), using(crate::proofs::Caps::told))]
pub fn subquery_item(i: Item) -> Option<Item>
    ensures { result ≡ subquery_item i }
{
    let bytes = 7 + full_bytes(i);
    let depth = usize::from(i.depth) + 1;
    let good = is_good(i);
    let item = Item {
        shape: Shape::Alternatives,
        from: i.from,
        names: 0,
        one: true,
        leads: false,
        kept: good,
        bytes: up_to_bytes(bytes),
        depth: up_to_levels(depth),
    };
    is_query(i.shape).then_some(item)
}

pub fn property_item(x: &[u8], i: Item) -> Option<Item>
    ensures { result ≡ property_item x.now i }
{
    let bytes = 6 + length_of(x) + usize::from(i.bytes);
    let kept = is_composed_property_name(x) & i.kept;
    let depth = usize::from(i.depth);
    let item = Item {
        shape: Shape::Property,
        from: i.from,
        names: 1,
        one: true,
        leads: false,
        kept,
        bytes: up_to_bytes(bytes),
        depth: up_to_levels(depth),
    };
    is_alternatives(i.shape).then_some(item)
}

pub fn link_item(x: &[u8], i: Item) -> Option<Item>
    ensures { result ≡ link_item x.now i }
{
    let names = usize::from(i.names) + 1;
    let bytes = usize::from(i.bytes) + (length_of(x) + 1);
    let kept = is_composed_property_name(x) & ((names <= 8) & i.kept);
    let depth = usize::from(i.depth);
    let item = Item {
        shape: Shape::Property,
        from: i.from,
        names: up_to_levels(names),
        one: true,
        leads: false,
        kept,
        bytes: up_to_bytes(bytes),
        depth: up_to_levels(depth),
    };
    is_property(i.shape).then_some(item)
}

// Two with what joins them, node `at`, which tells how many nodes the second has.
#[tactic(auto, unfolding(query_tree::specs::Pass::bar_item), using(crate::proofs::Caps::told))]
pub fn bar_item(at: usize, n: usize, i: Item, j: Item) -> Option<Item>
    ensures { result ≡ bar_item at n i j }
{
    let bytes = usize::from(i.bytes) + (2 + usize::from(j.bytes));
    let kept = i.kept & (j.one & j.kept);
    let depth = usize::from(i.depth).max(usize::from(j.depth));
    let item = Item {
        shape: i.shape,
        from: i.from,
        names: 0,
        one: false,
        leads: i.leads,
        kept,
        bytes: up_to_bytes(bytes),
        depth: up_to_levels(depth),
    };
    (alike(i.shape, j.shape) & is_size(n, at, j.from)).then_some(item)
}

// Whether two parts are queries, the second of n nodes before node `at`.
fn are_queries(n: usize, at: usize, i: Item, j: Item) -> bool
    ensures { result ≡ (is_query i.shape && (is_query j.shape && eqb n (at - j.from))) }
{
    is_query(i.shape) & (is_query(j.shape) & is_size(n, at, j.from))
}

#[tactic(auto, unfolding(query_tree::specs::Pass::or_item), using(crate::proofs::Caps::told))]
pub fn or_item(at: usize, n: usize, i: Item, j: Item) -> Option<Item>
    ensures { result ≡ or_item at n i j }
{
    let grouped = is_or(j.shape);
    let bytes = full_bytes(i) + (2 + wrapped(grouped, j));
    let depth = usize::from(i.depth).max(under(grouped, j.depth));
    let kept = is_good(i) & is_good(j);
    let item = Item {
        shape: Shape::Disjunction,
        from: i.from,
        names: 0,
        one: false,
        leads: false,
        kept,
        bytes: up_to_bytes(bytes),
        depth: up_to_levels(depth),
    };
    are_queries(n, at, i, j).then_some(item)
}

#[tactic(auto, unfolding(query_tree::specs::Pass::and_item), using(crate::proofs::Caps::told))]
pub fn and_item(at: usize, n: usize, i: Item, j: Item) -> Option<Item>
    ensures { result ≡ and_item at n i j }
{
    let left = is_or(i.shape);
    let right = is_two(j.shape);
    let bytes = wrapped(left, i) + wrapped(right, j);
    let depth = under(left, i.depth).max(under(right, j.depth));
    let kept = is_good(i) & is_good(j);
    let item = Item {
        shape: Shape::Conjunction,
        from: i.from,
        names: 0,
        one: false,
        leads: false,
        kept,
        bytes: up_to_bytes(bytes),
        depth: up_to_levels(depth),
    };
    are_queries(n, at, i, j).then_some(item)
}
