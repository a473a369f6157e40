// A node, a connective, conditions.
ghost use Rattle.std.specs.Prelude.{◌≡◌, ◌-◌};
ghost use Rattle.query_tree.specs.Reading.{node_by};
ghost use Rattle.query_text_heads.specs.Effects.{one, flagged, After, join_node, connective};

use crate::{Connective, Seen};
use query_tree::TreeNode;
use query_tree_write::put_node;

// What was seen, with conditions.
#[tactic(auto, unfolding(crate::specs::Effects::flagged))]
pub fn flag(seen: Seen, deep: bool, name: bool, value: bool) -> Seen
    ensures { result ≡ flagged seen deep name value }
{
    Seen {
        place: seen.place,
        deep: seen.deep | deep,
        name: seen.name | name,
        value: seen.value | value,
    }
}

// A node behind those that are there. Its strings are places in s.
pub fn add(s: &[u8], tree: &mut [u8], seen: Seen, node: TreeNode) -> Seen
    ensures { After tree.old seen (one (node_by s.now node)) tree.new result }
{
    let place = put_node(s, tree, seen.place, node);
    Seen { place, ..seen }
}

fn join_node(kind: Connective, n: usize) -> TreeNode
    ensures { result ≡ join_node kind n }
{
    match kind {
        Connective::And => TreeNode::And(n),
        Connective::Or => TreeNode::Or(n),
        Connective::Bar => TreeNode::Bar(n),
    }
}

// A connective behind its two sides, the second of which came behind `first`.
pub fn join(s: &[u8], tree: &mut [u8], first: Seen, seen: Seen, kind: Connective) -> Seen
    ensures { After tree.old seen (one (connective kind (seen.place.count - first.place.count))) tree.new result }
{
    let n = seen.place.count.saturating_sub(first.place.count);
    add(s, tree, seen, join_node(kind, n))
}
