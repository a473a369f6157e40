// Whether nodes are the tree of a text: one pass with a stack of parts.
ghost use Rattle.std.specs.Prelude.{◌≡◌, ◌&&◌, leb};
ghost use Rattle.text.specs.Bytes.{Bytes};
ghost use Rattle.query_tree.specs.Form.{strings_in, nodes_in};
ghost use Rattle.query_tree.specs.Reading.{node_by};
ghost use Rattle.query_tree.specs.Pass.{is_query, is_good, full_bytes, is_tree};
ghost use Rattle.query_tree_test.specs.Stack.{arity as arity_of, made_of};

use crate::joining::{and_item, bar_item, link_item, or_item, property_item, subquery_item};
use crate::leaves::{
    bare_item, category_item, existence_item, namespace_item, qualified_item, value_item,
};
use crate::shapes::{full_bytes, is_good, is_query};
use buffer::two_at;
use query_tree::reading::node_at;
use query_tree::{Item, Shape, TreeNode, layout};
use text::part;

// What stands where no part was put.
const BLANK: Item = Item {
    shape: Shape::Categories,
    from: 0,
    names: 0,
    one: false,
    leads: false,
    kept: false,
    bytes: 0,
    depth: 0,
};

// How many parts a node is made of.
fn arity(node: TreeNode) -> usize
    ensures { (s : Bytes) → result ≡ arity_of (node_by s node) }
{
    match node {
        TreeNode::And(_) | TreeNode::Or(_) | TreeNode::Bar(_) => 2,
        TreeNode::Subquery | TreeNode::Property(_) | TreeNode::Link(_) => 1,
        TreeNode::Category(_)
        | TreeNode::Namespace(_)
        | TreeNode::Bare(_, _)
        | TreeNode::Qualified(_, _, _)
        | TreeNode::Existence
        | TreeNode::Value(_, _) => 0,
    }
}

// What node `at`, with strings in s, makes of the last two parts.
fn made(s: &[u8], at: usize, node: TreeNode, i: Item, j: Item) -> Option<Item>
    ensures { result ≡ made_of at (node_by s.now node) i j }
{
    match node {
        TreeNode::And(n) => and_item(at, n, i, j),
        TreeNode::Or(n) => or_item(at, n, i, j),
        TreeNode::Bar(n) => bar_item(at, n, i, j),
        TreeNode::Category(p) => Some(category_item(at, part(s, p.start, p.len))),
        TreeNode::Namespace(p) => Some(namespace_item(at, part(s, p.start, p.len))),
        TreeNode::Bare(c, p) => Some(bare_item(at, c, part(s, p.start, p.len))),
        TreeNode::Qualified(c, p, q) => Some(qualified_item(
            at,
            c,
            part(s, p.start, p.len),
            part(s, q.start, q.len),
        )),
        TreeNode::Existence => Some(existence_item(at)),
        TreeNode::Value(c, p) => Some(value_item(at, c, part(s, p.start, p.len))),
        TreeNode::Subquery => subquery_item(j),
        TreeNode::Property(p) => property_item(part(s, p.start, p.len), j),
        TreeNode::Link(p) => link_item(part(s, p.start, p.len), j),
    }
}

// Whether a part may be the whole query.
fn is_whole(i: Item) -> bool
    ensures { result ≡ (is_query i.shape && (is_good i && (leb (full_bytes i) 1024 && leb i.depth 8))) }
{
    is_query(i.shape) & (is_good(i) & ((full_bytes(i) <= 1024) & (i.depth <= 8)))
}

// Whether the nodes of the bytes are the tree of a text.
pub fn passes(h: &[u8]) -> bool
    ensures { result ≡ is_tree (nodes_in h.now) }
{
    let n = usize::from(two_at(h, 0));
    let s = part(h, layout::STRINGS, layout::STRING_BYTES);
    let mut items = [BLANK; 30];
    let mut count: usize = 0;
    for i in 0..n {
        let node = node_at(h, i);
        let taken = arity(node);
        if count < taken {
            return false;
        }
        let Some(item) = made(s, i, node, items[count], items[count + 1]) else {
            return false;
        };
        count = count - taken + 1;
        if 28 < count {
            return false;
        }
        items[count + 1] = item;
    }
    (count == 1) && is_whole(items[2])
}
