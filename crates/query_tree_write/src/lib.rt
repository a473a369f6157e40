// Nodes put into a held tree, one behind the other.
#![tactic(auto)]

ghost use Rattle.std.specs.Prelude.{◌≡◌, ◌+◌, ◌≤◌, length};
ghost use Rattle.buffer.specs.Numbers.{two_bytes};
ghost use Rattle.buffer.specs.Writing.{written};
ghost use Rattle.query_tree.specs.Nodes.{composed_node};
ghost use Rattle.query_tree.specs.Form.{row_bytes};
ghost use Rattle.query_tree.specs.Reading.{node_by};
ghost use Rattle.query_tree_write.specs.Laying.{entry_with, entry_of, string_as, has_room, Puts};

use buffer::{put_bytes, put_two};
use language::SurfaceComparator;
use names::put_composed;
use query_tree::{Row, TreeNode, layout};
use tables::narrow;
use text::{Span, part};

// How many nodes a tree has, and how many bytes their strings have.
#[derive(Clone, Copy)]
pub struct Place {
    pub count: usize,
    pub end: usize,
}

// What is put of a node: its tag, comparator and number, and its two strings as places in a text. The tag is the byte that is written.
#[derive(Clone, Copy)]
pub struct Entry {
    pub tag: u8,
    pub comparator: SurfaceComparator,
    pub number: usize,
    pub first: Span,
    pub second: Span,
}

fn entry_with(
    tag: u8,
    comparator: SurfaceComparator,
    number: usize,
    first: Span,
    second: Span,
) -> Entry
    ensures { result ≡ entry_with tag comparator number first second }
{
    Entry {
        tag,
        comparator,
        number,
        first,
        second,
    }
}

// What is put of a node whose string begins at a place.
fn entry_of(node: TreeNode, end: usize) -> Entry
    ensures { result ≡ entry_of end node }
{
    let none = Span { start: 0, len: 0 };
    let equal = SurfaceComparator::Equal;
    match node {
        TreeNode::And(n) => entry_with(layout::AND, equal, n, none, none),
        TreeNode::Or(n) => entry_with(layout::OR, equal, n, none, none),
        TreeNode::Bar(n) => entry_with(layout::BAR, equal, n, none, none),
        TreeNode::Category(p) => entry_with(layout::CATEGORY, equal, end, none, p),
        TreeNode::Namespace(p) => entry_with(layout::NAMESPACE, equal, end, p, none),
        TreeNode::Bare(c, p) => entry_with(layout::BARE, c, end, none, p),
        TreeNode::Qualified(c, p, q) => entry_with(layout::QUALIFIED, c, end, p, q),
        TreeNode::Existence => entry_with(layout::EXISTENCE, equal, 0, none, none),
        TreeNode::Value(c, p) => entry_with(layout::VALUE, c, end, none, p),
        TreeNode::Subquery => entry_with(layout::SUBQUERY, equal, 0, none, none),
        TreeNode::Property(p) => entry_with(layout::PROPERTY, equal, end, none, p),
        TreeNode::Link(p) => entry_with(layout::LINK, equal, end, none, p),
    }
}

// Writes a string, a value as typed and a name composed, and tells how long it then is. Most nodes have none or one.
fn put_string(tree: &mut [u8], at: usize, typed: bool, s: &[u8]) -> usize
    ensures { (result ≡ length (string_as typed s.now)) × (tree.new ≡ written tree.old at (string_as typed s.now)) }
{
    if s.is_empty() {
        return 0;
    }
    if typed {
        put_bytes(tree, at, s);
        return s.len();
    }
    put_composed(tree, at, s)
}

// Whether there is room for a node behind those that are there.
#[tactic(auto, unfolding(crate::specs::Laying::has_room))]
fn has_room(at: Place) -> bool
    ensures { result ≡ has_room at }
{
    (at.count < layout::MOST_NODES) & (at.end <= layout::STRING_BYTES)
}

// Writes a row. That there is room is tested once a node, so that a compiler writes many bytes at a time.
fn put_row(tree: &mut [u8], at: usize, row: Row)
    requires { at + 6 ≤ length tree.old }
    ensures { tree.new ≡ written tree.old at (row_bytes row) }
{
    tree[at] = row.tag;
    tree[at + 1] = row.comparator;
    tree[at + 2] = (row.number % 256) as u8;
    tree[at + 3] = (row.number / 256) as u8;
    tree[at + 4] = row.first;
    tree[at + 5] = row.second;
}

// Puts a node behind those that are there, where there is room, its names composed. Its strings are places in s; they are written before
// the row, which has their lengths.
pub fn put_node(s: &[u8], tree: &mut [u8], at: Place, node: TreeNode) -> Place
    ensures { Puts (composed_node (node_by s.now node)) tree.old at tree.new result }
{
    if tree.len() < layout::TREE_BYTES {
        return at;
    }
    let count = at.count;
    let end = at.end;
    let e = entry_of(node, end);
    let a = part(s, e.first.start, e.first.len);
    let b = part(s, e.second.start, e.second.len);
    let typed = e.tag == layout::VALUE;
    if !has_room(at) {
        return at;
    }
    let n = put_string(tree, layout::STRINGS + end, false, a);
    if 64 < n {
        return at;
    }
    let m = put_string(tree, layout::STRINGS + end + n, typed, b);
    if 64 < m {
        return at;
    }
    let row = Row {
        tag: e.tag,
        comparator: u8::from(e.comparator),
        number: narrow(e.number),
        first: n as u8,
        second: m as u8,
    };
    put_row(tree, layout::NODES + layout::NODE_BYTES * count, row);
    Place {
        count: count + 1,
        end: end + n + m,
    }
}

// Writes how many nodes there are.
pub fn finish(tree: &mut [u8], at: Place)
    ensures { tree.new ≡ written tree.old 0 (two_bytes at.count) }
{
    put_two(tree, 0, at.count);
}
