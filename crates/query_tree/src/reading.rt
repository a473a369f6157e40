// Nodes from their bytes.
ghost use Rattle.std.specs.Prelude.{◌≡◌};
ghost use Rattle.text.specs.Bytes.{Bytes};
ghost use Rattle.query_tree.specs.Form.{node_from, row_in, strings_in, node_in};
ghost use Rattle.query_tree.specs.Reading.{node_by};

use crate::{Row, TreeNode, layout};
use buffer::two_at;
use language::comparator_from;
use tables::get_or;
use text::Span;

// The node of a row.
#[tactic(auto, unfolding(crate::specs::Form::node_from))]
fn node_from(row: Row) -> TreeNode
    ensures { (s : Bytes) → node_by s result ≡ node_from s row }
{
    let start = usize::from(row.number);
    let c = comparator_from(row.comparator);
    let len = usize::from(row.first);
    let first = Span { start, len };
    let second = Span {
        start: start + len,
        len: usize::from(row.second),
    };
    let tag = row.tag;
    match tag {
        layout::AND => TreeNode::And(start),
        layout::OR => TreeNode::Or(start),
        layout::BAR => TreeNode::Bar(start),
        layout::CATEGORY => TreeNode::Category(second),
        layout::NAMESPACE => TreeNode::Namespace(first),
        layout::BARE => TreeNode::Bare(c, second),
        layout::QUALIFIED => TreeNode::Qualified(c, first, second),
        layout::EXISTENCE => TreeNode::Existence,
        layout::VALUE => TreeNode::Value(c, second),
        layout::SUBQUERY => TreeNode::Subquery,
        layout::PROPERTY => TreeNode::Property(second),
        _ => TreeNode::Link(second),
    }
}

// The row of node i.
#[tactic(auto, unfolding(crate::specs::Form::row_in))]
pub fn row_at(h: &[u8], i: usize) -> Row
    ensures { result ≡ row_in h.now i }
{
    if h.len() / layout::NODE_BYTES < i {
        return Row {
            tag: 0,
            comparator: 0,
            number: 0,
            first: 0,
            second: 0,
        };
    }
    let at = layout::NODE_BYTES * i;
    Row {
        tag: get_or(h, at + 2, 0),
        comparator: get_or(h, at + 3, 0),
        number: two_at(h, at + 4),
        first: get_or(h, at + 6, 0),
        second: get_or(h, at + 7, 0),
    }
}

// Node i.
#[tactic(auto, unfolding(crate::specs::Form::node_in))]
pub fn node_at(h: &[u8], i: usize) -> TreeNode
    ensures { node_by (strings_in h.now) result ≡ node_in h.now i }
{
    node_from(row_at(h, i))
}
