// What a single node asks for and puts.
ghost use Rattle.std.specs.Prelude.{◌≡◌};
ghost use Rattle.text.specs.Parts.{part_of};
ghost use Rattle.language.specs.Register.{kinds_of};
ghost use Rattle.register_form.specs.Form.{register_in};
ghost use Rattle.query_core_emit.specs.Emission.{Emits};
ghost use Rattle.query_tree.specs.Reading.{node_by};
ghost use Rattle.query_core_fit.specs.Fitting.{step_of, piece_core, LeafAt, LeafIn, Wraps};

use crate::Step;
use language::SurfaceComparator;
use query_core::{Place, Selector};
use query_core_emit::writing::{put_reference, put_select, put_value};
use query_tree::TreeNode;
use register_form_view::kind_of;
use text::{Span, part};
use values::{Kind, Split};

// What a node asks for.
pub fn step_of(node: TreeNode) -> Step
    ensures { result ≡ step_of node }
{
    match node {
        TreeNode::And(n) => Step::Two(n, false),
        TreeNode::Or(n) | TreeNode::Bar(n) => Step::Two(n, true),
        TreeNode::Category(_)
        | TreeNode::Namespace(_)
        | TreeNode::Bare(_, _)
        | TreeNode::Qualified(_, _, _)
        | TreeNode::Existence
        | TreeNode::Value(_, _) => Step::Leaf,
        TreeNode::Subquery => Step::Subquery,
        TreeNode::Property(x) => Step::Property(x),
        TreeNode::Link(x) => Step::Link(x),
    }
}

// The kind of the property whose name lies at x.
pub fn kind_at(s: &[u8], x: Span, register: &[u8]) -> Option<Kind>
    ensures { result ≡ kinds_of (register_in register.now) (part_of s.now x) }
{
    kind_of(register, part(s, x.start, x.len))
}

// The node of a subquery: a page property's.
pub fn put_subquery(
    s: &[u8],
    held: &mut [u8],
    at: Place,
    x: Span,
    kind: Option<Kind>,
) -> Option<Place>
    ensures { Wraps (part_of s.now x) kind held.old at result held.new }
{
    match kind? {
        Kind::Page => Some(put_select(s, s, held, at, Selector::Subquery(x))),
        Kind::Scalar(_) | Kind::String => None,
    }
}

// A property's piece, by what is known of the property's kind.
fn put_piece(
    s: &[u8],
    held: &mut [u8],
    at: Place,
    x: Span,
    c: SurfaceComparator,
    p: Span,
    kind: Option<Kind>,
) -> Option<Place>
    ensures { Emits (piece_core (part_of s.now x) c (part_of s.now p) kind) held.old at result held.new }
{
    put_value(s, held, at, x, c, p, kind?)
}

// A node that asks for nothing and is a query.
pub fn put_leaf(s: &[u8], held: &mut [u8], at: Place, node: TreeNode) -> Option<Place>
    ensures { LeafAt (node_by s.now node) held.old at result held.new }
{
    match node {
        TreeNode::Category(x) => Some(put_select(s, s, held, at, Selector::Category(x))),
        TreeNode::Namespace(n) => Some(put_select(s, s, held, at, Selector::Namespace(n))),
        TreeNode::Bare(c, article) => {
            let namespace = None;
            let split = Split { namespace, article };
            Some(put_reference(s, held, at, c, split))
        }
        TreeNode::Qualified(c, namespace, article) => {
            let namespace = Some(namespace);
            let split = Split { namespace, article };
            Some(put_reference(s, held, at, c, split))
        }
        TreeNode::And(_)
        | TreeNode::Or(_)
        | TreeNode::Bar(_)
        | TreeNode::Existence
        | TreeNode::Value(_, _)
        | TreeNode::Subquery
        | TreeNode::Property(_)
        | TreeNode::Link(_) => None,
    }
}

// A node that asks for nothing and is an alternative of the property whose name lies at x.
pub fn put_leaf_in(
    s: &[u8],
    held: &mut [u8],
    at: Place,
    node: TreeNode,
    x: Span,
    kind: Option<Kind>,
) -> Option<Place>
    ensures { LeafIn (part_of s.now x) kind (node_by s.now node) held.old at result held.new }
{
    match node {
        TreeNode::Existence => Some(put_select(s, s, held, at, Selector::Existence(x))),
        TreeNode::Value(c, p) => put_piece(s, held, at, x, c, p, kind),
        TreeNode::And(_)
        | TreeNode::Or(_)
        | TreeNode::Bar(_)
        | TreeNode::Category(_)
        | TreeNode::Namespace(_)
        | TreeNode::Bare(_, _)
        | TreeNode::Qualified(_, _, _)
        | TreeNode::Subquery
        | TreeNode::Property(_)
        | TreeNode::Link(_) => None,
    }
}
