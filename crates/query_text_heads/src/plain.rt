// Heads and pieces: their nodes, and the conditions of 14, 15 and 16 that they meet.
ghost use Rattle.std.specs.Prelude.{◌≡◌, not, false, ◌&&◌};
ghost use Rattle.text.specs.Parts.{part_of};
ghost use Rattle.names.specs.Names.{is_name};
ghost use Rattle.language.specs.RawQuery.{RawAlternatives, plain_body};
ghost use Rattle.language.specs.QueryText.{breaks_reference};
ghost use Rattle.language.specs.Refusals.{number_of};
ghost use Rattle.query_text_pieces.specs.Places.{from, piece_of, head_of, SplitsAt};
ghost use Rattle.query_tree.specs.Nodes.{Node};
ghost use Rattle.query_tree.specs.Reading.{node_by};
ghost use Rattle.query_text_heads.specs.Effects.{After, noded, ReadsPart};
ghost use Rattle.query_text_heads.specs.Trees.{deeper, value_node, node_of_piece, piece_effect, effect_in, chain_effect, rest_effect, tail_pieces, effect, read_refusal, number_of_read};

use crate::adding::{add, flag};
use crate::{Seen, again};
use language::{Refusal, is_equal};
use names::{is_name, is_property_name};
use query_text_pieces::{
    Placed, Read, after, category_of, is_existence, piece_at, read_piece, split_at,
};
use query_tree::TreeNode;
use text::{Class, Span, part, same_bytes, scan, trimmed};
use values::{Split, is_value};

// One level or one name more, at most 9.
pub fn one_deeper(d: usize) -> usize
    ensures { result ≡ deeper d }
{
    d.min(8) + 1
}

// The names of a head, the last first: it is the property, and each before it a link.
pub fn chain(s: &[u8], at: usize, len: usize, names: usize, tree: &mut [u8], seen: Seen) -> Seen
    ensures { After tree.old seen (chain_effect names (head_of s.now at len)) tree.new result }
{
    let head = part(s, at, len);
    let dot = scan(head, 0, Class::NoDot);
    if dot < head.len() {
        let rest = at + dot + 1;
        let left = len - dot - 1;
        let inner = chain(s, rest, left, one_deeper(names), tree, seen);
        let name = trimmed(s, at, dot);
        let outer = add(s, tree, inner, TreeNode::Link(name));
        return flag(
            outer,
            false,
            !is_property_name(part(s, name.start, name.len)),
            false,
        );
    }
    let name = trimmed(s, at, len);
    let put = add(s, tree, seen, TreeNode::Property(name));
    flag(
        put,
        8 <= names,
        !is_property_name(part(s, name.start, name.len)),
        false,
    )
}

// The node of a property piece: existence or a value.
#[tactic(auto, unfolding(crate::specs::Trees::value_node))]
fn value_node(exists: bool, p: Placed) -> TreeNode
    ensures { result ≡ value_node exists p }
{
    if exists {
        TreeNode::Existence
    } else {
        TreeNode::Value(p.comparator, p.text)
    }
}

// A property piece.
pub fn value_piece(s: &[u8], p: Placed, depth: usize, tree: &mut [u8], seen: Seen) -> Seen
    ensures { After tree.old seen (effect_in depth (RawAlternatives.piece (piece_of s.now p))) tree.new result }
{
    let node = value_node(is_existence(s, p), p);
    let added = add(s, tree, seen, node);
    flag(
        added,
        8 < depth,
        false,
        !is_value(part(s, p.text.start, p.text.len)),
    )
}

// The node of a piece that is `namespace:+` or a reference, whether it breaks a rule or not, by how its reference is split.
fn identifier_node(s: &[u8], p: Placed, split: Split) -> TreeNode
    requires { SplitsAt s.now p.text split }
    ensures { node_by s.now result ≡ node_of_piece (piece_of s.now p) }
{
    let a = split.article;
    let Some(n) = split.namespace else {
        return TreeNode::Bare(p.comparator, a);
    };
    if is_equal(p.comparator) & same_bytes(part(s, a.start, a.len), b"+") {
        TreeNode::Namespace(n)
    } else {
        TreeNode::Qualified(p.comparator, n, a)
    }
}

// Refuses a piece that is neither `namespace:+` nor a reference.
fn refuse_piece(piece: Option<Read>) -> Result<(), Refusal>
    ensures refusal { result ≡ read_refusal piece }
    ensures number { number_of result ≡ number_of_read piece }
{
    if let Some(Read::Namespace(_)) = piece {
        return Ok(());
    }
    let Some(Read::Reference(_, _)) = piece else {
        return Err(Refusal::BadName);
    };
    Ok(())
}

// Whether such a piece breaks a rule.
fn is_broken(s: &[u8], p: Placed, split: Split) -> bool
    requires { SplitsAt s.now p.text split }
    ensures { result ≡ breaks_reference (piece_of s.now p) }
{
    refuse_piece(read_piece(s, p, split)).is_err()
}

// A piece that is `namespace:+` or a reference.
fn identifier(s: &[u8], p: Placed, split: Split, tree: &mut [u8], seen: Seen) -> Seen
    requires { SplitsAt s.now p.text split }
    ensures { After tree.old seen (piece_effect false (piece_of s.now p)) tree.new result }
{
    let node = identifier_node(s, p, split);
    let added = add(s, tree, seen, node);
    flag(added, false, is_broken(s, p, split), false)
}

// A category name, which a comparator breaks.
fn category(s: &[u8], bare: bool, name: Span, tree: &mut [u8], seen: Seen) -> Seen
    ensures { After tree.old seen
        (noded (Node.category (part_of s.now name)) false (not (bare && is_name (part_of s.now name))) false) tree.new result }
{
    let added = add(s, tree, seen, TreeNode::Category(name));
    flag(
        added,
        false,
        !(bare & is_name(part(s, name.start, name.len))),
        false,
    )
}

// A piece behind the first of a bracket without `::`.
fn piece(s: &[u8], categories: bool, p: Placed, tree: &mut [u8], seen: Seen) -> Seen
    ensures { After tree.old seen (piece_effect categories (piece_of s.now p)) tree.new result }
{
    if categories {
        category(s, is_equal(p.comparator), p.text, tree, seen)
    } else {
        identifier(s, p, split_at(s, p.text), tree, seen)
    }
}

// The pieces behind the first of a bracket without `::`, and its `]]`. Each is one node.
fn more_pieces(
    s: &[u8],
    at: usize,
    categories: bool,
    tree: &mut [u8],
    seen: Seen,
) -> Option<(usize, Seen)>
    ensures { ReadsPart s.now (rest_effect categories) tree.old seen (tail_pieces (from s.now at)) result tree.new }
{
    if let Some(i) = after(s, at, b"||") {
        let (p, next) = piece_at(s, i);
        let put = piece(s, categories, p, tree, seen);
        let joined = add(s, tree, put, TreeNode::Bar(1));
        return again(more_pieces(s, next, categories, tree, joined));
    }
    let close = after(s, at, b"]]")?;
    Some((close, seen))
}

// The body of a bracket without `::`, and its `]]`.
pub fn plain(
    s: &[u8],
    at: usize,
    depth: usize,
    tree: &mut [u8],
    seen: Seen,
) -> Option<(usize, Seen)>
    ensures { ReadsPart s.now (effect depth) tree.old seen (plain_body (from s.now at)) result tree.new }
{
    let (p, next) = piece_at(s, at);
    let flagged = flag(seen, 8 < depth, false, false);
    let split = split_at(s, p.text);
    match category_of(s, p, split) {
        Some(name) => {
            let put = category(s, true, name, tree, flagged);
            again(more_pieces(s, next, true, tree, put))
        }
        None => {
            let put = identifier(s, p, split, tree, flagged);
            again(more_pieces(s, next, false, tree, put))
        }
    }
}
