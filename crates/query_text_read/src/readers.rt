// The readers of a query, a conjunction, a term, a bracket and its alternatives, which call each other. Each call has less text
// left, or stands lower in the grammar. What is lent to each is no struct: a struct would hold the tree that is written, and each reader
// would have to say that it is still the same.
ghost use Rattle.language.specs.RawQuery.{read_query, read_or, read_conjunction, read_and, read_term, read_body, read_alternatives, read_more, read_alternative};
ghost use Rattle.query_text_pieces.specs.Places.{from};
ghost use Rattle.query_text_heads.specs.Effects.{ReadsPart, ReadsOn};
ghost use Rattle.query_text_heads.specs.Trees.{effect, effect_in};

use query_text_heads::adding::{add, join};
use query_text_heads::plain::{chain, one_deeper, plain, value_piece};
use query_text_heads::{Connective, Seen, again};
use query_text_pieces::{after, head_end, inner_end, next_term, piece_at, token};
use query_tree::TreeNode;
use text::{Class, all_in, part};

// Conjunctions parted by `OR`.
#[cycle(alternative_alternatives_bracket_conjunction_more_alternatives_more_conjunctions_more_terms_query_term)]
pub fn query(
    s: &[u8],
    at: usize,
    depth: usize,
    tree: &mut [u8],
    seen: Seen,
) -> Option<(usize, Seen)>
    ensures { ReadsPart s.now (effect depth) tree.old seen (read_query (from s.now at)) result tree.new }
{
    let (next, got) = conjunction(s, at, depth, tree, seen)?;
    again(more_conjunctions(s, next, depth, tree, got))
}

#[cycle(alternative_alternatives_bracket_conjunction_more_alternatives_more_conjunctions_more_terms_query_term)]
fn more_conjunctions(
    s: &[u8],
    at: usize,
    depth: usize,
    tree: &mut [u8],
    seen: Seen,
) -> Option<(usize, Seen)>
    ensures { ReadsOn s.now (effect depth) tree.old seen read_or at result tree.new }
{
    let Some(i) = token(s, at, b"OR") else {
        return Some((at, seen));
    };
    let (next, got) = conjunction(s, i, depth, tree, seen)?;
    let joined = join(s, tree, seen, got, Connective::Or);
    again(more_conjunctions(s, next, depth, tree, joined))
}

// Terms side by side or with `AND` between.
#[cycle(alternative_alternatives_bracket_conjunction_more_alternatives_more_conjunctions_more_terms_query_term)]
fn conjunction(
    s: &[u8],
    at: usize,
    depth: usize,
    tree: &mut [u8],
    seen: Seen,
) -> Option<(usize, Seen)>
    ensures { ReadsPart s.now (effect depth) tree.old seen (read_conjunction (from s.now at)) result tree.new }
{
    let (next, got) = term(s, at, depth, tree, seen)?;
    again(more_terms(s, next, depth, tree, got))
}

#[cycle(alternative_alternatives_bracket_conjunction_more_alternatives_more_conjunctions_more_terms_query_term)]
fn more_terms(
    s: &[u8],
    at: usize,
    depth: usize,
    tree: &mut [u8],
    seen: Seen,
) -> Option<(usize, Seen)>
    ensures { ReadsOn s.now (effect depth) tree.old seen read_and at result tree.new }
{
    let Some(i) = next_term(s, at) else {
        return Some((at, seen));
    };
    let (next, got) = term(s, i, depth, tree, seen)?;
    let joined = join(s, tree, seen, got, Connective::And);
    again(more_terms(s, next, depth, tree, joined))
}

// A bracket, or `<q>` query `</q>`.
#[cycle(alternative_alternatives_bracket_conjunction_more_alternatives_more_conjunctions_more_terms_query_term)]
fn term(s: &[u8], at: usize, depth: usize, tree: &mut [u8], seen: Seen) -> Option<(usize, Seen)>
    ensures { ReadsPart s.now (effect depth) tree.old seen (read_term (from s.now at)) result tree.new }
{
    if let Some(i) = token(s, at, b"<q>") {
        let (next, got) = query(s, i, one_deeper(depth), tree, seen)?;
        let end = token(s, next, b"</q>")?;
        return Some((end, got));
    }
    let i = token(s, at, b"[[")?;
    again(bracket(s, i, depth, tree, seen))
}

// The body of a bracket and its `]]`. With `::` it has a head, whose names come behind the alternatives.
#[cycle(alternative_alternatives_bracket_conjunction_more_alternatives_more_conjunctions_more_terms_query_term)]
fn bracket(s: &[u8], at: usize, depth: usize, tree: &mut [u8], seen: Seen) -> Option<(usize, Seen)>
    ensures { ReadsPart s.now (effect depth) tree.old seen (read_body (from s.now at)) result tree.new }
{
    let Some(end) = head_end(s, at) else {
        return again(plain(s, at, depth, tree, seen));
    };
    let len = end - at;
    if !all_in(part(s, at, len), Class::Free) {
        return None;
    }
    let (next, got) = alternatives(s, end + 2, depth, tree, seen)?;
    let close = after(s, next, b"]]")?;
    let named = chain(s, at, len, 0, tree, got);
    Some((close, named))
}

// Alternatives parted by `||`.
#[cycle(alternative_alternatives_bracket_conjunction_more_alternatives_more_conjunctions_more_terms_query_term)]
fn alternatives(
    s: &[u8],
    at: usize,
    depth: usize,
    tree: &mut [u8],
    seen: Seen,
) -> Option<(usize, Seen)>
    ensures { ReadsPart s.now (effect_in depth) tree.old seen (read_alternatives (from s.now at)) result tree.new }
{
    let (next, got) = alternative(s, at, depth, tree, seen)?;
    again(more_alternatives(s, next, depth, tree, got))
}

#[cycle(alternative_alternatives_bracket_conjunction_more_alternatives_more_conjunctions_more_terms_query_term)]
fn more_alternatives(
    s: &[u8],
    at: usize,
    depth: usize,
    tree: &mut [u8],
    seen: Seen,
) -> Option<(usize, Seen)>
    ensures { ReadsOn s.now (effect_in depth) tree.old seen read_more at result tree.new }
{
    let Some(i) = after(s, at, b"||") else {
        return Some((at, seen));
    };
    let (next, got) = alternative(s, i, depth, tree, seen)?;
    let joined = join(s, tree, seen, got, Connective::Bar);
    again(more_alternatives(s, next, depth, tree, joined))
}

// A subquery, or a piece.
#[cycle(alternative_alternatives_bracket_conjunction_more_alternatives_more_conjunctions_more_terms_query_term)]
fn alternative(
    s: &[u8],
    at: usize,
    depth: usize,
    tree: &mut [u8],
    seen: Seen,
) -> Option<(usize, Seen)>
    ensures { ReadsPart s.now (effect_in depth) tree.old seen (read_alternative (from s.now at)) result tree.new }
{
    if let Some(i) = token(s, at, b"<q>") {
        let (next, got) = query(s, i, one_deeper(depth), tree, seen)?;
        let end = inner_end(s, next)?;
        let wrapped = add(s, tree, got, TreeNode::Subquery);
        return Some((end, wrapped));
    }
    let (p, next) = piece_at(s, at);
    let put = value_piece(s, p, depth, tree, seen);
    Some((next, put))
}
