// A tree from its last node down: each part ends before a node, and what it asks for ends before that.
ghost use Rattle.std.specs.Prelude.{◌≡◌};
ghost use Rattle.language.specs.Register.{kinds_of};
ghost use Rattle.register_form.specs.Form.{register_in};
ghost use Rattle.query_tree.specs.Form.{strings_in, nodes_in};
ghost use Rattle.query_tree.specs.Nodes.{tree as tree_of};
ghost use Rattle.query_core_fit.specs.Fitting.{Fits, core_of_query, chain_tree, chain_core, FitsIn};

use crate::Step;
use crate::leaves::{kind_at, put_leaf, put_leaf_in, put_subquery, step_of};
use query_core::Place;
use query_core_emit::again;
use query_core_emit::writing::put_join;
use query_tree::layout;
use query_tree::reading::node_at;
use text::{Span, part};
use values::Kind;

// A query.
#[cycle(fit_chain_fit_in_fit_query)]
pub fn fit_query(
    tree: &[u8],
    i: usize,
    register: &[u8],
    held: &mut [u8],
    at: Place,
) -> Option<Place>
    ensures { Fits tree_of (core_of_query (kinds_of (register_in register.now))) (nodes_in tree.now) i held.old at result held.new }
{
    if i == 0 {
        return None;
    }
    let last = i - 1;
    let node = node_at(tree, last);
    match step_of(node) {
        Step::Two(n, or) => {
            if last < n {
                return None;
            }
            let first = fit_query(tree, last - n, register, held, at)?;
            let second = fit_query(tree, last, register, held, first)?;
            Some(put_join(held, second, or))
        }
        Step::Subquery => None,
        Step::Property(_) => again(fit_chain(tree, i, register, held, at)),
        Step::Link(_) => again(fit_chain(tree, i, register, held, at)),
        Step::Leaf => again(put_leaf(
            part(tree, layout::STRINGS, layout::STRING_BYTES),
            held,
            at,
            node,
        )),
    }
}

// A chain: what its first name leads to is the chain with one name less, inside one subquery; the last name has the alternatives.
#[cycle(fit_chain_fit_in_fit_query)]
fn fit_chain(tree: &[u8], i: usize, register: &[u8], held: &mut [u8], at: Place) -> Option<Place>
    ensures { Fits (chain_tree (kinds_of (register_in register.now))) (chain_core (kinds_of (register_in register.now))) (nodes_in tree.now) i held.old at result held.new }
{
    if i == 0 {
        return None;
    }
    let last = i - 1;
    let s = part(tree, layout::STRINGS, layout::STRING_BYTES);
    match step_of(node_at(tree, last)) {
        Step::Two(_, _) => None,
        Step::Subquery => None,
        Step::Property(x) => {
            let kind = kind_at(s, x, register);
            fit_in(tree, last, x, kind, register, held, at)
        }
        Step::Link(x) => {
            let kind = kind_at(s, x, register);
            let rest = fit_chain(tree, last, register, held, at)?;
            put_subquery(s, held, rest, x, kind)
        }
        Step::Leaf => None,
    }
}

// The alternatives of the property whose name lies at x.
#[cycle(fit_chain_fit_in_fit_query)]
fn fit_in(
    tree: &[u8],
    i: usize,
    x: Span,
    kind: Option<Kind>,
    register: &[u8],
    held: &mut [u8],
    at: Place,
) -> Option<Place>
    ensures { FitsIn (strings_in tree.now) (kinds_of (register_in register.now)) (nodes_in tree.now) x kind i held.old at result held.new }
{
    if i == 0 {
        return None;
    }
    let last = i - 1;
    let s = part(tree, layout::STRINGS, layout::STRING_BYTES);
    let node = node_at(tree, last);
    match step_of(node) {
        Step::Two(n, or) => {
            if last < n {
                return None;
            }
            let first = fit_in(tree, last - n, x, kind, register, held, at)?;
            let second = fit_in(tree, last, x, kind, register, held, first)?;
            Some(put_join(held, second, or))
        }
        Step::Subquery => {
            let inner = fit_query(tree, last, register, held, at)?;
            put_subquery(s, held, inner, x, kind)
        }
        Step::Property(_) => None,
        Step::Link(_) => None,
        Step::Leaf => put_leaf_in(s, held, at, node, x, kind),
    }
}
