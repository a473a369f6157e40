// The properties that a tree names: whether one is not declared (17).
ghost use Rattle.std.specs.Prelude.{◌≡◌};
ghost use Rattle.text.specs.Bytes.{any};
ghost use Rattle.text.specs.Table.{tabulate};
ghost use Rattle.language.specs.Register.{kinds_of};
ghost use Rattle.register_form.specs.Form.{register_in};
ghost use Rattle.query_tree.specs.Form.{node_in};
ghost use Rattle.query_core_fit.specs.Fitting.{node_undeclared};

use crate::Step;
use crate::leaves::{kind_at, step_of};
use query_tree::layout;
use query_tree::reading::node_at;
use text::part;

// Whether node i names a property that is not declared.
fn is_undeclared(tree: &[u8], i: usize, register: &[u8]) -> bool
    ensures { result ≡ node_undeclared (kinds_of (register_in register.now)) (node_in tree.now i) }
{
    let s = part(tree, layout::STRINGS, layout::STRING_BYTES);
    match step_of(node_at(tree, i)) {
        Step::Property(x) | Step::Link(x) => kind_at(s, x, register).is_none(),
        Step::Two(_, _) | Step::Subquery | Step::Leaf => false,
    }
}

// Whether one of the first n nodes does.
pub fn some_undeclared(tree: &[u8], n: usize, register: &[u8]) -> bool
    ensures { result ≡ any (node_undeclared (kinds_of (register_in register.now))) (tabulate n (node_in tree.now)) }
{
    (0..n).any(|i| is_undeclared(tree, i, register))
}
