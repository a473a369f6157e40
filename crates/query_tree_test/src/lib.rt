// Whether bytes are a held tree: each row that of its node, and one pass over the nodes with a stack of parts.
#![tactic(auto)]

ghost use Rattle.std.specs.Prelude.{◌≡◌, true, false};
ghost use Rattle.language.specs.Answer.{found};
ghost use Rattle.query_tree.specs.Form.{held_tree};

pub mod testing; // testing.rt: whether bytes are those of the nodes that they hold
pub mod shapes; // shapes.rt: shapes and counts of parts
pub mod leaves; // leaves.rt: parts that are one node
pub mod joining; // joining.rt: parts made of others
pub mod passing; // passing.rt: whether nodes are the tree of a text

use passing::passes;
use query_tree::TREE_BYTES;
use testing::is_exact;
use text::part;

// Whether the first bytes are the form of a query that some text has.
pub fn is_tree(h: &[u8]) -> bool
    ensures { result ≡ found (held_tree h.now) (λ q. true) false }
{
    if h.len() < TREE_BYTES {
        return false;
    }
    let g = part(h, 0, TREE_BYTES);
    is_exact(g) && passes(g)
}
