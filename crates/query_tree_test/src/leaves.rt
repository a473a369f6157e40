// Parts that are one node.
ghost use Rattle.std.specs.Prelude.{◌≡◌, true, false, ◌&&◌, ◌+◌, length};
ghost use Rattle.text.specs.Bytes.{bytes, same};
ghost use Rattle.names.specs.Names.{is_composed_name, is_composed_namespace};
ghost use Rattle.values.specs.Names.{is_composed_reference, bare, qualified};
ghost use Rattle.language.specs.Comparators.{word, is_equal};
ghost use Rattle.language.specs.QueryText.{is_category_of};
ghost use Rattle.query_tree_spelling.specs.Spelled.{spelled_value, cost_reference};
ghost use Rattle.query_tree.specs.Pass.{up_to_bytes, leaf_item};

use crate::shapes::up_to_bytes;
use language::{SurfaceComparator, is_equal, word_length};
use names::{is_composed_name, is_composed_namespace};
use query_tree::{Item, Shape};
use tables::get_or;
use text::same_bytes;
use values::is_value;

// Node `at` begins a part.
#[tactic(auto, unfolding(query_tree::specs::Pass::leaf_item))]
fn leaf_item(shape: Shape, at: usize, leads: bool, kept: bool, n: usize) -> Item
    ensures { result ≡ leaf_item shape at leads kept n }
{
    Item {
        shape,
        from: at,
        names: 0,
        one: true,
        leads,
        kept,
        bytes: up_to_bytes(n),
        depth: 0,
    }
}

// A text's length, up to the first that is too large.
pub fn length_of(x: &[u8]) -> usize
    ensures { result ≡ up_to_bytes (length x.now) }
{
    usize::from(up_to_bytes(x.len()))
}

// Whether a value is read as itself behind its comparator.
#[tactic(auto, unfolding(query_tree_spelling::specs::Spelled::spelled_value))]
fn spelled_value(c: SurfaceComparator, v: &[u8]) -> bool
    ensures { result ≡ spelled_value c v.now }
{
    is_value(v) & !(is_equal(c) & ((get_or(v, 0, 0) == 33) | same_bytes(v, b"+")))
}

pub fn category_item(at: usize, x: &[u8]) -> Item
    ensures { result ≡ leaf_item Shape.Categories at false (is_composed_name x.now) (length x.now) }
{
    leaf_item(Shape::Categories, at, false, is_composed_name(x), x.len())
}

pub fn namespace_item(at: usize, n: &[u8]) -> Item
    ensures { result ≡ leaf_item Shape.Identifiers at (same n.now (bytes "Category")) (is_composed_namespace n.now) (length n.now + 2) }
{
    let leads = same_bytes(n, b"Category");
    let kept = is_composed_namespace(n);
    leaf_item(Shape::Identifiers, at, leads, kept, length_of(n) + 2)
}

pub fn bare_item(at: usize, c: SurfaceComparator, x: &[u8]) -> Item
    ensures { result ≡ leaf_item Shape.Identifiers at (is_equal c && is_category_of (bare x.now)) (is_composed_reference (bare x.now)) (length (word c) + cost_reference (bare x.now)) }
{
    let kept = is_composed_name(x);
    let n = usize::from(word_length(c)) + length_of(x);
    leaf_item(Shape::Identifiers, at, false, kept, n)
}

pub fn qualified_item(at: usize, c: SurfaceComparator, n: &[u8], x: &[u8]) -> Item
    ensures { result ≡ leaf_item Shape.Identifiers at (is_equal c && is_category_of (qualified n.now x.now)) (is_composed_reference (qualified n.now x.now)) (length (word c) + cost_reference (qualified n.now x.now)) }
{
    let leads = is_equal(c) & same_bytes(n, b"Category");
    let kept = is_composed_namespace(n) & is_composed_name(x);
    let cost = usize::from(word_length(c)) + (length_of(n) + (length_of(x) + 1));
    leaf_item(Shape::Identifiers, at, leads, kept, cost)
}

pub fn existence_item(at: usize) -> Item
    ensures { result ≡ leaf_item Shape.Alternatives at false true 1 }
{
    leaf_item(Shape::Alternatives, at, false, true, 1)
}

pub fn value_item(at: usize, c: SurfaceComparator, v: &[u8]) -> Item
    ensures { result ≡ leaf_item Shape.Alternatives at false (spelled_value c v.now) (length (word c) + length v.now) }
{
    let kept = spelled_value(c, v);
    let n = usize::from(word_length(c)) + length_of(v);
    leaf_item(Shape::Alternatives, at, false, kept, n)
}
