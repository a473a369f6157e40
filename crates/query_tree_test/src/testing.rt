// Whether bytes are those of the nodes that they hold.
ghost use Rattle.std.specs.Prelude.{◌≡◌, cond};
ghost use Rattle.language.specs.Comparators.{last_comparator};
ghost use Rattle.query_tree.specs.Testing.{uses_comparator, uses_first, uses_second, uses_nothing, row_fits, is_exact};
ghost use Rattle.query_tree_test.specs.Loops.{RowsTested};

use buffer::{two_at, zeros};
use language::LAST_COMPARATOR;
use query_tree::reading::row_at;
use query_tree::{Row, layout};

// The highest comparator of a tag.
fn last_comparator(tag: u8) -> u8
    ensures { result ≡ cond (uses_comparator tag) last_comparator 0 }
{
    match tag {
        layout::BARE | layout::QUALIFIED | layout::VALUE => LAST_COMPARATOR,
        _ => 0,
    }
}

fn uses_first(tag: u8) -> bool
    ensures { result ≡ uses_first tag }
{
    matches!(tag, layout::NAMESPACE | layout::QUALIFIED)
}

fn uses_second(tag: u8) -> bool
    ensures { result ≡ uses_second tag }
{
    matches!(
        tag,
        layout::CATEGORY
            | layout::BARE
            | layout::QUALIFIED
            | layout::VALUE
            | layout::PROPERTY
            | layout::LINK
    )
}

// The number of a tag's row whose string begins at a place.
fn place_of(tag: u8, at: usize) -> usize
    ensures { result ≡ cond (uses_nothing tag) 0 at }
{
    match tag {
        layout::EXISTENCE | layout::SUBQUERY => 0,
        _ => at,
    }
}

// Whether a row is that of its node, whose string begins at a place.
#[tactic(auto, unfolding(query_tree::specs::Testing::row_fits))]
pub fn row_fits(row: Row, at: usize) -> bool
    ensures { result ≡ row_fits at row }
{
    if layout::STRING_BYTES < at {
        return false;
    }
    let tag = row.tag;
    let first = usize::from(row.first);
    let second = usize::from(row.second);
    let placed = (tag < layout::CATEGORY) | (usize::from(row.number) == place_of(tag, at));
    let end = at + first + second;
    (tag <= layout::LINK)
        & (row.comparator <= last_comparator(tag))
        & placed
        & (uses_first(tag) | (first == 0))
        & (uses_second(tag) | (second == 0))
        & (end <= layout::STRING_BYTES)
}

// Where the strings of the first n rows end, where these fit.
fn rows_fit(h: &[u8], n: usize) -> Option<usize>
    ensures { RowsTested h.now n result }
{
    let mut at: usize = 0;
    for i in 0..n {
        let row = row_at(h, i);
        if !row_fits(row, at) {
            return None;
        }
        at = at + usize::from(row.first) + usize::from(row.second);
    }
    Some(at)
}

// Whether bytes are those of the nodes that they hold, where there are enough of them.
pub fn is_exact(h: &[u8]) -> bool
    ensures { result ≡ is_exact h.now }
{
    let n = usize::from(two_at(h, 0));
    if layout::MOST_NODES < n {
        return false;
    }
    let Some(end) = rows_fit(h, n) else {
        return false;
    };
    let rows = layout::NODE_BYTES * n;
    zeros(h, layout::NODES + rows, layout::ALL_NODE_BYTES - rows)
        & zeros(h, layout::STRINGS + end, layout::STRING_BYTES - end)
}
