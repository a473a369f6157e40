// Reads a query text into a held tree, or turns it away with the lowest of 12 to 16.
#![tactic(auto)]

ghost use Rattle.std.specs.Prelude.{◌≡◌};
ghost use Rattle.query_text_read.specs.Answers.{verdict_of, ReadsText};

use language::Refusal;
use query_text_heads::Seen;
use query_tree_write::{Place, finish};
use readers::query;
use text::{Class, scan};

mod readers; // readers.rt: the grammar

// The first of 14, 15 and 16 whose condition was met.
#[tactic(auto, unfolding(crate::specs::Answers::verdict_of))]
fn verdict(seen: Seen) -> Result<(), Refusal>
    ensures { result ≡ verdict_of seen }
{
    if seen.deep {
        return Err(Refusal::TooDeep);
    }
    if seen.name {
        return Err(Refusal::BadName);
    }
    if seen.value {
        return Err(Refusal::BadPiece);
    }
    Ok(())
}

// Reads a query text into a tree that is 5,112 zeros. What is left in the tree of a text that is turned away says nothing.
pub fn read_text(s: &[u8], tree: &mut [u8]) -> Result<(), Refusal>
    ensures { ReadsText s.now tree.old tree.new result }
{
    if 1024 < s.len() {
        return Err(Refusal::QueryTooLong);
    }
    let seen = Seen {
        place: Place { count: 0, end: 0 },
        deep: false,
        name: false,
        value: false,
    };
    let Some((next, got)) = query(s, 0, 0, tree, seen) else {
        return Err(Refusal::QueryUnread);
    };
    if scan(s, next, Class::Blank) < s.len() {
        return Err(Refusal::QueryUnread);
    }
    finish(tree, got.place);
    verdict(got)
}
