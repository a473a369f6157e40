// The ask call: marks the pages that a held query selects from a held register.
#![tactic(auto)]

ghost use Rattle.std.specs.Prelude.{◌≡◌, Bool, ℕ};
ghost use Rattle.pageset.specs.Marks.{marks_from};
ghost use Rattle.call_ask.specs.Call.{Asks};
ghost use Rattle.call_ask.specs.Running.{MarksWritten, Selected, Runs};

use ask_evaluation::mismatch::has_mismatch;
use ask_evaluation::{capped, eval};
use buffer::two_at;
use language::Refusal;
use pageset::{PageSet, mark_at};
use query_core::is_query;
use register_form::{REGISTER_BYTES, page_count};
use text::part;

// Writes the first n marks, a byte each, where there is room.
fn write_marks(set: PageSet, n: u16, out: &mut [u8])
    ensures { MarksWritten (marks_from set.words) n out.old out.new }
{
    let end = usize::from(capped(n));
    if out.len() < end {
        return;
    }
    let words = set.words;
    for i in 0..end {
        out[i] = u8::from(mark_at(&words, i));
    }
}

// The pages that a held query selects.
fn select(q: &[u8], h: &[u8], places: &[u16]) -> PageSet
    ensures { Selected h.now places.now q.now (marks_from result.words) }
{
    let n = usize::from(two_at(q, 0));
    let found = eval(q, n, h, places);
    found.set
}

// Runs a held query on a register that was opened: how many pages are marked.
fn run(q: &[u8], h: &[u8], places: &[u16], out: &mut [u8]) -> Result<usize, Refusal>
    ensures { Runs h.now places.now q.now out.old out.new result }
{
    if has_mismatch(q, h) {
        return Err(Refusal::Mismatch);
    }
    let n = page_count(h);
    if out.len() < usize::from(n) {
        return Err(Refusal::MarksTooShort);
    }
    let set = select(q, h, places);
    write_marks(set, n, out);
    Ok(set.count())
}

// The ask call: marks, a byte a page, those that the query selects, and answers how many they are.
pub fn ask(query: &[u8], register: &[u8], marks: &mut [u8]) -> Result<usize, Refusal>
    ensures { Asks query.now register.now marks.old marks.new result }
{
    if !is_query(query) {
        return Err(Refusal::NoQuery);
    }
    let h = part(register, 0, REGISTER_BYTES);
    let mut places = [0u16; 2368];
    if !register_form_test::open(h, &mut places) {
        return Err(Refusal::NoAskedRegister);
    }
    run(query, h, &places, marks)
}
