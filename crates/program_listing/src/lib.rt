// What asklist writes for a register text and a query text.
#![tactic(auto)]

ghost use Rattle.std.specs.Prelude.{ℕ};
ghost use Rattle.language.specs.Refusals.{refusal_number};
ghost use Rattle.program_listing.specs.Listing.{Lists};
ghost use Rattle.program_listing.specs.Answering.{AppendsRefusal, AnswersCore, AnswersText};

pub mod pagelist; // pagelist.rt: the list of the marked pages, and a refusal
pub mod parts; // parts.rt: numbers and lines, one part after the other

use call_ask::ask;
use call_query::query;
use call_register::register;
use language::Refusal;
use pagelist::{put_list, put_refusal};
use query_core::QUERY_BYTES;
use register_form::REGISTER_BYTES;

// Writes a refusal.
fn put_number(out: &mut [u8], refusal: Refusal) -> usize
    ensures { AppendsRefusal (refusal_number refusal) out.old out.new result }
{
    put_refusal(out, usize::from(refusal.number()))
}

// Writes the answer to a held query on a held register.
fn answer_core(core: &[u8], held: &[u8], out: &mut [u8]) -> usize
    ensures { AnswersCore core.now held.now out.old out.new result }
{
    let mut marks = [0u8; 256];
    match ask(core, held, &mut marks) {
        Ok(n) => put_list(out, held, n, &marks),
        Err(refusal) => put_number(out, refusal),
    }
}

// Writes the answer to a query text on a held register.
fn answer_text(held: &[u8], question: &[u8], out: &mut [u8]) -> usize
    ensures { AnswersText held.now question.now out.old out.new result }
{
    let mut core = [0u8; QUERY_BYTES];
    match query(held, question, &mut core) {
        Ok(()) => answer_core(&core, held, out),
        Err(refusal) => put_number(out, refusal),
    }
}

// How many bytes are enough for any answer: 256 lines of 134 bytes behind a first one of 10.
pub const ANSWER_BYTES: usize = 34314;

// Writes the answer to a query text on a register text, as far as there is room, and answers the place behind it.
pub fn answer(text: &[u8], question: &[u8], out: &mut [u8]) -> usize
    ensures { Lists text.now question.now out.old out.new result }
{
    let mut held = [0u8; REGISTER_BYTES];
    match register(text, &mut held) {
        Ok(()) => answer_text(&held, question, out),
        Err(refusal) => put_number(out, refusal),
    }
}
