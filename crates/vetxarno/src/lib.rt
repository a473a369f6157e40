// The six calls as C has them: a refusal is its number made negative. The crate vetxarno_c exports them.
#![tactic(auto)]

ghost use Rattle.std.specs.Prelude.{◌≡◌, ℕ, ◌≤◌, pos, neg_ℤ};
ghost use Rattle.language.specs.Refusals.{refusal_number, number_of};
ghost use Rattle.call_answers.specs.Calls.{RegisterCall, JoinCall, QueryCall, ReadCall, FitCall, AskCall};

use call_ask::ask;
use call_join::join;
use call_query::{fit, query, read};
use call_register::register;
use language::Refusal;

// How many pages are marked, at most 256.
fn count_of(n: usize) -> i32
    ensures { n ≤ 256 → result ≡ pos n }
{
    (n % 257) as i32
}

// The number of a refusal, made negative.
fn negative(refusal: Refusal) -> i32
    ensures { result ≡ neg_ℤ (pos (refusal_number refusal)) }
{
    -i32::from(refusal)
}

// What a call returns: 0, or the number of its refusal made negative.
fn returned(answer: Result<(), Refusal>) -> i32
    ensures { result ≡ neg_ℤ (pos (number_of answer)) }
{
    match answer {
        Ok(()) => 0,
        Err(refusal) => negative(refusal),
    }
}

// The register call.
pub fn vetxarno_register(text: &[u8], held: &mut [u8]) -> i32
    ensures { RegisterCall text.now held.old held.new result }
{
    returned(register(text, held))
}

// The join call.
pub fn vetxarno_join<'a>(first: &'a [u8], second: &'a [u8], held: &mut [u8]) -> i32
    ensures { JoinCall first.now second.now held.old held.new result }
{
    returned(join(first, second, held))
}

// The query call.
pub fn vetxarno_query(register: &[u8], text: &[u8], held: &mut [u8]) -> i32
    ensures { QueryCall register.now text.now held.old held.new result }
{
    returned(query(register, text, held))
}

// The read call.
pub fn vetxarno_read(text: &[u8], tree: &mut [u8]) -> i32
    ensures { ReadCall text.now tree.old tree.new result }
{
    returned(read(text, tree))
}

// The fit call.
pub fn vetxarno_fit(tree: &[u8], register: &[u8], held: &mut [u8]) -> i32
    ensures { FitCall tree.now register.now held.old held.new result }
{
    returned(fit(tree, register, held))
}

// The ask call.
pub fn vetxarno_ask(query: &[u8], register: &[u8], marks: &mut [u8]) -> i32
    ensures { AskCall query.now register.now marks.old marks.new result }
{
    match ask(query, register, marks) {
        Ok(n) => count_of(n),
        Err(refusal) => negative(refusal),
    }
}
