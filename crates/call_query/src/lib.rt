// The calls that read a query text, fit what was read to a held register, and do both.
#![tactic(auto)]

ghost use Rattle.language.specs.Answer.{Answered};
ghost use Rattle.language.specs.Refusals.{number_of};
ghost use Rattle.call_answers.specs.Calls.{query_call, read_call, fit_call};
ghost use Rattle.call_query.specs.Stages.{TestsRegister, FitsInto};

use buffer::put_bytes;
use language::Refusal;
use query_core::QUERY_BYTES;
use query_core_fit::fit_tree;
use query_text_read::read_text;
use query_tree::TREE_BYTES;
use query_tree_test::is_tree;
use register_form::{REGISTER_BYTES, layout};
use text::part;

// Whether the first bytes are a held register.
fn is_register(register: &[u8]) -> bool
    ensures { TestsRegister register.now result }
{
    let h = part(register, 0, REGISTER_BYTES);
    let mut places = [0u16; layout::TEXT_ROOM];
    register_form_test::open(h, &mut places)
}

// Fits a tree to the kinds of a register and writes the held query, or refuses by the lowest of 17 to 20.
fn fit_into(tree: &[u8], register: &[u8], held: &mut [u8]) -> Result<(), Refusal>
    ensures { FitsInto tree.now register.now held.old (number_of result) held.new }
{
    let mut scratch = [0u8; QUERY_BYTES];
    fit_tree(tree, register, &mut scratch)?;
    if held.len() < QUERY_BYTES {
        return Err(Refusal::QueryTooShort);
    }
    put_bytes(held, 0, &scratch);
    Ok(())
}

// The read call: writes the held tree of a text, or answers what refuses it.
pub fn read(text: &[u8], tree: &mut [u8]) -> Result<(), Refusal>
    ensures { Answered (read_call text.now tree.old) tree.old (number_of result) tree.new }
{
    let mut scratch = [0u8; TREE_BYTES];
    read_text(text, &mut scratch)?;
    if tree.len() < TREE_BYTES {
        return Err(Refusal::TreeTooShort);
    }
    put_bytes(tree, 0, &scratch);
    Ok(())
}

// The fit call: writes the held query of a tree for a register, or answers what refuses them.
pub fn fit(tree: &[u8], register: &[u8], held: &mut [u8]) -> Result<(), Refusal>
    ensures { Answered (fit_call tree.now register.now held.old) held.old (number_of result) held.new }
{
    if !is_register(register) {
        return Err(Refusal::NoRegister);
    }
    if !is_tree(tree) {
        return Err(Refusal::NoTree);
    }
    let h = part(register, 0, REGISTER_BYTES);
    fit_into(part(tree, 0, TREE_BYTES), h, held)
}

// The query call: reading, then fitting.
pub fn query(register: &[u8], text: &[u8], held: &mut [u8]) -> Result<(), Refusal>
    ensures { Answered (query_call register.now text.now held.old) held.old (number_of result) held.new }
{
    if !is_register(register) {
        return Err(Refusal::NoRegister);
    }
    let mut tree = [0u8; TREE_BYTES];
    read_text(text, &mut tree)?;
    let h = part(register, 0, REGISTER_BYTES);
    fit_into(&tree, h, held)
}
