// The one writer of held registers: it assembles a draft and writes it, or refuses it and leaves every byte.
#![tactic(auto)]

ghost use Rattle.language.specs.Refusals.{number_of};
ghost use Rattle.register_form_assembly.specs.Drafts.{tables_in};
ghost use Rattle.register_form_write.specs.Writer.{TermsWritten, NumberedWritten, DraftWritten, OrderedWritten};

use crate::kept::write_kept;
use dictionary::{Texts, number, number_of};
use language::Refusal;
use register_form::layout;
use register_form_assembly::terms::{put_own, put_term_starts, put_terms};
use register_form_assembly::{Draft, Order};

pub mod kept; // kept.rt: the forms that are kept, the count, and then the writing
pub mod regions; // regions.rt: the regions, one behind the other

// Numbers the terms, of which many may be alike or few, and writes.
fn write_terms(draft: &Draft, texts: Order, held: &mut [u8], alike: bool) -> Result<(), Refusal>
    ensures { TermsWritten (tables_in draft.now) texts.entry.refs.now texts.entry.count texts.entry.numbers.now held.old (number_of result) held.new }
{
    let mut table = [0u8; layout::DRAFT_TERM_BYTES];
    let mut starts = [0u32; layout::DRAFT_FORMS];
    let lens = [9u16; layout::DRAFT_FORMS];
    let mut refs = [0u16; layout::DRAFT_FORMS];
    let mut numbers = [0u16; layout::DRAFT_FORMS];
    let mut scratch = [0u16; layout::DRAFT_FORMS];
    put_terms(
        draft.kinds,
        texts.numbers,
        draft.groups,
        draft.codes,
        draft.term_count,
        &mut table,
    );
    put_term_starts(&mut starts, draft.term_count);
    let spelled = Texts {
        bytes: &table,
        starts: &starts,
        lens: &lens,
    };
    let count = number_of(
        spelled,
        draft.term_count,
        &mut refs,
        &mut numbers,
        &mut scratch,
        alike,
    ) as u16;
    let terms = Order {
        refs: &refs,
        count,
        numbers: &numbers,
    };
    write_kept(draft, texts, spelled, terms, held)
}

// Writes a draft whose texts are numbered.
fn write_numbered(draft: &Draft, texts: Order, held: &mut [u8], alike: bool) -> Result<(), Refusal>
    ensures { NumberedWritten (tables_in draft.now) texts.entry.refs.now texts.entry.count texts.entry.numbers.now held.old (number_of result) held.new }
{
    if layout::MOST_PROPERTIES < draft.property_count {
        return Err(Refusal::OverLimit);
    }
    if layout::MOST_PAGES < draft.page_count {
        return Err(Refusal::OverLimit);
    }
    write_terms(draft, texts, held, alike)
}

// Writes the register that a draft describes, unless it is over a limit or the buffer is too short.
pub fn write_draft(draft: &Draft, held: &mut [u8]) -> Result<(), Refusal>
    ensures { DraftWritten (tables_in draft.now) held.old (number_of result) held.new }
{
    let mut refs = [0u16; layout::DRAFT_TEXTS];
    let mut numbers = [0u16; layout::DRAFT_TEXTS];
    let mut scratch = [0u16; layout::DRAFT_TEXTS];
    let count = number(
        draft.texts,
        draft.text_count,
        &mut refs,
        &mut numbers,
        &mut scratch,
    ) as u16;
    let texts = Order {
        refs: &refs,
        count,
        numbers: &numbers,
    };
    write_numbered(draft, texts, held, true)
}

// The same of a draft whose texts ascend, so that each has its own number, and of whose terms few are alike.
pub fn write_ordered(draft: &Draft, held: &mut [u8]) -> Result<(), Refusal>
    ensures { OrderedWritten (tables_in draft.now) held.old (number_of result) held.new }
{
    let mut own = [0u16; layout::DRAFT_TEXTS];
    put_own(&mut own, draft.text_count);
    let texts = Order {
        refs: &own,
        count: draft.text_count,
        numbers: &own,
    };
    write_numbered(draft, texts, held, false)
}
