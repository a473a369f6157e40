// The join call: joins two held registers.
#![tactic(auto)]

ghost use Rattle.std.specs.Prelude.{◌≡◌};
ghost use Rattle.language.specs.Answer.{Answered};
ghost use Rattle.language.specs.Refusals.{number_of};
ghost use Rattle.register_form.specs.Tables.{tables_of};
ghost use Rattle.register_form_assembly.specs.Drafts.{tables_in};
ghost use Rattle.call_answers.specs.Calls.{join_call};
ghost use Rattle.call_join.specs.Stages.{Joins, Writes};

use dictionary::Texts;
use language::Refusal;
use register_form::{REGISTER_BYTES, layout};
use register_form_assembly::Draft;
use register_form_test::open;
use register_form_write::write_ordered;
use register_join_draft::{DraftTables, Side, draft_join, kinds_clash};
use register_join_merge::{Heap, merge};
use text::part;

// Filled tables as a draft, of which the first m texts are those of both registers.
fn draft_of<'a>(tables: &'a DraftTables, texts: Texts<'a>, m: u16) -> Draft<'a>
    ensures { tables_in result ≡ tables_of texts.entry.bytes.now texts.entry.starts.now texts.entry.lens.now m tables.now.kinds.now tables.now.names.now tables.now.property_count tables.now.identifiers.now tables.now.firsts.now tables.now.page_count tables.now.uses.now tables.now.groups.now tables.now.codes.now tables.now.term_count }
{
    Draft {
        texts,
        text_count: m,
        kinds: tables.kinds,
        names: tables.names,
        property_count: tables.property_count,
        identifiers: tables.identifiers,
        firsts: tables.firsts,
        page_count: tables.page_count,
        uses: tables.uses,
        groups: tables.groups,
        codes: tables.codes,
        term_count: tables.term_count,
    }
}

// Writes the join of two forms: refusal 7 or 8.
fn write_join(
    first: Side,
    second: Side,
    texts: Texts,
    m: u16,
    held: &mut [u8],
) -> Result<(), Refusal>
    ensures { Writes first.entry.held.now second.entry.held.now texts.entry.bytes.now texts.entry.starts.now texts.entry.lens.now m first.entry.items.now second.entry.items.now held.old result held.new }
{
    let mut tables = DraftTables {
        kinds: &mut [0; layout::DRAFT_PROPERTIES],
        names: &mut [0; layout::DRAFT_PROPERTIES],
        property_count: 0,
        identifiers: &mut [0; layout::DRAFT_PAGES],
        firsts: &mut [0; layout::DRAFT_PAGE_STARTS],
        page_count: 0,
        uses: &mut [0; layout::DRAFT_FORMS],
        groups: &mut [0; layout::DRAFT_FORMS],
        codes: &mut [0; layout::DRAFT_FORMS],
        term_count: 0,
    };
    draft_join(first, second, &mut tables);
    write_ordered(&draft_of(&tables, texts, m), held)
}

// Joins two forms, or answers the lowest refusal in order of 32, 7, 8.
fn join_forms<'a>(h: &'a [u8], g: &'a [u8], held: &mut [u8]) -> Result<(), Refusal>
    ensures { Joins h.now g.now held.old result held.new }
{
    let mut heap = Heap {
        bytes: &mut [0; layout::DRAFT_TEXT_BYTES],
        starts: &mut [0; layout::DRAFT_TEXTS],
        lens: &mut [0; layout::DRAFT_TEXTS],
    };
    let mut items1 = [0u16; layout::TEXT_ROOM];
    let mut items2 = [0u16; layout::TEXT_ROOM];
    let m = merge(h, g, &mut heap, &mut items1, &mut items2);
    let first = Side {
        held: h,
        items: &items1,
    };
    let second = Side {
        held: g,
        items: &items2,
    };
    if kinds_clash(first, second) {
        return Err(Refusal::KindsClash);
    }
    write_join(first, second, heap.texts(), m, held)
}

// The join call: writes the join of two held registers, or answers what refuses it.
pub fn join<'a>(first: &'a [u8], second: &'a [u8], held: &mut [u8]) -> Result<(), Refusal>
    ensures { Answered (join_call first.now second.now held.old) held.old (number_of result) held.new }
{
    let h = part(first, 0, REGISTER_BYTES);
    let g = part(second, 0, REGISTER_BYTES);
    let mut places = [0u16; layout::TEXT_ROOM];
    if !open(h, &mut places) {
        return Err(Refusal::NoAskedRegister);
    }
    if !open(g, &mut places) {
        return Err(Refusal::NoAskedRegister);
    }
    join_forms(h, g, held)
}
