// The register call: judges a register text, and writes the held register.
#![tactic(auto)]

ghost use Rattle.std.specs.Prelude.{◌≡◌, ltb};
ghost use Rattle.text.specs.Bytes.{all};
ghost use Rattle.language.specs.Answer.{Answered};
ghost use Rattle.language.specs.Refusals.{number_of};
ghost use Rattle.call_answers.specs.Calls.{register_call};
ghost use Rattle.register_form_assembly.specs.Drafts.{tables_in};
ghost use Rattle.register_text_draft.specs.Tables.{tables_in as filled_tables};
ghost use Rattle.call_register.specs.Writing.{Writes, Registers, RegistersTyped};

use dictionary::Texts;
use language::Refusal;
use register_form::layout;
use register_form_assembly::Draft;
use register_form_assembly::terms::put_own;
use register_form_write::write_draft;
use register_text_draft::{DraftTables, PageTable, PropertyTable, TermTable, TextTable};
use register_text_entries::composing::compose;
use register_text_verdict::{judge, judge_typed, read_rows};

// Filled tables as a draft, with the term of each form.
fn draft_of<'a>(tables: &'a DraftTables, uses: &'a [u16]) -> Draft<'a>
    ensures { tables_in result ≡ filled_tables tables.now uses.now }
{
    Draft {
        texts: Texts {
            bytes: tables.texts.heap,
            starts: tables.texts.starts,
            lens: tables.texts.lens,
        },
        text_count: tables.texts.count,
        kinds: tables.properties.kinds,
        names: tables.properties.names,
        property_count: tables.properties.count,
        identifiers: tables.pages.identifiers,
        firsts: tables.pages.firsts,
        page_count: tables.pages.count,
        uses,
        groups: tables.terms.groups,
        codes: tables.terms.codes,
        term_count: tables.terms.count,
    }
}

// Writes the register of accepted rows: refusal 8 where the buffer is too short.
fn write_text(
    text: &[u8],
    t: &[u16],
    n: usize,
    props: &[u16],
    np: usize,
    held: &mut [u8],
) -> Result<(), Refusal>
    ensures { Writes text.now t.now props.now n np held.old result held.new }
{
    let mut tables = DraftTables {
        texts: TextTable {
            heap: &mut [0; layout::TEXT_BYTE_ROOM],
            starts: &mut [0; layout::TEXT_ROOM],
            lens: &mut [0; layout::TEXT_ROOM],
            count: 0,
            end: 0,
        },
        properties: PropertyTable {
            kinds: &mut [0; layout::PROPERTY_ROOM],
            names: &mut [0; layout::PROPERTY_ROOM],
            count: 0,
        },
        pages: PageTable {
            identifiers: &mut [0; layout::PAGE_ROOM],
            firsts: &mut [0; layout::PAGE_START_ROOM],
            count: 0,
        },
        terms: TermTable {
            groups: &mut [0; layout::FORM_ROOM],
            codes: &mut [0; layout::FORM_ROOM],
            count: 0,
        },
    };
    tables.draft_text(text, t, n, props, np);
    let mut uses = [0u16; layout::FORM_ROOM];
    put_own(&mut uses, tables.terms.count); // each form is a term of its own
    write_draft(&draft_of(&tables, &uses), held)
}

// Judges the first n rows, over the text c, whose names are composed, and writes their register: the lowest refusal of 4 to 8.
fn register_rows(c: &[u8], t: &[u16], n: usize, held: &mut [u8]) -> Result<(), Refusal>
    ensures { Registers c.now t.now n held.old result held.new }
{
    let mut props = [0u16; 5500];
    let mut pages = [0u16; 5500];
    let (judged, verdict) = judge(c, t, n, &mut props, &mut pages);
    verdict?;
    write_text(c, t, n, &props, judged.props, held)
}

// The same of rows as typed, whose names are judged and composed first: the lowest refusal of 3 to 8.
fn register_typed(text: &[u8], t: &[u16], n: usize, held: &mut [u8]) -> Result<(), Refusal>
    ensures { RegistersTyped text.now t.now n held.old result held.new }
{
    let mut copy = [0u8; 32768];
    let mut rows = [0u16; 27500];
    if compose(text, t, n, &mut copy, &mut rows) {
        return Err(Refusal::RuleBroken);
    }
    register_rows(&copy, &rows, n, held)
}

// Whether all bytes are below 128: then there is nothing to compose. It never stops before the end, so that a compiler takes many bytes
// at a time.
fn is_ascii(s: &[u8]) -> bool
    ensures { result ≡ all (λ b. ltb b 128) s.now }
{
    let mut ascii = true;
    for &b in s {
        ascii = ascii & (b < 128);
    }
    ascii
}

// The register call: writes the held register of a text, or answers what refuses it.
pub fn register(text: &[u8], held: &mut [u8]) -> Result<(), Refusal>
    ensures { Answered (register_call text.now held.old) held.old (number_of result) held.new }
{
    let mut t = [0u16; 27500];
    if is_ascii(text) {
        let n = judge_typed(text, &mut t)?;
        return register_rows(text, &t, n, held);
    }
    let n = read_rows(text, &mut t)?;
    register_typed(text, &t, n, held)
}
