// The forms that are kept, the count, and then the writing.
ghost use Rattle.std.specs.Prelude.{◌≡◌, ◌+◌, min};
ghost use Rattle.language.specs.Refusals.{number_of};
ghost use Rattle.language.specs.Rules.{total};
ghost use Rattle.register_form_bytes.specs.Writing.{first_of};
ghost use Rattle.register_form_assembly.specs.Drafts.{tables_in, text_sizes, term_sizes};
ghost use Rattle.register_form_write.specs.Writer.{found_in, KeptWritten};

use crate::regions::{Kept, write_fitting};
use dictionary::Texts;
use language::Refusal;
use register_form::layout;
use register_form_assembly::counting::{MOST_COUNTED, count_terms, count_texts};
use register_form_assembly::keeping::keep_forms;
use register_form_assembly::{Draft, Order};
use tables::next;

// The bytes of all names and values, up to 32,769.
fn count_all(draft: &Draft, terms: Order, kept: &[u16], n: u16) -> u16
    ensures { result ≡ min (total (text_sizes draft.now.texts) (first_of draft.now.names.now draft.now.property_count) + total (text_sizes draft.now.texts) (first_of draft.now.identifiers.now draft.now.page_count) + total (term_sizes draft.now terms.entry.refs.now) (first_of kept.now n)) 32769 }
{
    let named = count_texts(draft.texts, draft.names, draft.property_count, 0);
    let identified = count_texts(draft.texts, draft.identifiers, draft.page_count, named);
    count_terms(draft, terms, kept, n, identified)
}

// Lists the forms that each page keeps, counts, and writes.
pub fn write_kept(
    draft: &Draft,
    texts: Order,
    spelled: Texts,
    terms: Order,
    held: &mut [u8],
) -> Result<(), Refusal>
    ensures { KeptWritten (tables_in draft.now) (found_in texts.entry spelled.entry terms.entry) held.old (number_of result) held.new }
{
    let mut forms = [0u16; layout::FORM_ROOM];
    let mut begins = [0u16; layout::PAGE_START_ROOM];
    let n = keep_forms(draft, terms.numbers, &mut forms, &mut begins);
    if layout::MOST_FORMS < n {
        return Err(Refusal::OverLimit);
    }
    let bytes = count_all(draft, terms, &forms, n);
    if MOST_COUNTED < bytes {
        return Err(Refusal::OverLimit);
    }
    let kept = Kept {
        begins: &begins,
        begin_count: next(draft.page_count),
        forms: &forms,
        count: n,
    };
    write_fitting(draft, texts, spelled, terms, kept, held)
}
