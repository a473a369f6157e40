// The regions of a held register, one behind the other.
ghost use Rattle.std.specs.Prelude.{◌≡◌, ◌++◌};
ghost use Rattle.language.specs.Refusals.{number_of};
ghost use Rattle.dictionary.specs.Items.{listed_in};
ghost use Rattle.register_form_bytes.specs.Writing.{put_regions};
ghost use Rattle.register_form_write.specs.Writer.{row_regions, list_regions, ordered_in, FittedWritten};

use buffer::clear;
use dictionary::{Listing, Texts};
use language::Refusal;
use register_form::{REGISTER_BYTES, layout};
use register_form_assembly::{Draft, Order};
use register_form_bytes::put_counts;
use register_form_bytes::regions::{
    put_numbers, put_picked, put_properties, put_starts, put_texts,
};

// The forms that the pages keep, and where each page's begin.
#[derive(Clone, Copy)]
pub struct Kept<'a> {
    pub begins: &'a [u16],
    pub begin_count: u16,
    pub forms: &'a [u16],
    pub count: u16,
}

// Counts, properties, the pages' identifiers, where each page's forms begin, forms.
fn write_rows(h: &mut [u8], draft: &Draft, texts: Order, term_count: u16, kept: Kept)
    ensures { h.new ≡ put_regions 0 (row_regions draft.now.kinds.now texts.entry.numbers.now draft.now.names.now draft.now.property_count draft.now.identifiers.now draft.now.page_count term_count texts.entry.count kept.entry.begins.now kept.entry.begin_count kept.entry.forms.now kept.entry.count) h.old }
{
    put_counts(
        h,
        draft.property_count,
        draft.page_count,
        term_count,
        texts.count,
    );
    put_properties(
        h,
        layout::PROPERTIES,
        draft.kinds,
        texts.numbers,
        draft.names,
        draft.property_count,
    );
    put_picked(
        h,
        layout::PAGES,
        texts.numbers,
        draft.identifiers,
        draft.page_count,
    );
    put_numbers(h, layout::FORM_STARTS, kept.begins, kept.begin_count);
    put_numbers(h, layout::FORMS, kept.forms, kept.count);
}

// Terms, where each text begins, texts.
fn write_lists(h: &mut [u8], terms: Listing, texts: Listing)
    ensures { h.new ≡ put_regions 5322 (list_regions (listed_in terms.entry) (listed_in texts.entry)) h.old }
{
    put_texts(h, layout::TERMS, terms);
    put_starts(h, layout::TEXT_STARTS, texts);
    put_texts(h, layout::TEXTS, texts);
}

// Writes the regions over zeros, where the buffer is as long as a held register.
pub fn write_fitting(
    draft: &Draft,
    texts: Order,
    spelled: Texts,
    terms: Order,
    kept: Kept,
    held: &mut [u8],
) -> Result<(), Refusal>
    ensures { FittedWritten (row_regions draft.now.kinds.now texts.entry.numbers.now draft.now.names.now draft.now.property_count draft.now.identifiers.now draft.now.page_count terms.entry.count texts.entry.count kept.entry.begins.now kept.entry.begin_count kept.entry.forms.now kept.entry.count ++ list_regions (ordered_in spelled.entry terms.entry) (ordered_in draft.now.texts texts.entry)) held.old (number_of result) held.new }
{
    if held.len() < REGISTER_BYTES {
        return Err(Refusal::RegisterTooShort);
    }
    clear(held, REGISTER_BYTES);
    write_rows(held, draft, texts, terms.count, kept);
    let term_list = Listing {
        texts: spelled,
        refs: terms.refs,
        count: terms.count,
    };
    let text_list = Listing {
        texts: draft.texts,
        refs: texts.refs,
        count: texts.count,
    };
    write_lists(held, term_list, text_list);
    Ok(())
}
