// Whether bytes are laid out as those of a dictionary.
ghost use Rattle.std.specs.Prelude.{◌≡◌, ◌+◌, ◌-◌};
ghost use Rattle.register_form.specs.Form.{property_count};
ghost use Rattle.register_form.specs.Tests.{rises, is_counted, is_padded, is_laid};
ghost use Rattle.buffer.specs.Tests.{all_to, zeros_at};
ghost use Rattle.register_form_test.specs.Stages.{are_rows_padded, kind_test, start_at, rise_test};

use buffer::{two_at, zeros};
use register_form::layout::{
    FORM_BYTES, FORM_ENDS, FORM_STARTS, FORMS, MOST_FORMS, MOST_PAGES, MOST_PROPERTIES, MOST_TEXTS,
    PAGE_BYTES, PAGES, PROPERTIES, PROPERTY_BYTES, TERM_BYTES, TERMS, TEXT_BYTES, TEXT_END_BYTES,
    TEXT_ENDS, TEXT_STARTS, TEXTS,
};
use register_form::{
    REGISTER_BYTES, form_start, kind_byte, number_at, page_count, property_count, term_count,
    text_count, text_start,
};
use values::KIND_COUNT;

// Whether a region's bytes behind the first n are 0.
fn zeros_behind(h: &[u8], base: u16, size: u16, n: usize) -> bool
    ensures { result ≡ zeros_at h.now (base + n) (size - n) }
{
    let room = usize::from(size);
    if room <= n {
        return true;
    }
    zeros(h, usize::from(base) + n, room - n)
}

// Whether the bytes behind properties, pages and forms are 0; behind each region.
fn are_rows_padded(h: &[u8]) -> bool
    ensures { result ≡ are_rows_padded h.now }
{
    let pages = page_count(h);
    zeros_behind(
        h,
        PROPERTIES,
        PROPERTY_BYTES,
        3 * usize::from(property_count(h)),
    ) & zeros_behind(h, PAGES, PAGE_BYTES, 2 * usize::from(pages))
        & zeros_behind(h, FORM_ENDS, PAGE_BYTES, 2 * usize::from(pages))
        & zeros_behind(h, FORMS, FORM_BYTES, 2 * usize::from(form_start(h, pages)))
}

fn is_padded(h: &[u8]) -> bool
    ensures { result ≡ is_padded h.now }
{
    let texts = text_count(h);
    are_rows_padded(h)
        & zeros_behind(h, TERMS, TERM_BYTES, 9 * usize::from(term_count(h)))
        & zeros_behind(h, TEXT_ENDS, TEXT_END_BYTES, 2 * usize::from(texts))
        & zeros_behind(h, TEXTS, TEXT_BYTES, usize::from(text_start(h, texts)))
}

// Whether there are no more rows than there is room for.
fn is_counted(h: &[u8]) -> bool
    ensures { result ≡ is_counted h.now }
{
    (property_count(h) <= MOST_PROPERTIES)
        & (page_count(h) <= MOST_PAGES)
        & (term_count(h) <= MOST_FORMS)
        & (text_count(h) <= MOST_TEXTS)
}

// Whether the byte of property p's kind is one of a kind.
fn is_kind(h: &[u8], p: u16) -> bool
    ensures { result ≡ kind_test h.now p }
{
    kind_byte(h, p) < KIND_COUNT
}

fn are_kinds(h: &[u8]) -> bool
    ensures { result ≡ all_to (property_count h.now) (kind_test h.now) }
{
    let mut ok = true;
    for p in 0..property_count(h) {
        ok = ok & is_kind(h, p);
    }
    ok
}

// Whether number i of a table of starts is at most the next.
fn keeps_up(h: &[u8], table: u16, i: u16) -> bool
    ensures { result ≡ rise_test h.now table i }
{
    let at = usize::from(table) + 2 * usize::from(i);
    two_at(h, at) <= two_at(h, at + 2)
}

// Whether none of the first n is more than the next.
fn never_falls(h: &[u8], table: u16, n: u16) -> bool
    ensures { result ≡ all_to n (rise_test h.now table) }
{
    let mut ok = true;
    for i in 0..n {
        ok = ok & keeps_up(h, table, i);
    }
    ok
}

// Whether a table of n starts and one more begins with 0, never falls, and ends at most at a number.
fn rises_to(h: &[u8], table: u16, n: u16, most: u16) -> bool
    ensures { result ≡ rises (start_at h.now table) n most }
{
    (number_at(h, table, 0) == 0) & never_falls(h, table, n) & (number_at(h, table, n) <= most)
}

// Whether the bytes are laid out as those of a dictionary.
pub fn is_laid(h: &[u8]) -> bool
    ensures { result ≡ is_laid h.now }
{
    if h.len() != REGISTER_BYTES {
        return false;
    }
    if !is_counted(h) {
        return false;
    }
    are_kinds(h)
        & rises_to(h, FORM_STARTS, page_count(h), MOST_FORMS)
        & rises_to(h, TEXT_STARTS, text_count(h), TEXT_BYTES)
        & is_padded(h)
}
