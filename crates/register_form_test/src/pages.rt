// The tests of pages and their forms, and that each text and term is used.
ghost use Rattle.std.specs.Prelude.{◌≡◌, true, ◌<◌};
ghost use Rattle.register_form.specs.Form.{page_count, term_count, text_count};
ghost use Rattle.register_form.specs.Tests.{is_laid};
ghost use Rattle.buffer.specs.Tests.{all_to};
ghost use Rattle.register_form_test.specs.Loops.{is_set};
ghost use Rattle.register_form_test.specs.Stages.{form_bytes, FormsTested, page_ok, PagesTested, used_test};

use crate::texts::names_length;
use buffer::two_at;
use register_form::layout::FORMS;
use register_form::{
    form_end, form_start, group_at, identifier_number, page_count, term_count, text_count,
};
use tables::{get_or, put};
use text::part;

// The bytes of page i's forms.
fn forms_of(h: &[u8], i: u16) -> &[u8]
    ensures { result.now ≡ form_bytes h.now i }
{
    let start = form_start(h, i);
    part(
        h,
        usize::from(FORMS) + 2 * usize::from(start),
        2 * usize::from(form_end(h, i).saturating_sub(start)),
    )
}

// How many bytes the forms of page i count for, where they are terms, none twice, categories before values; writes the page's mark for each. The table had the last
// page that has a term, told by its mark. Each test has a branch of its own, which is quicker here than putting answers together.
fn forms_ok(h: &[u8], shown: &[u16], last: &mut [u16], i: u16, mark: u16) -> Option<usize>
    requires { (is_laid h.now ≡ true) × (i < page_count h.now) }
    ensures { FormsTested h.now shown.now last.old last.new mark i result }
{
    let forms = forms_of(h, i);
    let terms = term_count(h);
    let mut behind = false;
    let mut bytes: usize = 0;
    for j in 0..forms.len() / 2 {
        let f = two_at(forms, 2 * j);
        if terms <= f {
            return None;
        }
        let at = usize::from(f);
        if get_or(last, at, 0) == mark {
            return None;
        }
        let category = group_at(h, f) == 0;
        if behind & category {
            return None;
        }
        put(last, at, mark);
        bytes += usize::from(get_or(shown, at, 0));
        behind = !category;
    }
    Some(bytes)
}

// Whether text x is an identifier that no page has yet.
fn page_ok(h: &[u8], classes: &[u16], places: &[u16], x: u16) -> bool
    ensures { result ≡ page_ok h.now classes.now places.now x }
{
    (x < text_count(h))
        & (2 <= get_or(classes, usize::from(x), 0))
        & (get_or(places, usize::from(x), 0) == 0)
}

// How many bytes the pages count for, where they keep the rules; marks the terms that they have, and writes the place of each.
pub fn pages_ok(
    h: &[u8],
    classes: &[u16],
    shown: &[u16],
    last: &mut [u16],
    places: &mut [u16],
) -> Option<usize>
    requires { is_laid h.now ≡ true }
    ensures { PagesTested h.now classes.now shown.now last.old places.old last.new places.new result }
{
    let mut bytes: usize = 0;
    for i in 0..page_count(h) {
        let next = i + 1;
        let x = identifier_number(h, i);
        let held = forms_ok(h, shown, last, i, next)?;
        if !page_ok(h, classes, places, x) {
            return None;
        }
        bytes += usize::from(names_length(h, x)) + held;
        put(places, usize::from(x), next);
    }
    Some(bytes)
}

// Whether a table has a number other than 0 in a place.
fn is_set(t: &[u16], i: u16) -> bool
    ensures { result ≡ is_set t.now i }
{
    get_or(t, usize::from(i), 0) != 0
}

// Whether some page has each term. It reads the table without a test of each place, so that a compiler takes many at a time.
pub fn terms_used(h: &[u8], last: &[u16]) -> bool
    ensures { result ≡ all_to (term_count h.now) (is_set last.now) }
{
    let n = usize::from(term_count(h));
    if last.len() < n {
        return false;
    }
    let mut ok = true;
    for f in 0..n {
        ok = ok & (last[f] != 0);
    }
    ok
}

// Whether each text is used, by a property or a term or as a page's identifier.
pub fn texts_used(h: &[u8], used: &[u16], places: &[u16]) -> bool
    ensures { result ≡ all_to (text_count h.now) (used_test used.now places.now) }
{
    let mut ok = true;
    for x in 0..text_count(h) {
        ok = ok & (is_set(used, x) | is_set(places, x));
    }
    ok
}
