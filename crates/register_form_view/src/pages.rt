// The pages of a register that pass a test.
ghost use Rattle.std.specs.Prelude.{◌≡◌, ◌&&◌, Bool, true, false, List, ℕ, suc, ltb, get_or};
ghost use Rattle.text.specs.Bytes.{same, any};
ghost use Rattle.language.specs.Register.{Page, Register, holds};
ghost use Rattle.language.specs.Semantics.{follows, no_mixed};
ghost use Rattle.pageset.specs.Marks.{marks_from};
ghost use Rattle.register_form.specs.Form.{page_count, form_start};
ghost use Rattle.register_form.specs.Opened.{Opened};
ghost use Rattle.text.specs.Table.{tabulate};
ghost use Rattle.register_form_view.specs.Ranges.{within};
ghost use Rattle.register_form_view.specs.View.{passes, name_passes, name_passes_at, Agrees, form_bytes, marks_by, marks_in, Tells};

use crate::forms::{forms_between, some_marked, some_within, terms_leading, terms_passing};
use crate::ranges::{category_range, property_range};
use crate::ranks::{order_by, rank_for, rank_of};
use crate::{NameTest, Rank, TermRange, ValueTest, namespace_at, stands_as};
use pageset::PageSet;
use register_form::{form_end, form_start, identifier_number, layout, name_at, page_count};
use text::{compare, same_bytes};

// The bytes of page i's forms.
fn forms_of(h: &[u8], i: u16) -> &[u8]
    ensures { result.now ≡ form_bytes h.now (form_start h.now i) (form_start h.now (suc i)) }
{
    forms_between(h, form_start(h, i), form_end(h, i))
}

// The pages in places that pass a test.
fn pages_passing<F: Fn(u16) -> bool>(h: &[u8], test: F) -> PageSet
    requires { F.IsAlwaysCallable test }
    ensures { (p : ℕ → Bool) → Tells (F.post test) p → marks_from result.words ≡ tabulate 256 (λ j. ltb j (page_count h.now) && p j) }
{
    let mut set = PageSet::none();
    for i in 0..page_count(h).min(layout::MOST_PAGES) {
        if test(i) {
            set = set.with(usize::from(i));
        }
    }
    set
}

// The pages that have a term of a range.
fn pages_within(h: &[u8], range: TermRange) -> PageSet
    ensures { marks_from result.words ≡ marks_by h.now (within range) }
{
    pages_passing(h, |i| some_within(forms_of(h, i), range))
}

// The pages that have a marked term.
fn pages_marked(h: &[u8], wanted: &[bool]) -> PageSet
    ensures { marks_from result.words ≡ marks_by h.now (λ f. get_or wanted.now f false) }
{
    pages_passing(h, |i| some_marked(forms_of(h, i), wanted))
}

// The pages in the category x.
pub fn pages_in_category(h: &[u8], x: &[u8]) -> PageSet
    ensures { (places : List ℕ) (R : Register) → Opened h.now places R → marks_from result.words ≡ marks_in R (λ p. any (same x.now) p.categories) }
{
    pages_within(h, category_range(h, x))
}

// The pages that hold a value under the property x.
pub fn pages_with_property(h: &[u8], x: &[u8]) -> PageSet
    ensures { (places : List ℕ) (R : Register) → Opened h.now places R → marks_from result.words ≡ marks_in R (holds x.now (λ v. true)) }
{
    pages_within(h, property_range(h, x))
}

// The pages that hold, under the property x, a value that passes a test, whose strings lie in q.
pub fn pages_with_value(h: &[u8], x: &[u8], test: ValueTest, q: &[u8]) -> PageSet
    ensures { (places : List ℕ) (R : Register) → Opened h.now places R → marks_from result.words ≡ marks_in R (holds x.now (passes q.now test)) }
{
    let range = property_range(h, x);
    let rank = rank_for(h, test, q, range.high.saturating_sub(range.low));
    let terms = terms_passing(h, range, test, q, rank);
    pages_marked(h, &terms.marks)
}

// The pages that hold, under the property x, a link to a page of a set.
pub fn pages_with_link(h: &[u8], places: &[u16], x: &[u8], words: &[u64]) -> PageSet
    ensures { (R : Register) → Opened h.now places.now R → (inner : Page → Bool) → Agrees R (marks_from words.now) inner → marks_from result.words ≡ marks_in R (holds x.now (follows no_mixed R inner)) }
{
    let range = property_range(h, x);
    let terms = terms_leading(h, places, range, words);
    pages_marked(h, &terms.marks)
}

// Whether the page in place i has a namespace or an article name that stands to x, which has a rank, as a test asks. The order of
// names is not left to `name_order`, which is not compiled into its callers: this is asked of each page by each node.
fn name_passes(h: &[u8], i: u16, test: NameTest, x: &[u8], rank: Rank) -> bool
    ensures { result ≡ name_passes_at h.now x.now rank test i }
{
    match test {
        NameTest::Namespace => same_bytes(namespace_at(h, i), x),
        NameTest::Article(c) => {
            let n = identifier_number(h, i);
            if n < rank.plain {
                stands_as(c, order_by(rank, n))
            } else {
                stands_as(c, compare(name_at(h, n), x))
            }
        }
    }
}

// The pages whose namespace or article name stands to x as a test asks.
pub fn pages_named(h: &[u8], test: NameTest, x: &[u8]) -> PageSet
    ensures { (places : List ℕ) (R : Register) → Opened h.now places R → marks_from result.words ≡ marks_in R (name_passes x.now test) }
{
    let rank = rank_of(h, x, page_count(h));
    pages_passing(h, |i| name_passes(h, i, test, x, rank))
}
