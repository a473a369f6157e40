// What is asked of a term, and of the terms of a page.
ghost use Rattle.std.specs.Prelude.{ℕ, ◌≡◌, Bool, false, ◌&&◌, get_or};
ghost use Rattle.text.specs.Bytes.{any};
ghost use Rattle.text.specs.Table.{tabulate};
ghost use Rattle.pageset.specs.Marks.{marks_from};
ghost use Rattle.text.specs.Parts.{part_of};
ghost use Rattle.language.specs.References.{stands_as};
ghost use Rattle.register_form_view.specs.Ranges.{name_order, within};
ghost use Rattle.values.specs.Answers.{split_of};
ghost use Rattle.register_form.specs.Dictionary.{space_of};
ghost use Rattle.register_form.specs.Form.{text_at};
ghost use Rattle.register_form_view.specs.View.{text_number, stands_at, namespace_fits, meant_at, passes_at, marked, leads_into, form_bytes, numbers_in, Tells};

use crate::ranks::{compare_name, order_by};
use crate::{Rank, TermRange, TermSet, ValueTest, stands_as, stands_as_typed};
use buffer::two_at;
use language::{Comparator, SurfaceComparator, in_any_namespace, is_equal};
use pageset::mark_at;
use query_core::Constant;
use register_form::{code_at, layout, space_at, term_at};
use tables::get_or;
use text::{Span, part, same_bytes};
use values::{Kind, Split};

// The number of the text that term f names.
fn text_number(h: &[u8], f: u16) -> u16
    ensures { result ≡ text_number h.now f }
{
    two_at(term_at(h, f), 1)
}

// Whether the value of term f, of a kind, stands to a constant; the constant's string lies in q and has a rank. Two kinds never do.
fn value_stands(h: &[u8], f: u16, k: Kind, c: Comparator, w: Constant, q: &[u8], rank: Rank) -> bool
    ensures { result ≡ stands_at h.now q.now rank c w k f }
{
    match k {
        Kind::Page => false,
        Kind::Scalar(j) => match w {
            Constant::Scalar(l, b) => (j == l) & stands_as(c, code_at(h, f).cmp(&b)),
            Constant::String(_) => false,
        },
        Kind::String => match w {
            Constant::Scalar(_, _) => false,
            Constant::String(p) => {
                let n = text_number(h, f);
                if n < rank.plain {
                    stands_as(c, order_by(rank, n))
                } else {
                    stands_as(c, compare_name(h, n, part(q, p.start, p.len)))
                }
            }
        },
    }
}

// Whether text n has the namespace that a reference asks for, if it asks for one.
fn has_namespace(h: &[u8], n: u16, c: SurfaceComparator, split: Split, q: &[u8]) -> bool
    ensures { result ≡ namespace_fits c (split_of q.now split) (space_of (text_at h.now n)) }
{
    let space = space_at(h, n);
    match split.namespace {
        Some(p) => in_any_namespace(c) | same_bytes(space, part(q, p.start, p.len)),
        None => !is_equal(c) | space.is_empty(),
    }
}

// Whether the name of text n stands to that of a reference, which has a rank.
fn article_stands(h: &[u8], n: u16, c: SurfaceComparator, p: Span, q: &[u8], rank: Rank) -> bool
    ensures { result ≡ stands_as c (name_order h.now (part_of q.now p) rank n) }
{
    if n < rank.plain {
        stands_as_typed(c, order_by(rank, n))
    } else {
        stands_as_typed(c, compare_name(h, n, part(q, p.start, p.len)))
    }
}

// Whether the value of term f, of a kind, is a link that a reference means; its names lie in q, the article's has a rank.
fn link_meant(
    h: &[u8],
    f: u16,
    k: Kind,
    c: SurfaceComparator,
    split: Split,
    q: &[u8],
    rank: Rank,
) -> bool
    ensures { result ≡ meant_at h.now q.now rank c split k f }
{
    match k {
        Kind::Page => {
            let n = text_number(h, f);
            if article_stands(h, n, c, split.article, q, rank) {
                has_namespace(h, n, c, split, q)
            } else {
                false
            }
        }
        Kind::Scalar(_) => false,
        Kind::String => false,
    }
}

// Whether the value of term f, of a kind, passes a test, which has a rank.
pub fn value_passes(h: &[u8], f: u16, k: Kind, test: ValueTest, q: &[u8], rank: Rank) -> bool
    ensures { result ≡ passes_at h.now q.now rank test k f }
{
    match test {
        ValueTest::Constant(c, w) => value_stands(h, f, k, c, w, q, rank),
        ValueTest::Reference(c, split) => link_meant(h, f, k, c, split, q, rank),
    }
}

// The mark of a place that is one more than a page's; 0 is that of no page.
fn marked_at(words: &[u64], place: usize) -> bool
    ensures { result ≡ marked (marks_from words.now) place }
{
    if place == 0 {
        return false;
    }
    mark_at(words, place - 1)
}

// Whether the value of term f, of a kind, leads to a page of a set.
pub fn leads_into(h: &[u8], places: &[u16], f: u16, k: Kind, words: &[u64]) -> bool
    ensures { result ≡ leads_into h.now places.now (marks_from words.now) k f }
{
    match k {
        Kind::Page => marked_at(
            words,
            usize::from(get_or(places, usize::from(text_number(h, f)), 0)),
        ),
        Kind::Scalar(_) => false,
        Kind::String => false,
    }
}

// The bytes of the forms from one place among all forms up to another.
pub fn forms_between(h: &[u8], start: u16, end: u16) -> &[u8]
    ensures { result.now ≡ form_bytes h.now start end }
{
    part(
        h,
        usize::from(layout::FORMS) + 2 * usize::from(start),
        2 * usize::from(end.saturating_sub(start)),
    )
}

// Whether term f is of a range.
pub fn is_within(range: TermRange, f: u16) -> bool
    ensures { result ≡ within range f }
{
    (range.low <= f) & (f < range.high)
}

// Which terms are of a range and pass a test: each is tested once.
pub fn terms_where<F: Fn(u16) -> bool>(range: TermRange, test: F) -> TermSet
    requires { F.IsAlwaysCallable test }
    ensures { (p : ℕ → Bool) → Tells (F.post test) p → result.marks ≡ tabulate 2048 (λ f. within range f && p f) }
{
    let mut marks = [false; layout::FORM_ROOM];
    for f in range.low..range.high.min(layout::MOST_FORMS) {
        marks[usize::from(f)] = test(f);
    }
    TermSet { marks }
}

// Which terms are of a range and pass a test of their values.
pub fn terms_passing(h: &[u8], range: TermRange, test: ValueTest, q: &[u8], rank: Rank) -> TermSet
    ensures { result.marks ≡ tabulate 2048 (λ f. within range f && passes_at h.now q.now rank test range.kind f) }
{
    terms_where(range, |f| value_passes(h, f, range.kind, test, q, rank))
}

// Which terms are of a range and lead to a page of a set.
pub fn terms_leading(h: &[u8], places: &[u16], range: TermRange, words: &[u64]) -> TermSet
    ensures { result.marks ≡ tabulate 2048 (λ f. within range f && leads_into h.now places.now (marks_from words.now) range.kind f) }
{
    terms_where(range, |f| leads_into(h, places, f, range.kind, words))
}

// Whether one of the terms whose numbers stand in the bytes passes a test. All are looked at: leaving at the first gains nothing.
pub fn some_form<F: Fn(u16) -> bool>(forms: &[u8], test: &F) -> bool
    requires { F.IsAlwaysCallable test.now }
    ensures { (p : ℕ → Bool) → Tells (F.post test.now) p → result ≡ any p (numbers_in forms.now) }
{
    let mut some = false;
    for k in 0..forms.len() / 2 {
        some = some | test(two_at(forms, 2 * k));
    }
    some
}

// Whether one of them is of a range.
pub fn some_within(forms: &[u8], range: TermRange) -> bool
    ensures { result ≡ any (within range) (numbers_in forms.now) }
{
    some_form(forms, &|f| is_within(range, f))
}

// Whether one of them is marked.
pub fn some_marked(forms: &[u8], wanted: &[bool]) -> bool
    ensures { result ≡ any (λ f. get_or wanted.now f false) (numbers_in forms.now) }
{
    some_form(forms, &|f| get_or(wanted, usize::from(f), false))
}
