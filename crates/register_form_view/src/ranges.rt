// The terms of a category and of a property: they stand one behind the other, and are found by halving.
ghost use Rattle.std.specs.Prelude.{◌≡◌, List, [], ◌∷◌, ℕ, length};
ghost use Rattle.text.specs.Bytes.{order_of};
ghost use Rattle.language.specs.Register.{Register};
ghost use Rattle.language.specs.Semantics.{some_other};
ghost use Rattle.register_form.specs.Dictionary.{term_of};
ghost use Rattle.register_form.specs.Encoding.{plain_text};
ghost use Rattle.register_form.specs.Opened.{Opened};
ghost use Rattle.register_form_view.specs.declared.Index.TheVariants.{Terms as TermIndex};
ghost use Rattle.register_form_view.specs.Ranges.{entries_in, entry_at, key_of, Ranked, Located, CategoryRange, PropertyRange};

use crate::{Index, TermRange, property_place};
use register_form::{kind_at, property_count, term_at, term_count, text_at, text_count};
use std::cmp::Ordering;
use tables::get_or;
use text::{compare, part};
use values::Kind;

// How a text stands to that of a name with no namespace.
fn compare_plain(t: &[u8], x: &[u8]) -> Ordering
    ensures { result ≡ order_of t.now (plain_text x.now) }
{
    if t.is_empty() {
        return Ordering::Less;
    }
    if 0 < get_or(t, 0, 0) {
        return Ordering::Greater;
    }
    compare(part(t, 1, t.len()), x)
}

// How entry m of a list stands to a key: the text of a name, a text, or a term.
pub fn compare_entry(h: &[u8], index: Index, m: u16, key: &[u8]) -> Ordering
    ensures { result ≡ order_of (entry_at h.now index m) (key_of index key.now) }
{
    match index {
        Index::Names => compare_plain(text_at(h, m), key),
        Index::Texts => compare(text_at(h, m), key),
        Index::Terms => compare(term_at(h, m), key),
    }
}

// How many entries a list has.
pub fn entry_count(h: &[u8], index: Index) -> u16
    ensures { result ≡ length (entries_in h.now index) }
{
    match index {
        Index::Names => text_count(h),
        Index::Texts => text_count(h),
        Index::Terms => term_count(h),
    }
}

// How many entries of a list, which ascend, are less than a key: halving. There is no slice to search: the entries are
// read out of the form.
pub fn find(h: &[u8], index: Index, key: &[u8]) -> u16
    ensures { Ranked h.now index key.now result }
{
    let mut lo: u16 = 0;
    let mut hi = entry_count(h, index);
    while lo < hi {
        let m = lo + (hi - lo) / 2;
        if compare_entry(h, index, m, key).is_lt() {
            lo = m + 1;
        } else {
            hi = m;
        }
    }
    lo
}

// The number of a key in a list, which ascends.
pub fn binary_search(h: &[u8], index: Index, key: &[u8]) -> Option<u16>
    ensures { Located h.now index key.now result }
{
    let m = find(h, index, key);
    if entry_count(h, index) <= m {
        return None;
    }
    compare_entry(h, index, m, key).is_eq().then_some(m)
}

// No terms.
pub fn no_terms() -> TermRange
    ensures { (result.low ≡ 0) × (result.high ≡ 0) }
{
    TermRange {
        low: 0,
        high: 0,
        kind: Kind::Page,
    }
}

// The number of the term of the category whose name is text k.
fn category_term(h: &[u8], k: u16) -> Option<u16>
    ensures { Located h.now TermIndex (term_of 0 k) result }
{
    let mut key = [0u8; 9];
    key[1] = (k % 256) as u8;
    key[2] = (k / 256) as u8;
    binary_search(h, Index::Terms, &key)
}

// The term of the category x.
pub fn category_range(h: &[u8], x: &[u8]) -> TermRange
    ensures { (places : List ℕ) (R : Register) → Opened h.now places R → CategoryRange R x.now result }
{
    let Some(k) = binary_search(h, Index::Names, x) else {
        return no_terms();
    };
    let Some(f) = category_term(h, k) else {
        return no_terms();
    };
    TermRange {
        low: f,
        high: f + 1,
        kind: Kind::Page,
    }
}

// How many terms are of a lower group.
fn terms_below(h: &[u8], group: u8) -> u16
    ensures { Ranked h.now TermIndex (group ∷ []) result }
{
    let key = [group; 1];
    find(h, Index::Terms, &key)
}

// The terms of the values under the property x.
pub fn property_range(h: &[u8], x: &[u8]) -> TermRange
    ensures { (places : List ℕ) (R : Register) → Opened h.now places R → PropertyRange R x.now result }
{
    let p = property_place(h, x);
    if property_count(h) <= p {
        return no_terms();
    }
    if 254 <= p {
        return no_terms();
    }
    TermRange {
        low: terms_below(h, (p + 1) as u8),
        high: terms_below(h, (p + 2) as u8),
        kind: kind_at(h, p),
    }
}

// Whether some page holds, under x, a value of another kind than the given one.
pub fn other_kind(h: &[u8], x: &[u8], kind: Kind) -> bool
    ensures { (places : List ℕ) (R : Register) → Opened h.now places R → result ≡ some_other R x.now kind }
{
    let range = property_range(h, x);
    (range.kind != kind) & (range.low < range.high)
}
