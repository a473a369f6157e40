// What is asked of a held register: its properties by name, its pages by place, its texts and terms by number.
#![tactic(auto)]

ghost use Rattle.std.specs.Prelude.{◌≡◌};
ghost use Rattle.language.specs.Register.{kinds_of};
ghost use Rattle.language.specs.References.{stands_as};
ghost use Rattle.language.specs.Semantics.{stands};
ghost use Rattle.register_form.specs.Dictionary.{space_of, name_of, text_in};
ghost use Rattle.register_form.specs.Encoding.{place_among};
ghost use Rattle.register_form.specs.Form.{dictionary_in, register_in};
ghost use Rattle.register_form.specs.Opened.{page_in};

pub mod forms; // forms.rt: what is asked of terms
pub mod pages; // pages.rt: the pages that a selector asks for
pub mod ranges; // ranges.rt: the terms of a category and of a property
pub mod ranks; // ranks.rt: names compared by the numbers of their texts

use language::{Comparator, SurfaceComparator};
pub use pages::{
    pages_in_category, pages_named, pages_with_link, pages_with_property, pages_with_value,
};
use query_core::Constant;
pub use ranges::{binary_search, category_range, find, no_terms, other_kind, property_range};
use register_form::{
    identifier_number, kind_at, name_at, name_number, page_count, property_count, space_at,
    text_count,
};
use std::cmp::Ordering;
use text::{part, same_bytes};
use values::{Kind, Split};

// The two lists of a dictionary that are in ascending order; texts by a name with no namespace, or by a text.
// An enum and no closure, as the two tests below: the definitions match on it, so that a clause is one equation.
#[derive(Clone, Copy)]
pub enum Index {
    Names,
    Texts,
    Terms,
}

// The terms from low to high, without the last: those of a category, or those of a property, with its kind.
#[derive(Clone, Copy)]
pub struct TermRange {
    pub low: u16,
    pub high: u16,
    pub kind: Kind,
}

// Where a name belongs among the texts: the first ones, so many as it says, have no namespace, and the name of text n stands to
// the given one as 1 + 2 n stands to the key.
#[derive(Clone, Copy)]
pub struct Rank {
    pub plain: u16,
    pub key: u64,
}

// A set of terms: the mark at a term's number says whether it is in.
#[derive(Clone, Copy)]
pub struct TermSet {
    pub marks: [bool; 2048],
}

// What is asked of a page's identifier: that it has a namespace, or an article name that stands to another as a comparator says.
#[derive(Clone, Copy)]
pub enum NameTest {
    Namespace,
    Article(Comparator),
}

// What is asked of a value: that it stands to a constant, or that it is a link that a reference means. Their strings lie in a query.
#[derive(Clone, Copy)]
pub enum ValueTest {
    Constant(Comparator, Constant),
    Reference(SurfaceComparator, Split),
}

// Whether an order is what a comparator asks for.
pub fn stands_as(c: Comparator, o: Ordering) -> bool
    ensures { result ≡ stands c o }
{
    match c {
        Comparator::Equal => o.is_eq(),
        Comparator::Unequal => o.is_ne(),
        Comparator::Greater => o.is_gt(),
        Comparator::Less => o.is_lt(),
    }
}

// The same of a comparator as it is typed.
pub fn stands_as_typed(c: SurfaceComparator, o: Ordering) -> bool
    ensures { result ≡ stands_as c o }
{
    match c {
        SurfaceComparator::Equal => o.is_eq(),
        SurfaceComparator::Unequal => o.is_ne(),
        SurfaceComparator::Greater => o.is_gt(),
        SurfaceComparator::Less => o.is_lt(),
        SurfaceComparator::AtLeast => o.is_ge(),
        SurfaceComparator::AtMost => o.is_le(),
    }
}

// The namespace and the name of text x; past the last text there are none.
fn space_in(h: &[u8], x: u16) -> &[u8]
    ensures { result.now ≡ space_of (text_in (dictionary_in h.now) x) }
{
    if x < text_count(h) {
        return space_at(h, x);
    }
    part(h, 0, 0)
}

fn name_in(h: &[u8], x: u16) -> &[u8]
    ensures { result.now ≡ name_of (text_in (dictionary_in h.now) x) }
{
    if x < text_count(h) {
        return name_at(h, x);
    }
    part(h, 0, 0)
}

// The place of the property x, the number of properties where there is none.
pub fn property_place(h: &[u8], x: &[u8]) -> u16
    ensures { result ≡ place_among (register_in h.now).properties x.now }
{
    let n = property_count(h);
    for p in 0..n {
        if same_bytes(name_in(h, name_number(h, p)), x) {
            return p;
        }
    }
    n
}

// The kind that the property x is declared with.
pub fn kind_of(h: &[u8], x: &[u8]) -> Option<Kind>
    ensures { result ≡ kinds_of (register_in h.now) x.now }
{
    let p = property_place(h, x);
    if p < property_count(h) {
        return Some(kind_at(h, p));
    }
    None
}

// The namespace and the article name of the page in place i; past the last page there are none.
pub fn namespace_at(h: &[u8], i: u16) -> &[u8]
    ensures { result.now ≡ (page_in (register_in h.now) i).identifier.namespace }
{
    if i < page_count(h) {
        return space_in(h, identifier_number(h, i));
    }
    part(h, 0, 0)
}

pub fn article_at(h: &[u8], i: u16) -> &[u8]
    ensures { result.now ≡ (page_in (register_in h.now) i).identifier.article }
{
    if i < page_count(h) {
        return name_in(h, identifier_number(h, i));
    }
    part(h, 0, 0)
}
