// The bytes of names and values, up to 32,769.
ghost use Rattle.std.specs.Prelude.{◌≡◌, ◌&&◌, ltb, length, ◌+◌, ◌%◌, min};
ghost use Rattle.language.specs.Rules.{total};
ghost use Rattle.register_form_bytes.specs.Writing.{first_of};
ghost use Rattle.register_form_assembly.specs.Counting.{capped, SizesAdded};
ghost use Rattle.register_form_assembly.specs.Drafts.{text_sizes, link_sizes, value_sizes, form_sizes, term_sizes};
ghost use Rattle.register_form_assembly.specs.Terms.{Filling};

use crate::{Draft, Order};
use dictionary::Texts;
use register_form::layout;
use tables::{get_or, put};
use values::{Kind, kind_from, scalar_length};

// The most bytes that a register may have, and what stands for more.
pub const MOST_COUNTED: u16 = 32768;

const UNCOUNTED: u16 = 32769;

// A sum, up to 32,769.
fn add_capped(a: u16, x: usize) -> u16
    ensures { result ≡ min (a + x) 32769 }
{
    if layout::MOST_BYTES < x {
        return UNCOUNTED;
    }
    let sum = usize::from(a) + x;
    if layout::MOST_BYTES < sum {
        UNCOUNTED
    } else {
        sum as u16
    }
}

fn low(c: u64) -> u16
    ensures { result ≡ c % 65536 }
{
    (c % 65536) as u16
}

// The bytes of an item's text, and of a link to it.
fn text_bytes(texts: Texts, i: u16) -> usize
    ensures { result ≡ text_sizes texts.entry i }
{
    usize::from(texts.length(i).saturating_sub(1))
}

fn link_bytes(texts: Texts, i: u16) -> usize
    ensures { result ≡ link_sizes texts.entry i }
{
    let bytes = usize::from(texts.length(i).saturating_sub(1));
    if get_or(texts.at(i), 0, 0) == 0 {
        bytes
    } else {
        bytes + 1
    }
}

fn value_bytes(texts: Texts, kind: Kind, c: u64) -> usize
    ensures { result ≡ value_sizes texts.entry kind c }
{
    match kind {
        Kind::Page => link_bytes(texts, low(c)),
        Kind::Scalar(k) => scalar_length(k, c),
        Kind::String => text_bytes(texts, low(c)),
    }
}

// The bytes of a form.
fn form_bytes(draft: &Draft, group: u8, c: u64) -> usize
    ensures { result ≡ form_sizes draft.now group c }
{
    if group == 0 {
        return text_bytes(draft.texts, low(c));
    }
    value_bytes(
        draft.texts,
        kind_from(get_or(draft.kinds, usize::from(group - 1), 0)),
        c,
    )
}

// The bytes of the texts of the first n items, behind others.
pub fn count_texts(texts: Texts, items: &[u16], n: u16, before: u16) -> u16
    ensures { result ≡ min (before + total (text_sizes texts.entry) (first_of items.now n)) 32769 }
{
    let mut sum = add_capped(before, 0);
    for i in 0..n {
        sum = add_capped(sum, text_bytes(texts, get_or(items, usize::from(i), 0)));
    }
    sum
}

// The bytes of term t, by the form that stands for it.
fn term_bytes(draft: &Draft, refs: &[u16], t: u16) -> usize
    ensures { result ≡ term_sizes draft.now refs.now t }
{
    let f = usize::from(get_or(refs, usize::from(t), 0));
    form_bytes(draft, get_or(draft.groups, f, 0), get_or(draft.codes, f, 0))
}

// Writes those of the first n terms, up to 32,769.
fn put_sizes(draft: &Draft, refs: &[u16], n: u16, sizes: &mut [u16])
    ensures { Filling (capped (term_sizes draft.now refs.now)) sizes.old n sizes.new }
{
    for t in 0..n {
        put(
            sizes,
            usize::from(t),
            add_capped(0, term_bytes(draft, refs, t)),
        );
    }
}

// Whether the table of the sizes of the first so many terms has that of term t.
fn has_size(sizes: &[u16], most: u16, t: u16) -> bool
    ensures { result ≡ (ltb t most && ltb t (length sizes.now)) }
{
    (t < most) & (usize::from(t) < sizes.len())
}

// Adds the sizes of the first n terms of a table, behind others, where none is missing.
fn add_sizes(sizes: &[u16], most: u16, table: &[u16], n: u16, before: u16) -> Option<usize>
    ensures { SizesAdded sizes.now most table.now n before result }
{
    let mut sum = usize::from(before);
    let mut all = true;
    for i in 0..n {
        let t = get_or(table, usize::from(i), 0);
        all = all & has_size(sizes, most, t);
        sum += usize::from(get_or(sizes, usize::from(t), 0));
    }
    if all { Some(sum) } else { None }
}

// The bytes of the first n terms of a table, behind others.
fn count_each(draft: &Draft, refs: &[u16], table: &[u16], n: u16, before: u16) -> u16
    ensures { result ≡ min (before + total (term_sizes draft.now refs.now) (first_of table.now n)) 32769 }
{
    let mut sum = add_capped(before, 0);
    for i in 0..n {
        let t = get_or(table, usize::from(i), 0);
        sum = add_capped(sum, term_bytes(draft, refs, t));
    }
    sum
}

// The same, of terms in order: by a table of their sizes, where that has all.
pub fn count_terms(draft: &Draft, terms: Order, table: &[u16], n: u16, before: u16) -> u16
    ensures { result ≡ min (before + total (term_sizes draft.now terms.entry.refs.now) (first_of table.now n)) 32769 }
{
    let mut sizes = [0u16; layout::FORM_ROOM];
    put_sizes(draft, terms.refs, terms.count, &mut sizes);
    match add_sizes(&sizes, terms.count, table, n, before) {
        Some(sum) => add_capped(0, sum),
        None => count_each(draft, terms.refs, table, n, before),
    }
}
