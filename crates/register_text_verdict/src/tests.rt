// Tests and counts over all rows.
ghost use Rattle.std.specs.Prelude.{◌≡◌, [], get_or};
ghost use Rattle.language.specs.RegisterText.{same_declared, is_inner};
ghost use Rattle.register_text_entries.specs.Items.{entry_in};
ghost use Rattle.register_text_entries.specs.Table.{entry_at};
ghost use Rattle.register_text_verdict.specs.Rows.{any_to};
ghost use Rattle.register_text_verdict.specs.Checks.{some_fails, twice_in, inner_in, inner_tag};

use super::Check;
use super::checks::{are_alike, row_fails};
use super::declarations::list_names;
use dictionary::{Texts, build};
use register_text_entries::table::item_at;
use register_text_entries::{Item, Tag};
use tables::get_or;

// Up to so many rows are compared in pairs.
const FEW: usize = 12;

// Whether some of the first n rows fails a check.
pub fn some_row(s: &[u8], t: &[u16], n: usize, props: &[u16], m: usize, check: Check) -> bool
    ensures { result ≡ some_fails check s.now t.now n props.now m }
{
    (0..n).any(|i| row_fails(s, t, props, m, i, check))
}

// Whether row a of a list of rows is like an entry.
fn is_like(s: &[u8], t: &[u16], rows: &[u16], a: usize, item: Item) -> bool
    ensures { result ≡ same_declared (entry_at s.now t.now (get_or rows.now a 0)) (entry_in s.now item) }
{
    are_alike(s, item_at(t, usize::from(get_or(rows, a, 0))), item)
}

// Whether row k of a list of rows is like one before it.
pub fn like_before(s: &[u8], t: &[u16], rows: &[u16], k: usize) -> bool
    ensures { result ≡ any_to k (λ a. same_declared (entry_at s.now t.now (get_or rows.now a 0)) (entry_at s.now t.now (get_or rows.now k 0))) }
{
    let this = item_at(t, usize::from(get_or(rows, k, 0)));
    (0..k).any(|a| is_like(s, t, rows, a, this))
}

// Whether two of the first m of a list of rows are alike: each is compared with those before it.
fn twice_by_pairs(s: &[u8], t: &[u16], rows: &[u16], m: usize) -> bool
    ensures { result ≡ twice_in s.now t.now rows.now m }
{
    (0..m).any(|k| like_before(s, t, rows, k))
}

// The same: some are alike where sorting what they declare leaves fewer. Rows that no text gives are compared in pairs.
fn twice_by_sorting(s: &[u8], t: &[u16], rows: &[u16], m: usize) -> bool
    ensures { result ≡ twice_in s.now t.now rows.now m }
{
    let mut starts = [0u32; 2560];
    let mut lens = [0u16; 2560];
    if !list_names(s, t, rows, m, &mut starts, &mut lens) {
        return twice_by_pairs(s, t, rows, m);
    }
    let mut refs = [0u16; 2560];
    let mut reps = [0u16; 2560];
    let texts = Texts {
        bytes: s,
        starts: &starts,
        lens: &lens,
    };
    build(texts, m as u16, &mut refs, &mut reps) < m
}

// The same, of few and of many.
pub fn twice(s: &[u8], t: &[u16], rows: &[u16], m: usize) -> bool
    ensures { result ≡ twice_in s.now t.now rows.now m }
{
    if m <= FEW {
        return twice_by_pairs(s, t, rows, m);
    }
    twice_by_sorting(s, t, rows, m)
}

// Whether an entry is a cat or val form.
pub fn is_inner(tag: Tag) -> bool
    ensures { result ≡ inner_tag tag }
{
    matches!(tag, Tag::Cat | Tag::Val)
}

// Whether row i is one.
fn is_inner_row(t: &[u16], i: usize) -> bool
    ensures { result ≡ is_inner (entry_at [] t.now i) }
{
    is_inner(item_at(t, i).tag)
}

// How many of the first n rows are cat and val forms.
pub fn count_inner(t: &[u16], n: usize) -> usize
    ensures { result ≡ inner_in t.now n }
{
    (0..n).filter(|&i| is_inner_row(t, i)).count()
}
