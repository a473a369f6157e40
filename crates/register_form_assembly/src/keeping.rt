// The forms that each page keeps: categories first, then values, each once, in the order in which they came.
ghost use Rattle.std.specs.Prelude.{◌≡◌, ◌+◌, min};
ghost use Rattle.register_form_assembly.specs.Keeping.{of_pass, Kept, PassKept, PagesKept, Fresh, Within};

use crate::Draft;
use register_form::layout;
use tables::{get_or, put};

// One more, up to 2,049.
fn bump(n: u16) -> u16
    ensures { result ≡ min (n + 1) 2049 }
{
    if n < 2049 { n + 1 } else { 2049 }
}

// Whether the first pass, or the second, keeps a form of the group.
fn is_wanted(first: bool, group: u8) -> bool
    ensures { result ≡ of_pass first group }
{
    if first { group == 0 } else { group != 0 }
}

// Lists x, where it is wanted and not yet the page's.
fn keep(page: u16, x: u16, wanted: bool, used: &mut [u16], table: &mut [u16], n: u16) -> u16
    ensures { Kept page x wanted used.old table.old n used.new table.new result }
{
    if !wanted {
        return n;
    }
    let k = usize::from(x);
    if get_or(used, k, 0) == page {
        return n;
    }
    put(used, k, page);
    put(table, usize::from(n), x);
    bump(n)
}

// One pass over the forms of a page, those of its uses from one up to another. Two tables are written and two are read at once, so that
// a struct of these would be made for this call alone. Inlined, so that each pass is compiled with its own test of the group.
#[inline(always)]
fn keep_pass(
    draft: &Draft,
    numbers: &[u16],
    page: u16,
    first: bool,
    from: u16,
    to: u16,
    used: &mut [u16],
    table: &mut [u16],
    n: u16,
) -> u16
    ensures { PassKept page first draft.now.groups.now numbers.now draft.now.uses.now from to used.old table.old n used.new table.new result }
{
    let mut count = n;
    for f in from..to {
        let x = usize::from(get_or(draft.uses, usize::from(f), 0));
        let wanted = is_wanted(first, get_or(draft.groups, x, 0));
        count = keep(page, get_or(numbers, x, 0), wanted, used, table, count);
    }
    count
}

// The forms of the pages, in one table, and where each page's begin.
pub fn keep_forms(draft: &Draft, numbers: &[u16], table: &mut [u16], starts: &mut [u16]) -> u16
    ensures { Fresh draft.now.page_count table.old starts.old → Within numbers.now draft.now.uses.now draft.now.firsts.now draft.now.page_count 4096 → PagesKept draft.now.groups.now numbers.now draft.now.uses.now draft.now.firsts.now draft.now.page_count table.new starts.new result }
{
    let mut used = [0u16; layout::DRAFT_FORMS];
    let mut count: u16 = 0;
    for page in 0..draft.page_count {
        let behind = page + 1;
        let from = get_or(draft.firsts, usize::from(page), 0);
        let to = get_or(draft.firsts, usize::from(behind), 0);
        let some = keep_pass(
            draft, numbers, behind, true, from, to, &mut used, table, count,
        );
        count = keep_pass(
            draft, numbers, behind, false, from, to, &mut used, table, some,
        );
        put(starts, usize::from(behind), count);
    }
    count
}
