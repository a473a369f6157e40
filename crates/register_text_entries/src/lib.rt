// The register text: its entries one after the other, and the table that holds them.
#![tactic(auto)]

ghost use Rattle.register_text_entries.specs.Table.{Filled};

pub mod composing; // composing.rt: entries with their names composed
pub mod forms; // forms.rt: one entry at a place of the text
pub mod table; // table.rt: entries as rows of numbers

use forms::next_entry;
use table::put_item;
use text::Span;
use values::Kind;

// What an entry is.
#[derive(Clone, Copy, Debug, PartialEq, Eq)]
pub enum Tag {
    Prop,
    Page,
    Cat,
    Val,
    Close,
}

// An entry: what it is, where its one or two texts lie, whether the place behind it is inside a page form, and that place.
#[derive(Clone, Copy)]
pub struct Item {
    pub tag: Tag,
    pub kind: Kind,
    pub first: Span,
    pub second: Span,
    pub inner: bool,
    pub next: usize,
}

// Reads the whole text into the rows of a table: how many entries it has, or none where it is not lines of the two forms.
pub fn read_all(s: &[u8], t: &mut [u16]) -> Option<usize>
    ensures { Filled s.now t.old t.new result }
{
    let mut at: usize = 0; // an entry tells where the next begins, so that no range serves
    let mut n: usize = 0;
    let mut inner = false;
    while inner | (at < s.len()) {
        let item = next_entry(s, at, inner)?;
        put_item(t, n, item);
        n += 1;
        at = item.next;
        inner = item.inner;
    }
    Some(n)
}
