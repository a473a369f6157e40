// The texts of two held registers as one ascending list, each text once, and the item that each number of a text has in it.
#![tactic(auto)]

ghost use Rattle.std.specs.Prelude.{◌≡◌};
ghost use Rattle.register_form.specs.Form.{text_at};
ghost use Rattle.register_join_merge.specs.Merging.{next_order, takes_first, takes_second, next_text, Pasted, Added, Noted, SameSlices, Merger};

use dictionary::Texts;
use register_form::{text_at, text_count};
use std::cmp::Ordering;
use tables::{narrow, narrow_start, next, put};
use text::compare;

// How the next texts stand to one another; a register with no text left stands behind.
fn compare_next(h: &[u8], g: &[u8], i: u16, j: u16) -> Ordering
    ensures { result ≡ next_order h.now g.now i j }
{
    if text_count(g) <= j {
        return Ordering::Less;
    }
    if text_count(h) <= i {
        return Ordering::Greater;
    }
    compare(text_at(h, i), text_at(g, j))
}

// Whether the next text is one of the first register, and of the second; one text is of both.
fn takes_first(o: Ordering) -> bool
    ensures { result ≡ takes_first o }
{
    o.is_le()
}

fn takes_second(o: Ordering) -> bool
    ensures { result ≡ takes_second o }
{
    o.is_ge()
}

// The text that is less.
fn next_text<'a>(h: &'a [u8], g: &'a [u8], i: u16, j: u16, o: Ordering) -> &'a [u8]
    ensures { result.now ≡ next_text o (text_at h.now i) (text_at g.now j) }
{
    match o {
        Ordering::Less | Ordering::Equal => text_at(h, i),
        Ordering::Greater => text_at(g, j),
    }
}

// Writes t at a place where there is room for it; answers where it ends.
fn put_text(heap: &mut [u8], at: usize, t: &[u8]) -> usize
    ensures { Pasted heap.old at t.now heap.new result }
{
    if heap.len() < at {
        return at;
    }
    if heap.len() - at < t.len() {
        return at;
    }
    let end = at + t.len();
    heap[at..end].copy_from_slice(t);
    end
}

// The texts of two registers as items, one behind the other in a heap.
#[derive(Drop)]
pub struct Heap<'a> {
    pub bytes: &'a mut [u8],
    pub starts: &'a mut [u32],
    pub lens: &'a mut [u16],
}

impl<'a> Heap<'a> {
    // Puts text t behind those before it, as item k; answers where it ends.
    fn add(&mut self, k: u16, end: usize, t: &[u8]) -> usize
        ensures added { Added self.old.bytes.now self.old.starts.now self.old.lens.now k end t.now self.new.bytes.now self.new.starts.now self.new.lens.now result }
        ensures same_slices { SameSlices self.old self.new }
    {
        put(self.starts, usize::from(k), narrow_start(end));
        put(self.lens, usize::from(k), narrow(t.len()));
        put_text(self.bytes, end, t)
    }

    // The texts as those of a dictionary.
    pub fn texts(&self) -> Texts<'_>
        ensures bytes { result.bytes.now ≡ self.now.bytes.now }
        ensures starts { result.starts.now ≡ self.now.starts.now }
        ensures lens { result.lens.now ≡ self.now.lens.now }
    {
        Texts {
            bytes: self.bytes,
            starts: self.starts,
            lens: self.lens,
        }
    }
}

// Notes item k for the number i where that is taken; answers the next number.
fn note(items: &mut [u16], i: u16, k: u16, taken: bool) -> u16
    ensures { Noted items.old i k taken items.new result }
{
    if taken {
        put(items, usize::from(i), k);
        return next(i);
    }
    i
}

// Merges the texts; answers how many there are. Neither number is that of a range: each register is gone through at its own pace.
pub fn merge<'a>(
    h: &'a [u8],
    g: &'a [u8],
    heap: &mut Heap,
    items1: &mut [u16],
    items2: &mut [u16],
) -> u16
    ensures merged { Merger h.now g.now heap.old.bytes.now heap.old.starts.now heap.old.lens.now items1.old items2.old heap.new.bytes.now heap.new.starts.now heap.new.lens.now items1.new items2.new result }
    ensures same_slices { SameSlices heap.old heap.new }
{
    let n = text_count(h);
    let m = text_count(g);
    let mut i: u16 = 0;
    let mut j: u16 = 0;
    let mut k: u16 = 0;
    let mut end: usize = 0;
    while (i < n) | (j < m) {
        let order = compare_next(h, g, i, j);
        end = heap.add(k, end, next_text(h, g, i, j, order));
        i = note(items1, i, k, takes_first(order));
        j = note(items2, j, k, takes_second(order));
        k = next(k);
    }
    k
}
