// Nodes into a held query: each in its 20 bytes, its strings in the heap behind those before it.
ghost use Rattle.std.specs.Prelude.{◌≡◌, [], ◌++◌, ◌+◌, ◌≤◌, length};
ghost use Rattle.buffer.specs.Numbers.{two_bytes, eight_bytes};
ghost use Rattle.buffer.specs.Writing.{written};
ghost use Rattle.query_core.specs.Form.{head_bytes, span_bytes, slot_bytes};
ghost use Rattle.query_core.specs.Writing.{joint, has_room, count_of, Puts, Finishes};

use crate::placing::{connective_slot, slot_of, strings_of};
use crate::{Node, Place, Slot, layout};
use buffer::{put_bytes, put_two};
use text::{Span, part};

// Writes a slot's first three numbers, a byte each, and a byte 0.
fn put_head(h: &mut [u8], at: usize, x: Slot)
    requires { at + 4 ≤ length h.old }
    ensures { h.new ≡ written h.old at (head_bytes x) }
{
    h[at] = x.tag;
    h[at + 1] = x.comparator;
    h[at + 2] = x.kind;
    h[at + 3] = 0;
}

// Writes a number in two bytes.
fn put_pair(h: &mut [u8], at: usize, n: usize)
    requires { at + 2 ≤ length h.old }
    ensures { h.new ≡ written h.old at (two_bytes n) }
{
    h[at] = (n % 256) as u8;
    h[at + 1] = (n / 256 % 256) as u8;
}

// Writes a place, two bytes a number.
fn put_span(h: &mut [u8], at: usize, p: Span)
    requires { at + 4 ≤ length h.old }
    ensures { h.new ≡ written h.old at (span_bytes p) }
{
    put_pair(h, at, p.start);
    put_pair(h, at + 2, p.len);
}

// Writes a number in eight bytes.
fn put_number(h: &mut [u8], at: usize, n: u64)
    requires { at + 8 ≤ length h.old }
    ensures { h.new ≡ written h.old at (eight_bytes n) }
{
    let a = n as usize;
    let b = a / 65536;
    let c = b / 65536;
    let d = c / 65536;
    put_pair(h, at, a);
    put_pair(h, at + 2, b);
    put_pair(h, at + 4, c);
    put_pair(h, at + 6, d);
}

// Writes a slot's 20 bytes. That there is room is tested once a node, so that a compiler writes many bytes at a time.
fn put_slot(h: &mut [u8], at: usize, x: Slot)
    requires { at + 20 ≤ length h.old }
    ensures { h.new ≡ written h.old at (slot_bytes x) }
{
    let first = x.first;
    let second = x.second;
    put_head(h, at, x);
    put_span(h, at + 4, first);
    put_span(h, at + 8, second);
    put_number(h, at + 12, x.number);
}

// Whether strings of so many bytes have room in the heap behind others.
fn has_room(end: usize, first: usize, second: usize, third: usize) -> bool
    ensures { result ≡ has_room end first second third }
{
    if layout::HEAP_BYTES < end {
        return false;
    }
    if layout::HEAP_BYTES - end < first {
        return false;
    }
    if layout::HEAP_BYTES - end - first < second {
        return false;
    }
    third <= layout::HEAP_BYTES - end - first - second
}

// Writes strings into the heap, one behind the other.
fn put_strings(held: &mut [u8], end: usize, first: &[u8], second: &[u8], third: &[u8])
    requires { end + length first.now + length second.now + length third.now ≤ 24672 }
    ensures { held.new ≡ written held.old (5122 + end) (first.now ++ second.now ++ third.now) }
{
    let at = layout::HEAP + end;
    put_bytes(held, at, first);
    put_bytes(held, at + first.len(), second);
    put_bytes(held, at + first.len() + second.len(), third);
}

// How many nodes there are before a place.
pub fn count_of(at: Place) -> usize
    ensures { result ≡ count_of at }
{
    at.code % 512
}

// Lays AND or OR behind others, where there is room for it.
pub fn put_connective(held: &mut [u8], at: Place, or: bool) -> Place
    ensures { Puts [] [] (joint or) held.old at held.new result }
{
    if held.len() < layout::QUERY_BYTES {
        return at;
    }
    let count = at.code % 512;
    if layout::MOST_NODES <= count {
        return Place {
            code: at.code - count + 257,
        };
    }
    let slot = connective_slot(or);
    put_slot(held, layout::NODES + layout::NODE_BYTES * count, slot);
    Place { code: at.code + 1 }
}

// Lays a node behind others, where there is room for it; its name lies in s, what is compared with it in t.
pub fn put_node(s: &[u8], t: &[u8], held: &mut [u8], at: Place, node: Node) -> Place
    ensures { Puts s.now t.now node held.old at held.new result }
{
    if held.len() < layout::QUERY_BYTES {
        return at;
    }
    let count = at.code % 512;
    let end = at.code / 512;
    if layout::MOST_NODES <= count {
        return Place {
            code: at.code - count + 257,
        };
    }
    let strings = strings_of(node);
    let p = strings.first;
    let q = strings.second;
    let r = strings.third;
    let first = part(s, p.start, p.len);
    let second = part(t, q.start, q.len);
    let third = part(t, r.start, r.len);
    let a = first.len();
    let b = second.len();
    let c = third.len();
    if !has_room(end, a, b, c) {
        return Place { code: at.code + 1 };
    }
    let slot = slot_of(
        node,
        Span { start: end, len: a },
        Span {
            start: end + a,
            len: b,
        },
        Span {
            start: end + a + b,
            len: c,
        },
    );
    put_slot(held, layout::NODES + layout::NODE_BYTES * count, slot);
    put_strings(held, end, first, second, third);
    Place {
        code: count + 1 + 512 * (end + a + b + c),
    }
}

// Writes how many nodes there are.
pub fn finish(held: &mut [u8], at: Place)
    ensures { Finishes held.old at held.new }
{
    put_two(held, 0, count_of(at));
}
