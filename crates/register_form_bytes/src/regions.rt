// The rows of a region, one behind the other from a place on.
ghost use Rattle.std.specs.Prelude.{◌≡◌};
ghost use mathlib.Core.List.{flat_map};
ghost use Rattle.dictionary.specs.Items.{listed_in};
ghost use Rattle.buffer.specs.Numbers.{starts_from};
ghost use Rattle.register_form.specs.Form.{property_bytes, number_bytes, joined};
ghost use Rattle.buffer.specs.Writing.{written};
ghost use Rattle.register_form_bytes.specs.Writing.{picked, first_of, rows_of};

use crate::put_property;
use buffer::{put_bytes, put_two};
use dictionary::Listing;
use tables::get_or;

// The first n properties.
pub fn put_properties(h: &mut [u8], at: u16, kinds: &[u8], numbers: &[u16], names: &[u16], n: u16)
    ensures { h.new ≡ written h.old at (flat_map property_bytes (rows_of kinds.now numbers.now names.now n)) }
{
    let base = usize::from(at);
    for p in 0..n {
        let k = usize::from(p);
        put_property(
            h,
            base + 3 * k,
            get_or(kinds, k, 0),
            get_or(numbers, usize::from(get_or(names, k, 0)), 0),
        );
    }
}

// The first n numbers of a table, each where there is room.
fn put_each(h: &mut [u8], at: u16, table: &[u16], n: u16)
    ensures { h.new ≡ written h.old at (number_bytes (first_of table.now n)) }
{
    let base = usize::from(at);
    for i in 0..n {
        let k = usize::from(i);
        put_two(h, base + 2 * k, usize::from(get_or(table, k, 0)));
    }
}

// The same. Where there is room for all, that is asked once, and a compiler takes many at a time.
pub fn put_numbers(h: &mut [u8], at: u16, table: &[u16], n: u16)
    ensures { h.new ≡ written h.old at (number_bytes (first_of table.now n)) }
{
    let base = usize::from(at);
    let most = usize::from(n);
    if table.len() < most {
        put_each(h, at, table, n);
        return;
    }
    if h.len() < base + 2 * most {
        put_each(h, at, table, n);
        return;
    }
    for i in 0..most {
        let x = table[i];
        h[base + 2 * i] = (x % 256) as u8;
        h[base + 2 * i + 1] = (x / 256 % 256) as u8;
    }
}

// The numbers of a table that the first n of picks name. It differs from `put_each` in the number that is read: a closure for that would
// stand in both clauses.
pub fn put_picked(h: &mut [u8], at: u16, table: &[u16], picks: &[u16], n: u16)
    ensures { h.new ≡ written h.old at (number_bytes (picked table.now picks.now n)) }
{
    let base = usize::from(at);
    for i in 0..n {
        let k = usize::from(i);
        put_two(
            h,
            base + 2 * k,
            usize::from(get_or(table, usize::from(get_or(picks, k, 0)), 0)),
        );
    }
}

// The texts of a list.
pub fn put_texts(h: &mut [u8], at: u16, list: Listing)
    ensures { h.new ≡ written h.old at (joined (listed_in list.entry)) }
{
    let mut to = usize::from(at);
    for i in 0..list.count {
        if h.len() <= to {
            return;
        }
        let t = list.texts.at(get_or(list.refs, usize::from(i), 0));
        put_bytes(h, to, t);
        to += t.len();
    }
}

// Where the texts of a list begin when they stand one behind the other, and where the last ends.
pub fn put_starts(h: &mut [u8], at: u16, list: Listing)
    ensures { h.new ≡ written h.old at (number_bytes (starts_from 0 (listed_in list.entry))) }
{
    let base = usize::from(at);
    let mut sum: usize = 0;
    for i in 0..list.count {
        let k = usize::from(i);
        put_two(h, base + 2 * k, sum);
        sum += usize::from(list.texts.length(get_or(list.refs, k, 0)));
    }
    put_two(h, base + 2 * usize::from(list.count), sum);
}
