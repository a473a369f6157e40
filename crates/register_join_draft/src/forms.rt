// The terms of a register in the draft of a join, with the items of their texts, and the forms of a page.
ghost use Rattle.std.specs.Prelude.{◌≡◌, [], ◌∷◌, true, ◌+◌, ◌-◌, ◌*◌, ◌%◌, ◌≤◌, ◌<◌, get_or, set};
ghost use Rattle.text.specs.Table.{tabulate};
ghost use Rattle.register_form.specs.Form.{term_count, form_at, dictionary_in};
ghost use Rattle.register_join_draft.specs.Joined.{forms_in};
ghost use Rattle.register_join_draft.specs.Drafting.{new_group, new_code, new_term, TermsPut, behind, NumbersPut};

use crate::Side;
use register_form::{
    code_at, form_at, form_end, form_start, group_at, kind_at, layout, name_number, page_count,
    term_count,
};
use tables::{get_or, narrow, next, put};
use values::Kind;

// The property that a group above 0 is of.
fn property_of(g: u8) -> u16
    ensures { result ≡ g - 1 }
{
    u16::from(g.saturating_sub(1))
}

// The lowest 8 bits: a line for the type that is wanted here, as `narrow` of `tables` is for its own.
fn low_byte(x: u16) -> u8
    ensures { result ≡ x % 256 }
{
    (x % 256) as u8
}

impl<'a> Side<'a> {
    // The group of a term, by the place of its property's name.
    fn new_group(self, table: &[u16], g: u8) -> u8
        ensures { result ≡ new_group self.entry.held.now self.entry.items.now table.now g }
    {
        if g == 0 {
            return 0;
        }
        let x = usize::from(self.item(name_number(self.held, property_of(g))));
        low_byte(get_or(table, x, 0))
    }

    // The item of a text's number that is a code.
    fn item_at(self, c: u64) -> u64
        ensures { result ≡ get_or self.entry.items.now c 0 }
    {
        u64::from(get_or(self.items, c as usize, 0))
    }

    // The code of a term, with the item of its text.
    fn new_code(self, g: u8, c: u64) -> u64
        ensures { result ≡ new_code self.entry.held.now self.entry.items.now g c }
    {
        if g == 0 {
            return self.item_at(c);
        }
        match kind_at(self.held, property_of(g)) {
            Kind::Page | Kind::String => self.item_at(c),
            Kind::Scalar(_) => c,
        }
    }

    // Puts term f of the register behind the first n.
    fn put_term(self, table: &[u16], f: u16, groups: &mut [u8], codes: &mut [u64], n: u16) -> u16
        ensures { TermsPut groups.old codes.old n (new_term self.entry.held.now self.entry.items.now table.now f ∷ []) groups.new codes.new result }
    {
        let g = group_at(self.held, f);
        put(groups, usize::from(n), self.new_group(table, g));
        put(
            codes,
            usize::from(n),
            self.new_code(g, code_at(self.held, f)),
        );
        next(n)
    }

    // Puts the terms of the register behind the first n; answers how many there are.
    pub fn put_terms(self, table: &[u16], groups: &mut [u8], codes: &mut [u64], from: u16) -> u16
        ensures { TermsPut groups.old codes.old from (tabulate (term_count self.entry.held.now) (new_term self.entry.held.now self.entry.items.now table.now)) groups.new codes.new result }
    {
        let mut n = from;
        for f in 0..term_count(self.held) {
            n = self.put_term(table, f, groups, codes, n);
        }
        n
    }
}

// The place of term f of a register whose terms stand behind so many others.
fn place_behind(base: u16, f: u16) -> u16
    ensures { result ≡ (base + f) % 65536 }
{
    base.wrapping_add(f)
}

// Puts the forms from first up to end, by the places of their terms, each where there is room; answers how many there are.
fn put_each(h: &[u8], base: u16, first: u16, end: u16, uses: &mut [u16], from: u16) -> u16
    ensures { NumbersPut uses.old from (behind base (tabulate (end - first) (λ j. form_at h.now (first + j)))) uses.new result }
{
    let mut n = from;
    for j in first..end {
        put(uses, usize::from(n), place_behind(base, form_at(h, j)));
        n = next(n);
    }
    n
}

// The number that two bytes are, the low byte first.
fn pair(low: u8, high: u8) -> u16
    ensures { result ≡ low + 256 * high }
{
    u16::from(low) + 256 * u16::from(high)
}

// Whether what ends at one place lies within so many, and what ends at the other within so many and below 65,536.
fn lies_within(end: usize, most: usize, last: usize, room: usize) -> bool
    ensures { result ≡ true → (end ≤ most) × (last ≤ room) × (last < 65536) }
{
    (end <= most) & (last <= room) & (last < 65536)
}

// The same. Where all are there, with room for all, that is asked once, and a compiler takes many at a time.
fn put_forms(h: &[u8], base: u16, first: u16, end: u16, uses: &mut [u16], from: u16) -> u16
    ensures { NumbersPut uses.old from (behind base (tabulate (end - first) (λ j. form_at h.now (first + j)))) uses.new result }
{
    let k = usize::from(end.saturating_sub(first));
    let at = usize::from(layout::FORMS) + 2 * usize::from(first);
    let to = usize::from(from);
    if !lies_within(at + 2 * k, h.len(), to + k, uses.len()) {
        return put_each(h, base, first, end, uses, from);
    }
    for i in 0..k {
        uses[to + i] = place_behind(base, pair(h[at + 2 * i], h[at + 2 * i + 1]));
    }
    narrow(to + k)
}

// Puts the forms of the page in a place, which is given 1 more; none for 0.
pub fn put_page(h: &[u8], base: u16, place: u16, uses: &mut [u16], n: u16) -> u16
    ensures { NumbersPut uses.old n (behind base (forms_in (dictionary_in h.now).pages place)) uses.new result }
{
    if place == 0 {
        return n;
    }
    let i = place - 1;
    if page_count(h) <= i {
        return n;
    }
    put_forms(h, base, form_start(h, i), form_end(h, i), uses, n)
}
