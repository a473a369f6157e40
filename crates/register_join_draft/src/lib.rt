// The draft of the join of two held registers, in tables.
#![tactic(auto)]

ghost use Rattle.std.specs.Prelude.{◌≡◌};
ghost use Rattle.register_form.specs.Form.{page_count, property_count};
ghost use Rattle.register_join_draft.specs.Drafting.{items_in, Entering, PropertiesPut, IdentifiersPut, new_row, PagesPut, JoinPut, clashes_at, some_clash, Clashed, SameSlices};

use forms::put_page;
use register_form::{
    identifier_number, kind_byte, layout, name_number, page_count, property_count,
};
use tables::{get_or, next, put};

mod forms; // forms.rt: the terms of a register, the forms of a page

// One side of a join: a held register, and the item of each number that a text has in it.
#[derive(Clone, Copy)]
pub struct Side<'a> {
    pub held: &'a [u8],
    pub items: &'a [u16],
}

// The tables of a draft that are lent to be filled: properties by kinds and names, pages by identifiers and the places where their
// forms begin, forms by their terms, terms by groups and codes; and how many properties, pages and terms there are.
#[derive(Drop)]
pub struct DraftTables<'a> {
    pub kinds: &'a mut [u8],
    pub names: &'a mut [u16],
    pub property_count: u16,
    pub identifiers: &'a mut [u16],
    pub firsts: &'a mut [u16],
    pub page_count: u16,
    pub uses: &'a mut [u16],
    pub groups: &'a mut [u8],
    pub codes: &'a mut [u64],
    pub term_count: u16,
}

// Puts x behind the first n of a list, unless the table has a place for it; answers how many there are.
fn enter(table: &mut [u16], list: &mut [u16], n: u16, x: u16) -> u16
    ensures { Entering table.old list.old n x table.new list.new result }
{
    let k = usize::from(x);
    if get_or(table, k, 0) != 0 {
        return n;
    }
    let m = next(n);
    put(table, k, m);
    put(list, usize::from(n), x);
    m
}

impl<'a> Side<'a> {
    // The item of a text's number.
    fn item(self, x: u16) -> u16
        ensures { result ≡ items_in self.entry.items.now x }
    {
        get_or(self.items, usize::from(x), 0)
    }

    // Puts the properties of the register behind the first n, those that are not there.
    fn put_properties(
        self,
        kinds: &mut [u8],
        names: &mut [u16],
        table: &mut [u16],
        from: u16,
    ) -> u16
        ensures { PropertiesPut self.entry.held.now self.entry.items.now kinds.old names.old table.old from (property_count self.entry.held.now) kinds.new names.new table.new result }
    {
        let mut n = from;
        for p in 0..property_count(self.held) {
            put(kinds, usize::from(n), kind_byte(self.held, p));
            n = enter(table, names, n, self.item(name_number(self.held, p)));
        }
        n
    }

    // Puts the identifiers of the register's pages behind the first n, those that are not there.
    fn put_identifiers(self, list: &mut [u16], table: &mut [u16], from: u16) -> u16
        ensures { IdentifiersPut self.entry.held.now self.entry.items.now list.old table.old from (page_count self.entry.held.now) list.new table.new result }
    {
        let mut n = from;
        for i in 0..page_count(self.held) {
            n = enter(table, list, n, self.item(identifier_number(self.held, i)));
        }
        n
    }

    // Whether property p and the like one of another register have different kinds; a table has the places of the other's names.
    fn clashes(self, other: &[u8], table: &[u16], p: u16) -> bool
        ensures { result ≡ clashes_at self.entry.held.now other.now self.entry.items.now table.now p }
    {
        let place = get_or(table, usize::from(self.item(name_number(self.held, p))), 0);
        if place == 0 {
            return false;
        }
        kind_byte(other, place - 1) != kind_byte(self.held, p)
    }

    fn some_clash(self, other: &[u8], table: &[u16]) -> bool
        ensures { result ≡ some_clash self.entry.held.now other.now self.entry.items.now table.now (property_count self.entry.held.now) }
    {
        for p in 0..property_count(self.held) {
            if self.clashes(other, table, p) {
                return true;
            }
        }
        false
    }
}

// Whether a property has one kind in the first register and another in the second.
pub fn kinds_clash(first: Side, second: Side) -> bool
    ensures { Clashed first.entry.held.now second.entry.held.now first.entry.items.now second.entry.items.now result }
{
    let mut kinds = [0u8; layout::PROPERTY_ROOM];
    let mut names = [0u16; layout::PROPERTY_ROOM];
    let mut table = [0u16; layout::DRAFT_TEXTS];
    second.put_properties(&mut kinds, &mut names, &mut table, 0);
    first.some_clash(second.held, &table)
}

// Puts the pages: each with its forms in the first register and those of the like page of the second, whose terms stand behind so many.
// The tables come one by one, since identifiers are read while firsts and uses are written.
fn put_pages(
    h: &[u8],
    g: &[u8],
    base: u16,
    pages: &[u16],
    identifiers: &[u16],
    m: u16,
    firsts: &mut [u16],
    uses: &mut [u16],
)
    ensures { PagesPut (new_row h.now g.now base pages.now identifiers.now) m firsts.old uses.old firsts.new uses.new }
{
    let mut n: u16 = 0;
    for i in 0..m {
        put(firsts, usize::from(i), n);
        n = put_page(h, 0, i + 1, uses, n);
        let at = usize::from(get_or(identifiers, usize::from(i), 0));
        let place = get_or(pages, at, 0);
        n = put_page(g, base, place, uses, n);
    }
    put(firsts, usize::from(m), n);
}

// Makes the draft of the join in tables: the properties and pages of the first register and then those of the second that are not
// there, and the terms of the first and then of the second.
pub fn draft_join(first: Side, second: Side, draft: &mut DraftTables)
    ensures joined { JoinPut first.entry.held.now second.entry.held.now first.entry.items.now second.entry.items.now draft.old.kinds.now draft.old.names.now draft.old.identifiers.now draft.old.firsts.now draft.old.uses.now draft.old.groups.now draft.old.codes.now draft.new.kinds.now draft.new.names.now draft.new.identifiers.now draft.new.firsts.now draft.new.uses.now draft.new.groups.now draft.new.codes.now draft.new.property_count draft.new.page_count draft.new.term_count }
    ensures same_slices { SameSlices draft.old draft.new }
{
    let mut places = [0u16; layout::DRAFT_TEXTS];
    let mut both = [0u16; layout::DRAFT_TEXTS];
    let mut pages = [0u16; layout::DRAFT_TEXTS];
    let mut list = [0u16; layout::PAGE_ROOM];
    let (kinds, names) = (&mut *draft.kinds, &mut *draft.names);
    let own = first.put_properties(kinds, names, &mut places, 0);
    let properties = second.put_properties(kinds, names, &mut places, own);
    let identifiers = &mut *draft.identifiers;
    let start = first.put_identifiers(identifiers, &mut both, 0);
    let count = second.put_identifiers(identifiers, &mut both, start);
    second.put_identifiers(&mut list, &mut pages, 0);
    let (groups, codes) = (&mut *draft.groups, &mut *draft.codes);
    let base = first.put_terms(&places, groups, codes, 0);
    let terms = second.put_terms(&places, groups, codes, base);
    put_pages(
        first.held,
        second.held,
        base,
        &pages,
        identifiers,
        count,
        &mut *draft.firsts,
        &mut *draft.uses,
    );
    draft.property_count = properties;
    draft.page_count = count;
    draft.term_count = terms;
}
