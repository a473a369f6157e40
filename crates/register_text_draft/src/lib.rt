// The draft of a register text: its entries, one after the other, into the tables of a draft.
#![tactic(auto)]

ghost use Rattle.std.specs.Prelude.{◌≡◌, List, ℕ};
ghost use Rattle.text.specs.Bytes.{Bytes};
ghost use Rattle.language.specs.Register.{Property};
ghost use Rattle.language.specs.RegisterText.{properties as properties_of};
ghost use Rattle.register_text_entries.specs.Items.{entry_in};
ghost use Rattle.register_text_entries.specs.Table.{entries_in};
ghost use Rattle.register_form.specs.Tables.{draft_in};
ghost use Rattle.register_text_draft.specs.Drafting.{no_draft, added, draft_of};
ghost use Rattle.register_text_draft.specs.Sizes.{Good};
ghost use Rattle.register_text_draft.specs.Lookup.{Lists};
ghost use Rattle.register_text_draft.specs.Tables.{Extends, Holding, Roomy, Accepted, Own, tables_in};
ghost use Rattle.register_text_draft.specs.Lent.{SameTables, together};

pub mod adding; // adding.rt: what each entry adds
pub mod lookup; // lookup.rt: a property by its name
pub mod texts; // texts.rt: writing texts, and the codes of values

use adding::{draft_page, draft_prop, draft_val, draft_value};
use register_text_entries::table::item_at;
use register_text_entries::{Item, Tag};
use tables::put;
use text::part;
use values::Kind;

// Texts, one behind the other: how many there are, and where the last ends.
#[derive(Drop)]
pub struct TextTable<'a> {
    pub heap: &'a mut [u8],
    pub starts: &'a mut [u32],
    pub lens: &'a mut [u16],
    pub count: u16,
    pub end: u16,
}

// Properties: the code of the kind of each, and the text that names it.
#[derive(Drop)]
pub struct PropertyTable<'a> {
    pub kinds: &'a mut [u8],
    pub names: &'a mut [u16],
    pub count: u16,
}

// Pages: the text of each one's identifier, and which forms it has, from firsts[i] to firsts[i + 1].
#[derive(Drop)]
pub struct PageTable<'a> {
    pub identifiers: &'a mut [u16],
    pub firsts: &'a mut [u16],
    pub count: u16,
}

// Terms, one for each form: its group, and the code of its value.
#[derive(Drop)]
pub struct TermTable<'a> {
    pub groups: &'a mut [u8],
    pub codes: &'a mut [u64],
    pub count: u16,
}

// The tables of a draft.
#[derive(Drop)]
pub struct DraftTables<'a> {
    pub texts: TextTable<'a>,
    pub properties: PropertyTable<'a>,
    pub pages: PageTable<'a>,
    pub terms: TermTable<'a>,
}

// Adds an entry.
fn draft_entry(
    texts: &mut TextTable,
    properties: &mut PropertyTable,
    pages: &mut PageTable,
    terms: &mut TermTable,
    s: &[u8],
    t: &[u16],
    props: &[u16],
    np: usize,
    item: Item,
)
    ensures added { (ps : List Property) → Lists s.now t.now props.now np ps → Good ps (entry_in s.now item) → Extends (together texts.old properties.old pages.old terms.old) (together texts.new properties.new pages.new terms.new) (λ d. added ps d (entry_in s.now item)) }
    ensures same_slices { SameTables (together texts.old properties.old pages.old terms.old) (together texts.new properties.new pages.new terms.new) }
{
    let x = part(s, item.first.start, item.first.len);
    let y = part(s, item.second.start, item.second.len);
    match item.tag {
        Tag::Prop => draft_prop(texts, properties, item.kind, x),
        Tag::Page => draft_page(texts, pages, terms.count, x, y),
        Tag::Cat => draft_value(texts, pages, terms, x, Kind::String, 0),
        Tag::Val => draft_val(texts, pages, terms, s, t, props, np, x, y),
        Tag::Close => (),
    }
}

// Takes all rows away.
fn clear(
    texts: &mut TextTable,
    properties: &mut PropertyTable,
    pages: &mut PageTable,
    terms: &mut TermTable,
)
    ensures cleared { Roomy (together texts.old properties.old pages.old terms.old) → Holding (together texts.new properties.new pages.new terms.new) no_draft }
    ensures same_slices { SameTables (together texts.old properties.old pages.old terms.old) (together texts.new properties.new pages.new terms.new) }
{
    texts.count = 0;
    texts.end = 0;
    properties.count = 0;
    pages.count = 0;
    put(pages.firsts, 0, 0);
    terms.count = 0;
}

// Writes the draft of the first n entries in t, whose names are composed, and of which the first np in props are properties.
pub fn draft_text(
    texts: &mut TextTable,
    properties: &mut PropertyTable,
    pages: &mut PageTable,
    terms: &mut TermTable,
    s: &[u8],
    t: &[u16],
    n: usize,
    props: &[u16],
    np: usize,
)
    ensures drafted { (typed : Bytes) → Accepted typed s.now t.now props.now n np → Roomy (together texts.old properties.old pages.old terms.old) → (uses : List ℕ) → Own terms.new.count uses → draft_in (tables_in (together texts.new properties.new pages.new terms.new) uses) ≡ draft_of (properties_of (entries_in s.now t.now n)) (entries_in s.now t.now n) }
    ensures same_slices { SameTables (together texts.old properties.old pages.old terms.old) (together texts.new properties.new pages.new terms.new) }
{
    clear(texts, properties, pages, terms);
    for i in 0..n {
        draft_entry(
            texts,
            properties,
            pages,
            terms,
            s,
            t,
            props,
            np,
            item_at(t, i),
        );
    }
}

impl DraftTables<'_> {
    // The same of the tables of a draft.
    pub fn draft_text(&mut self, s: &[u8], t: &[u16], n: usize, props: &[u16], np: usize)
        ensures drafted { (typed : Bytes) → Accepted typed s.now t.now props.now n np → Roomy self.old → (uses : List ℕ) → Own self.new.terms.count uses → draft_in (tables_in self.new uses) ≡ draft_of (properties_of (entries_in s.now t.now n)) (entries_in s.now t.now n) }
        ensures same_slices { SameTables self.old self.new }
    {
        draft_text(
            &mut self.texts,
            &mut self.properties,
            &mut self.pages,
            &mut self.terms,
            s,
            t,
            n,
            props,
            np,
        );
    }
}
