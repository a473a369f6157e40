// What each entry adds to a draft.
ghost use Rattle.std.specs.Borrow.{MutBor};
ghost use Rattle.std.specs.Prelude.{◌≡◌, List, [], ◌∷◌, ◌++◌, ℕ, ◌+◌, ◌≤◌, ◌<◌, length};
ghost use Rattle.values.specs.Values.{Value, read_value, kind_code};
ghost use Rattle.language.specs.Register.{Property};
ghost use Rattle.language.specs.RegisterText.{prop, page, val};
ghost use Rattle.register_form.specs.Dictionary.{PropertyRow, PageRow, term_of};
ghost use Rattle.register_text_draft.specs.Drafting.{on_last, with_value, added};
ghost use Rattle.register_text_draft.specs.Sizes.{Valued, Spaced};
ghost use Rattle.register_text_draft.specs.Lookup.{Lists};
ghost use Rattle.register_text_draft.specs.Tables.{Properties, Pages, FormsPushed, Extends};
ghost use Rattle.register_text_draft.specs.Lent.{SameTexts, SameProperties, SamePages, SameTerms, SameTables, together, identified};

use super::lookup::property_place;
use super::texts::{byte, value_code};
use super::{DraftTables, PageTable, PropertyTable, TermTable, TextTable};
use tables::{next, put};
use text::part;
use values::Kind;

impl PropertyTable<'_> {
    // Adds a property.
    fn push(&mut self, kind: Kind, name: u16)
        ensures pushed { (l : List PropertyRow) → Properties self.old.kinds.now self.old.names.now self.old.count l → self.old.count < 64 → Properties self.new.kinds.now self.new.names.now self.new.count (l ++ (record { kind = kind; name = name } ∷ [])) }
        ensures same_slices { SameProperties self.old self.new }
    {
        let n = usize::from(self.count);
        put(self.kinds, n, u8::from(kind));
        put(self.names, n, name);
        self.count = next(self.count);
    }
}

impl PageTable<'_> {
    // Adds a page without forms behind pages that have f forms.
    fn push(&mut self, f: u16, identifier: u16)
        ensures pushed { (l : List PageRow) → Pages self.old.identifiers.now self.old.firsts.now self.old.count f l → self.old.count < 256 → Pages self.new.identifiers.now self.new.firsts.now self.new.count f (l ++ (record { identifier = identifier; forms = [] } ∷ [])) }
        ensures same_slices { SamePages self.old self.new }
    {
        let n = usize::from(self.count);
        put(self.identifiers, n, identifier);
        put(self.firsts, n + 1, f);
        self.count = next(self.count);
    }
}

// Adds a form, on the last page.
fn push_form(pages: &mut PageTable, terms: &mut TermTable, group: u8, code: u64)
    ensures pushed { FormsPushed pages.old terms.old group code pages.new terms.new }
    ensures beside { (i : MutBor (List ℕ)) → FormsPushed (identified i pages.old) terms.old group code (identified i pages.new) terms.new }
    ensures kept { (pages.new.identifiers ≡ pages.old.identifiers) × (pages.new.count ≡ pages.old.count) }
    ensures same_pages { SamePages pages.old pages.new }
    ensures same_terms { SameTerms terms.old terms.new }
{
    let f = usize::from(terms.count);
    let behind = next(terms.count);
    put(terms.groups, f, group);
    put(terms.codes, f, code);
    put(pages.firsts, usize::from(pages.count), behind);
    terms.count = behind;
}

// Adds a value of a kind in a group, whatever the properties and the identifiers are.
pub fn draft_value(
    texts: &mut TextTable,
    pages: &mut PageTable,
    terms: &mut TermTable,
    v: &[u8],
    kind: Kind,
    group: u8,
)
    ensures added { (w : Value) (p : PropertyTable) (i : MutBor (List ℕ)) → read_value kind v.now ≡ Some w → Spaced w → Extends (together texts.old p (identified i pages.old) terms.old) (together texts.new p (identified i pages.new) terms.new) (with_value group w) }
    ensures kept { (pages.new.identifiers ≡ pages.old.identifiers) × (pages.new.count ≡ pages.old.count) }
    ensures same_texts { SameTexts texts.old texts.new }
    ensures same_pages { SamePages pages.old pages.new }
    ensures same_terms { SameTerms terms.old terms.new }
{
    let code = value_code(kind, v, texts.count);
    texts.push_value(kind, v);
    push_form(pages, terms, group, code);
}

// Adds a property with its name, whatever the pages and the terms are.
pub fn draft_prop(texts: &mut TextTable, properties: &mut PropertyTable, kind: Kind, name: &[u8])
    ensures added { (ps : List Property) (g : PageTable) (v : TermTable) → Extends (together texts.old properties.old g v) (together texts.new properties.new g v) (λ d. added ps d (prop name.now kind)) }
    ensures same_texts { SameTexts texts.old texts.new }
    ensures same_properties { SameProperties properties.old properties.new }
{
    let m = texts.count;
    texts.push_text(part(name, 0, 0), name);
    properties.push(kind, m);
}

// Adds a page with its identifier behind pages that have f forms, whatever the properties and the terms are.
pub fn draft_page(texts: &mut TextTable, pages: &mut PageTable, f: u16, space: &[u8], name: &[u8])
    ensures added { (ps : List Property) (p : PropertyTable) (v : TermTable) → v.count ≡ f → length space.now ≤ 64 → Extends (together texts.old p pages.old v) (together texts.new p pages.new v) (λ d. added ps d (page space.now name.now)) }
    ensures same_texts { SameTexts texts.old texts.new }
    ensures same_pages { SamePages pages.old pages.new }
{
    let m = texts.count;
    texts.push_text(space, name);
    pages.push(f, m);
}

// Adds a value under the property x, whatever the properties and the identifiers are.
pub fn draft_val(
    texts: &mut TextTable,
    pages: &mut PageTable,
    terms: &mut TermTable,
    s: &[u8],
    t: &[u16],
    props: &[u16],
    np: usize,
    x: &[u8],
    v: &[u8],
)
    ensures added { (ps : List Property) (p : PropertyTable) (i : MutBor (List ℕ)) → Lists s.now t.now props.now np ps → Valued ps x.now v.now → Extends (together texts.old p (identified i pages.old) terms.old) (together texts.new p (identified i pages.new) terms.new) (λ d. added ps d (val x.now v.now)) }
    ensures kept { (pages.new.identifiers ≡ pages.old.identifiers) × (pages.new.count ≡ pages.old.count) }
    ensures same_texts { SameTexts texts.old texts.new }
    ensures same_pages { SamePages pages.old pages.new }
    ensures same_terms { SameTerms terms.old terms.new }
{
    let Some((kind, place)) = property_place(s, t, props, np, x) else {
        return;
    };
    draft_value(texts, pages, terms, v, kind, byte(usize::from(place) + 1));
}

// The same of the tables of a draft.
impl DraftTables<'_> {
    pub fn draft_value(&mut self, v: &[u8], kind: Kind, group: u8)
        ensures added { (w : Value) → read_value kind v.now ≡ Some w → Spaced w → Extends self.old self.new (with_value group w) }
        ensures same_slices { SameTables self.old self.new }
    {
        draft_value(
            &mut self.texts,
            &mut self.pages,
            &mut self.terms,
            v,
            kind,
            group,
        );
    }

    pub fn draft_prop(&mut self, kind: Kind, name: &[u8])
        ensures added { (ps : List Property) → Extends self.old self.new (λ d. added ps d (prop name.now kind)) }
        ensures same_slices { SameTables self.old self.new }
    {
        draft_prop(&mut self.texts, &mut self.properties, kind, name);
    }

    pub fn draft_page(&mut self, space: &[u8], name: &[u8])
        ensures added { (ps : List Property) → length space.now ≤ 64 → Extends self.old self.new (λ d. added ps d (page space.now name.now)) }
        ensures same_slices { SameTables self.old self.new }
    {
        draft_page(
            &mut self.texts,
            &mut self.pages,
            self.terms.count,
            space,
            name,
        );
    }

    pub fn draft_val(&mut self, s: &[u8], t: &[u16], props: &[u16], np: usize, x: &[u8], v: &[u8])
        ensures added { (ps : List Property) → Lists s.now t.now props.now np ps → Valued ps x.now v.now → Extends self.old self.new (λ d. added ps d (val x.now v.now)) }
        ensures same_slices { SameTables self.old self.new }
    {
        draft_val(
            &mut self.texts,
            &mut self.pages,
            &mut self.terms,
            s,
            t,
            props,
            np,
            x,
            v,
        );
    }
}
