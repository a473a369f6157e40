// Nodes into a held query, each behind those that are there. Names and strings lie in s.
ghost use Rattle.std.specs.Prelude.{[], ◌∷◌, ◌≡◌, true};
ghost use Rattle.text.specs.Parts.{part_of};
ghost use Rattle.values.specs.declared.Kind.TheVariants.{Page};
ghost use Rattle.values.specs.Names.{is_reference, composed_reference};
ghost use Rattle.values.specs.Answers.{split_of};
ghost use Rattle.values.specs.Values.{map_option, read_constant};
ghost use Rattle.language.specs.Elaboration.{strict_or_equal, compared, elaborate_reference, elaborate_constant, elaborate_value};
ghost use Rattle.query_core.specs.Postfix.{post, link};
ghost use Rattle.query_core.specs.Reading.{selector_over};
ghost use Rattle.query_core_emit.specs.declared.Comparison.TheVariants.{Article};
ghost use Rattle.query_core_emit.specs.Emission.{comparing, selector_of, scope_of, Adds, Emits, connective_node};

use crate::Comparison;
use crate::terms::constant_of;
use language::{Comparator, SurfaceComparator, in_any_namespace, is_equal, or_equal, strict};
use names::put_composed;
use query_core::{Connective, Node, Place, Selector, put_connective, put_node};
use query_text_pieces::split_at;
use text::{Span, part};
use values::{Kind, Split, is_reference};

// A selector; its name lies in s, what is compared with it in t.
pub fn put_select(s: &[u8], t: &[u8], held: &mut [u8], at: Place, selector: Selector) -> Place
    ensures { Adds (selector_over s.now t.now selector ∷ []) held.old at held.new result }
{
    let connective = Connective::Select;
    let node = Node {
        connective,
        selector,
    };
    put_node(s, t, held, at, node)
}

// AND or OR behind its two sides.
pub fn put_join(held: &mut [u8], at: Place, or: bool) -> Place
    ensures { Adds (connective_node or ∷ []) held.old at held.new result }
{
    put_connective(held, at, or)
}

// The selector of a comparison.
fn selector_of(what: Comparison, c: Comparator) -> Selector
    ensures { result ≡ selector_of what c }
{
    match what {
        Comparison::Article(p) => Selector::Article(c, p),
        Comparison::Value(p, k) => Selector::Value(p, c, k),
    }
}

// One comparison.
fn put_one(s: &[u8], held: &mut [u8], at: Place, what: Comparison, c: Comparator) -> Place
    ensures { Adds (post (comparing s.now what c)) held.old at held.new result }
{
    put_select(s, s, held, at, selector_of(what, c))
}

// Strict OR equal.
fn put_either(s: &[u8], held: &mut [u8], at: Place, what: Comparison, strict: Comparator) -> Place
    ensures { Adds (post (strict_or_equal (comparing s.now what) strict)) held.old at held.new result }
{
    let one = put_one(s, held, at, what, strict);
    let two = put_one(s, held, one, what, Comparator::Equal);
    put_join(held, two, true)
}

// A comparison as written.
fn put_compared(
    s: &[u8],
    held: &mut [u8],
    at: Place,
    what: Comparison,
    c: SurfaceComparator,
) -> Place
    ensures { Adds (post (compared (comparing s.now what) c)) held.old at held.new result }
{
    let d = strict(c);
    if or_equal(c) {
        put_either(s, held, at, what, d)
    } else {
        put_one(s, held, at, what, d)
    }
}

// The same of an article name, the most usual comparison: only the name is handed on.
fn put_article(s: &[u8], held: &mut [u8], at: Place, p: Span, c: SurfaceComparator) -> Place
    ensures { Adds (post (compared (comparing s.now (Article p)) c)) held.old at held.new result }
{
    let d = strict(c);
    let one = put_select(s, s, held, at, Selector::Article(d, p));
    if or_equal(c) {
        let two = put_select(s, s, held, one, Selector::Article(Comparator::Equal, p));
        return put_join(held, two, true);
    }
    one
}

// The namespace that a reference is looked for in, if not in any: definition 5.3.1.
fn scope_of(c: SurfaceComparator, split: Split) -> Option<Span>
    ensures { result ≡ scope_of c split }
{
    match split.namespace {
        Some(_) if in_any_namespace(c) => None,
        Some(n) => Some(n),
        None if is_equal(c) => Some(Span { start: 0, len: 0 }),
        None => None,
    }
}

// A reference, by where its two sides lie.
pub fn put_reference(
    s: &[u8],
    held: &mut [u8],
    at: Place,
    c: SurfaceComparator,
    split: Split,
) -> Place
    ensures { Adds (post (elaborate_reference c (split_of s.now split))) held.old at held.new result }
{
    let article = split.article;
    match scope_of(c, split) {
        None => put_article(s, held, at, article, c),
        Some(namespace) => {
            let one = put_select(s, s, held, at, Selector::Namespace(namespace));
            let two = put_article(s, held, one, article, c);
            put_join(held, two, false)
        }
    }
}

// A link to a reference as typed, its names composed: they are put from a table of their own.
fn put_typed(
    s: &[u8],
    held: &mut [u8],
    at: Place,
    name: Span,
    c: SurfaceComparator,
    split: Split,
) -> Place
    ensures { is_reference (split_of s.now split) ≡ true → Adds (link (part_of s.now name) c (composed_reference (split_of s.now split)) ∷ []) held.old at held.new result }
{
    let n = split.namespace.unwrap_or(Span { start: 0, len: 0 });
    let a = split.article;
    let x = part(s, n.start, n.len);
    let y = part(s, a.start, a.len);
    let mut names = [0u8; 128];
    let n_size = put_composed(&mut names, 0, x);
    let a_size = put_composed(&mut names, 64, y);
    let namespace = Span {
        start: 0,
        len: n_size,
    };
    let article = Span {
        start: 64,
        len: a_size,
    };
    let typed = Split {
        namespace: split.namespace.and(Some(namespace)),
        article,
    };
    put_select(s, &names, held, at, Selector::Link(name, c, typed))
}

// The piece at p of a page property: one link.
fn put_link(
    s: &[u8],
    held: &mut [u8],
    at: Place,
    name: Span,
    c: SurfaceComparator,
    p: Span,
) -> Option<Place>
    ensures { Emits (elaborate_value (part_of s.now name) c (part_of s.now p) Page) held.old at result held.new }
{
    if !is_reference(part(s, p.start, p.len)) {
        return None;
    }
    let split = split_at(s, p);
    Some(put_typed(s, held, at, name, c, split))
}

// A comparison with the constant that the piece at p writes.
fn put_constant(
    s: &[u8],
    held: &mut [u8],
    at: Place,
    name: Span,
    c: SurfaceComparator,
    p: Span,
    kind: Kind,
) -> Option<Place>
    ensures { Emits (map_option (elaborate_constant (part_of s.now name) c) (read_constant kind (part_of s.now p))) held.old at result held.new }
{
    let k = constant_of(s, p, kind)?;
    Some(put_compared(s, held, at, Comparison::Value(name, k), c))
}

// A property's piece, by the property's kind.
pub fn put_value(
    s: &[u8],
    held: &mut [u8],
    at: Place,
    name: Span,
    c: SurfaceComparator,
    p: Span,
    kind: Kind,
) -> Option<Place>
    ensures { Emits (elaborate_value (part_of s.now name) c (part_of s.now p) kind) held.old at result held.new }
{
    match kind {
        Kind::Page => put_link(s, held, at, name, c, p),
        Kind::Scalar(_) => put_constant(s, held, at, name, c, p, kind),
        Kind::String => put_constant(s, held, at, name, c, p, kind),
    }
}
