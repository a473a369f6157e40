// Where the strings of a node lie, and its slot.
ghost use Rattle.std.specs.Prelude.{◌≡◌, cond, ◌+◌, ◌<◌, ◌^◌};
ghost use Rattle.language.specs.Comparators.{comparator_code as surface_code};
ghost use Rattle.query_core.specs.Form.{comparator_code, span_at, no_span, tagged, link_slot};
ghost use Rattle.query_core.specs.Writing.{written_in, mark_if, constant_strings, selector_strings, node_strings, constant_slot, selector_slot, slot_of, joint};

use crate::{Connective, Constant, Node, Selector, Slot, Strings, layout};
use language::{Comparator, SurfaceComparator};
use text::Span;
use values::{Kind, Split};

// The code of a comparator.
fn code_of(c: Comparator) -> u8
    ensures { result ≡ comparator_code c }
{
    match c {
        Comparator::Equal => layout::EQUAL,
        Comparator::Unequal => layout::UNEQUAL,
        Comparator::Greater => layout::GREATER,
        Comparator::Less => layout::LESS,
    }
}

// A slot with no constant.
fn tagged_slot(tag: u8, comparator: u8, first: Span, second: Span) -> Slot
    ensures { result ≡ tagged tag comparator first second }
{
    Slot {
        tag,
        comparator,
        kind: 0,
        first,
        second,
        number: 0,
    }
}

// Where the strings of a value comparison lie.
fn constant_strings(first: Span, k: Constant) -> Strings
    ensures { result ≡ constant_strings first k }
{
    let none = Span { start: 0, len: 0 };
    match k {
        Constant::Scalar(_, _) => Strings {
            first,
            second: none,
            third: none,
        },
        Constant::String(second) => Strings {
            first,
            second,
            third: none,
        },
    }
}

// The namespace that a reference writes.
fn written(r: Split) -> Span
    ensures { result ≡ written_in r.namespace }
{
    r.namespace.unwrap_or(Span { start: 0, len: 0 })
}

// Where the strings of a selector lie.
fn selector_strings(s: Selector) -> Strings
    ensures { result ≡ selector_strings s }
{
    let none = Span { start: 0, len: 0 };
    match s {
        Selector::Category(p)
        | Selector::Namespace(p)
        | Selector::Existence(p)
        | Selector::Subquery(p) => Strings {
            first: p,
            second: none,
            third: none,
        },
        Selector::Article(_, p) => Strings {
            first: none,
            second: p,
            third: none,
        },
        Selector::Value(p, _, k) => constant_strings(p, k),
        Selector::Link(p, _, r) => {
            let second = written(r);
            let third = r.article;
            Strings {
                first: p,
                second,
                third,
            }
        }
    }
}

// Where the strings of a node lie.
pub fn strings_of(node: Node) -> Strings
    ensures { result ≡ node_strings node }
{
    let none = Span { start: 0, len: 0 };
    match node.connective {
        Connective::And | Connective::Or => Strings {
            first: none,
            second: none,
            third: none,
        },
        Connective::Select => selector_strings(node.selector),
    }
}

// The slot of a value comparison whose strings lie at p and q.
fn constant_slot(code: u8, k: Constant, p: Span, q: Span) -> Slot
    ensures { result ≡ constant_slot code k p q }
{
    let none = Span { start: 0, len: 0 };
    match k {
        Constant::Scalar(j, n) => Slot {
            tag: layout::VALUE,
            comparator: code,
            kind: u8::from(Kind::Scalar(j)),
            first: p,
            second: none,
            number: n,
        },
        Constant::String(_) => Slot {
            tag: layout::VALUE,
            comparator: code,
            kind: u8::from(Kind::String),
            first: p,
            second: q,
            number: 0,
        },
    }
}

// The byte that tells of a link's namespace, of n bytes.
fn mark_of(namespace: Option<Span>, n: usize) -> u8
    ensures { result ≡ mark_if namespace n }
{
    match namespace {
        Some(_) => ((n % 256 + 1) % 256) as u8,
        None => 0,
    }
}

// The slot of a link whose strings lie at p, q and t: the namespace stands behind the property's name.
fn link_slot(c: SurfaceComparator, namespace: Option<Span>, p: Span, q: Span, t: Span) -> Slot
    requires { p.len + q.len < 2 ^ 64 }
    ensures { result ≡ link_slot (surface_code c) (mark_if namespace q.len) (span_at p.start (p.len + q.len)) t }
{
    let first = Span {
        start: p.start,
        len: p.len + q.len,
    };
    Slot {
        tag: layout::LINK,
        comparator: u8::from(c),
        kind: mark_of(namespace, q.len),
        first,
        second: t,
        number: 0,
    }
}

// The slot of a selector whose strings lie at p, q and t.
fn selector_slot(s: Selector, p: Span, q: Span, t: Span) -> Slot
    requires { p.len + q.len < 2 ^ 64 }
    ensures { result ≡ selector_slot s p q t }
{
    let none = Span { start: 0, len: 0 };
    match s {
        Selector::Category(_) => tagged_slot(layout::CATEGORY, 0, p, none),
        Selector::Namespace(_) => tagged_slot(layout::NAMESPACE, 0, p, none),
        Selector::Existence(_) => tagged_slot(layout::EXISTENCE, 0, p, none),
        Selector::Subquery(_) => tagged_slot(layout::SUBQUERY, 0, p, none),
        Selector::Article(c, _) => tagged_slot(layout::ARTICLE, code_of(c), none, q),
        Selector::Value(_, c, k) => constant_slot(code_of(c), k, p, q),
        Selector::Link(_, c, r) => link_slot(c, r.namespace, p, q, t),
    }
}

// The slot of a node whose strings lie at p, q and t.
pub fn slot_of(node: Node, p: Span, q: Span, t: Span) -> Slot
    requires { p.len + q.len < 2 ^ 64 }
    ensures { result ≡ slot_of node p q t }
{
    let connective = node.connective;
    let selector = node.selector;
    let none = Span { start: 0, len: 0 };
    match connective {
        Connective::And => tagged_slot(layout::AND, 0, none, none),
        Connective::Or => tagged_slot(layout::OR, 0, none, none),
        Connective::Select => selector_slot(selector, p, q, t),
    }
}

// The slot of AND, and of OR.
pub fn connective_slot(or: bool) -> Slot
    ensures { result ≡ slot_of (joint or) no_span no_span no_span }
{
    let none = Span { start: 0, len: 0 };
    if or {
        return tagged_slot(layout::OR, 0, none, none);
    }
    tagged_slot(layout::AND, 0, none, none)
}
