// The evaluation of core queries: page sets from the nodes of a held query.
#![tactic(auto)]

ghost use Rattle.std.specs.Prelude.{◌≡◌, suc};
ghost use Rattle.pageset.specs.Marks.{marks_from};
ghost use Rattle.query_core.specs.Held.{heap_in};
ghost use Rattle.query_core.specs.Stack.{stack_at};
ghost use Rattle.ask_evaluation.specs.Meaning.{Capped, name_span, is_subquery, is_selection, Selects, Joined, Evaluates, stack_with};

pub mod mismatch; // mismatch.rt: number 23's test

pub use mismatch::has_mismatch;
use pageset::PageSet;
use query_core::{Connective, Selector, layout, node_at};
use register_form_view::{
    NameTest, ValueTest, pages_in_category, pages_named, pages_with_link, pages_with_property,
    pages_with_value,
};
use text::{Span, part};

// The pages that a query selects, and the place where its nodes begin.
#[derive(Clone, Copy)]
pub struct Evaluated {
    pub set: PageSet,
    pub next: usize,
}

// The names and string constants of a held query.
pub fn query_heap(q: &[u8]) -> &[u8]
    ensures { result.now ≡ heap_in q.now }
{
    part(q, layout::HEAP, layout::HEAP_BYTES)
}

// A number of pages, as far as a page set has places.
pub fn capped(n: u16) -> u16
    ensures { Capped n result }
{
    n.min(register_form::layout::MOST_PAGES)
}

// The name that a selector carries.
pub fn name_of(selector: Selector) -> Span
    ensures { result ≡ name_span selector }
{
    match selector {
        Selector::Category(p)
        | Selector::Namespace(p)
        | Selector::Existence(p)
        | Selector::Subquery(p)
        | Selector::Article(_, p)
        | Selector::Value(p, _, _)
        | Selector::Link(p, _, _) => p,
    }
}

fn is_subquery(selector: Selector) -> bool
    ensures { result ≡ is_subquery selector }
{
    matches!(selector, Selector::Subquery(_))
}

fn is_selection(connective: Connective) -> bool
    ensures { result ≡ is_selection connective }
{
    matches!(connective, Connective::Select)
}

// The pages that match a selector; inner are those that its subquery selects. With one caller this was compiled into the recursion,
// its tables of terms in the frame of each of 256 levels: 1.5 MB of stack. So both ways of eval_selector call it.
fn select(q: &[u8], selector: Selector, inner: PageSet, h: &[u8], places: &[u16]) -> PageSet
    ensures { Selects h.now places.now (heap_in q.now) selector (marks_from inner.words) (marks_from result.words) }
{
    let heap = query_heap(q);
    let p = name_of(selector);
    let x = part(heap, p.start, p.len);
    match selector {
        Selector::Category(_) => pages_in_category(h, x),
        Selector::Namespace(_) => pages_named(h, NameTest::Namespace, x),
        Selector::Existence(_) => pages_with_property(h, x),
        Selector::Subquery(_) => {
            let words = inner.words;
            pages_with_link(h, places, x, &words)
        }
        Selector::Article(o, _) => pages_named(h, NameTest::Article(o), x),
        Selector::Value(_, o, v) => pages_with_value(h, x, ValueTest::Constant(o, v), heap),
        Selector::Link(_, o, r) => pages_with_value(h, x, ValueTest::Reference(o, r), heap),
    }
}

// Two sets joined by a connective.
fn join(connective: Connective, a: PageSet, b: PageSet) -> PageSet
    ensures { Joined connective (marks_from a.words) (marks_from b.words) (marks_from result.words) }
{
    match connective {
        Connective::And => a.intersection(b),
        Connective::Or => a.union(b),
        Connective::Select => a,
    }
}

// No pages, where there is no query.
fn nothing() -> Evaluated {
    Evaluated {
        set: PageSet::none(),
        next: 0,
    }
}

// The pages that the query whose last node is the one before `at` selects: first the right side, then the left one, which ends
// where the right one begins.
#[cycle(eval_eval_selector)]
pub fn eval(q: &[u8], at: usize, h: &[u8], places: &[u16]) -> Evaluated
    ensures { Evaluates h.now places.now q.now at (stack_at q.now at) result }
{
    if at == 0 {
        return nothing();
    }
    let last = at - 1;
    let Some(node) = node_at(q, last) else {
        return nothing();
    };
    let connective = node.connective;
    let selector = node.selector;
    if is_selection(connective) {
        return eval_selector(q, last, selector, h, places);
    }
    let right = eval(q, last, h, places);
    let middle = right.next;
    if last <= middle {
        return nothing();
    }
    let left = eval(q, middle, h, places);
    let a = left.set;
    let b = right.set;
    Evaluated {
        set: join(connective, a, b),
        next: left.next,
    }
}

// The pages that match a selector; its subquery, if it is one, ends before `at`.
#[cycle(eval_eval_selector)]
fn eval_selector(q: &[u8], at: usize, selector: Selector, h: &[u8], places: &[u16]) -> Evaluated
    ensures { Evaluates h.now places.now q.now (suc at) (stack_with q.now at selector) result }
{
    if is_subquery(selector) {
        let inner = eval(q, at, h, places);
        let set = inner.set;
        return Evaluated {
            set: select(q, selector, set, h, places),
            next: inner.next,
        };
    }
    let none = PageSet::none();
    Evaluated {
        set: select(q, selector, none, h, places),
        next: at,
    }
}
