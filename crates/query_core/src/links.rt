// A link from the bytes of its slot.
ghost use Rattle.std.specs.Prelude.{◌≡◌, ◌-◌};
ghost use Rattle.text.specs.Parts.{part_of};
ghost use Rattle.values.specs.Answers.{split_of};
ghost use Rattle.query_core.specs.Held.{slot, slot_from, before, behind, link_from, node_of};
ghost use Rattle.query_core.specs.Reading.{is_spaced, ReadsNode};

use crate::fields::{first_of, second_of, selected_if};
use crate::{Node, Selector};
use buffer::two_at;
use language::{LAST_COMPARATOR, comparator_from as comparator_as_written};
use names::{is_composed_name, is_composed_namespace, is_composed_property_name};
use tables::get_or;
use text::{Span, part};
use values::Split;

// How many bytes of a place of n bytes stand before the last k.
fn before_last(n: u16, k: u16) -> usize
    ensures { result ≡ n - k }
{
    if n < k { 0 } else { usize::from(n - k) }
}

// Where the property's name of a link lies, and its reference, by the bytes of a slot: with a namespace of n bytes behind the name.
#[tactic(auto, unfolding(crate::specs::Held::slot_from))]
fn link_name(b: &[u8], n: u16) -> Span
    ensures { result ≡ before n (slot_from b.now).first }
{
    Span {
        start: usize::from(two_at(b, 4)),
        len: before_last(two_at(b, 6), n),
    }
}

#[tactic(auto, unfolding(crate::specs::Held::slot_from))]
fn link_namespace(b: &[u8], n: u16) -> Span
    ensures { result ≡ behind n (slot_from b.now).first }
{
    let name = before_last(two_at(b, 6), n);
    Span {
        start: usize::from(two_at(b, 4)) + name,
        len: usize::from(n),
    }
}

// Whether a namespace, if one is written, keeps the rule.
fn is_spaced(heap: &[u8], namespace: Option<Span>) -> bool
    ensures { result ≡ is_spaced heap.now namespace }
{
    match namespace {
        Some(n) => is_composed_namespace(part(heap, n.start, n.len)),
        None => true,
    }
}

// A link whose name and reference lie there.
fn link_at(heap: &[u8], code: u8, name: Span, split: Split) -> Option<Node>
    ensures { ReadsNode heap.now (link_from code (part_of heap.now name) (split_of heap.now split)) result }
{
    let c = comparator_as_written(code);
    let a = split.article;
    let named = is_composed_name(part(heap, a.start, a.len));
    let spaced = is_spaced(heap, split.namespace);
    let fit = is_composed_property_name(part(heap, name.start, name.len))
        & spaced
        & named
        & (code <= LAST_COMPARATOR);
    selected_if(fit, Selector::Link(name, c, split))
}

// A link, the bytes of a slot of tag 8.
pub fn link_from(heap: &[u8], b: &[u8]) -> Option<Node>
    ensures { ReadsNode heap.now (node_of heap.now 8 (slot_from b.now)) result }
{
    let code = get_or(b, 1, 0);
    let mark = get_or(b, 2, 0);
    let article = second_of(b);
    if mark == 0 {
        let bare = Split {
            namespace: None,
            article,
        };
        return link_at(heap, code, first_of(b), bare);
    }
    let n = (mark - 1) as u16;
    let split = Split {
        namespace: Some(link_namespace(b, n)),
        article,
    };
    link_at(heap, code, link_name(b, n), split)
}
