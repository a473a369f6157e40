// The tests of texts and of properties.
ghost use Rattle.std.specs.Prelude.{◌≡◌, ◌-◌, ◌<◌, ◌≤◌, drop};
ghost use Rattle.text.specs.Keys.{key_to};
ghost use Rattle.values.specs.ByteRules.{rule_table};
ghost use Rattle.register_form.specs.Form.{text_count, text_at};
ghost use Rattle.register_form.specs.Tests.{is_labelled};
ghost use Rattle.buffer.specs.Tests.{all_to};
ghost use Rattle.register_form_test.specs.Loops.{climbs};
ghost use Rattle.register_form_test.specs.Stages.{class_of, text_test, classes_to, text_length, Classed, property_ok, PropertiesTested};

use register_form::layout::TEXTS;
use register_form::{
    name_at, name_number, name_of, property_count, space_of, text_at, text_count, text_end,
    text_start,
};
use tables::{get_or, put};
use text::{Class, all_in, compare_long, key_at};
use values::rules::{byte_rules, name_class};

// Whether a text's namespace ends within it.
fn is_labelled(t: &[u8]) -> bool
    ensures { result ≡ is_labelled t.now }
{
    usize::from(get_or(t, 0, 0)) < t.len()
}

// The least of two lengths and 8.
fn common(a: usize, b: usize) -> usize
    ensures { (result ≤ a) × (result ≤ b) × (result ≤ 8) }
{
    a.min(b).min(8)
}

// The key of the n bytes at a place, of which there are 1 to 8.
fn key_to(h: &[u8], at: usize, n: usize) -> u64
    requires { (0 < n) × (n ≤ 8) }
    ensures { result ≡ key_to n (drop at h.now) }
{
    key_at(h, at) >> (64 - 8 * n)
}

// Whether the text before text x, which is t, if there is one, is less. The first bytes of both, as many as both have, tell most
// texts apart; where eight bytes lie at either place the compiler loads them at once, with some of the next text behind a short one.
fn text_climbs<'a>(h: &'a [u8], t: &'a [u8], x: u16) -> bool
    requires { t.now ≡ text_at h.now x }
    ensures { result ≡ climbs (text_at h.now) x }
{
    if x == 0 {
        return true;
    }
    let before = x - 1;
    let s = text_at(h, before);
    let n = common(s.len(), t.len());
    let at = usize::from(TEXTS) + usize::from(text_start(h, before));
    let to = usize::from(TEXTS) + usize::from(text_start(h, x));
    if (0 < n) & (at + 8 <= h.len()) & (to + 8 <= h.len()) {
        let a = key_to(h, at, n);
        let b = key_to(h, to, n);
        if a != b {
            return a < b;
        }
    }
    compare_long(s, t).is_lt()
}

fn text_ok<'a>(h: &'a [u8], t: &'a [u8], x: u16) -> bool
    requires { t.now ≡ text_at h.now x }
    ensures { result ≡ text_test h.now x }
{
    is_labelled(t) & text_climbs(h, t, x)
}

// What a text may be, by the table of the rules for bytes.
fn class_of<'a>(t: &'a [u8], rules: &'a [u8]) -> u16
    requires { rules.now ≡ rule_table }
    ensures { result ≡ class_of t.now }
{
    let class = name_class(rules, name_of(t));
    if get_or(t, 0, 0) == 0 {
        return class;
    }
    let space = space_of(t);
    let spaced = (space.len() == 0) | (name_class(rules, space) == 2);
    if spaced & (class == 2) { 3 } else { 0 }
}

// Whether texts are labelled and ascend; writes the class of each.
pub fn texts_ok(h: &[u8], classes: &mut [u16]) -> bool
    ensures { (result ≡ all_to (text_count h.now) (text_test h.now)) × (classes.new ≡ classes_to h.now (text_count h.now) classes.old) }
{
    let rules = byte_rules();
    let mut ok = true;
    for x in 0..text_count(h) {
        let t = text_at(h, x);
        ok = ok & text_ok(h, t, x);
        put(classes, usize::from(x), class_of(t, &rules));
    }
    ok
}

// How long text x is, its label with it.
pub fn text_length(h: &[u8], x: u16) -> u16
    ensures { result ≡ text_length h.now x }
{
    text_end(h, x).saturating_sub(text_start(h, x))
}

// How many bytes the names in text x have.
pub fn names_length(h: &[u8], x: u16) -> u16
    ensures { result ≡ text_length h.now x - 1 }
{
    text_length(h, x).saturating_sub(1)
}

// Whether text x is a property's name that was not used. Its class tells whether it is a name.
fn property_ok(h: &[u8], classes: &[u16], used: &[u16], x: u16) -> bool
    requires { Classed h.now classes.now }
    ensures { result ≡ property_ok h.now used.now x }
{
    (x < text_count(h))
        & (get_or(classes, usize::from(x), 0) == 2)
        & all_in(name_at(h, x), Class::NoDot)
        & (get_or(used, usize::from(x), 0) == 0)
}

// How many bytes the properties' names count for, where they keep the rules; marks the names as used.
pub fn properties_ok(h: &[u8], classes: &[u16], used: &mut [u16]) -> Option<usize>
    requires { Classed h.now classes.now }
    ensures { PropertiesTested h.now used.old used.new result }
{
    let mut ok = true;
    let mut bytes: usize = 0;
    for p in 0..property_count(h) {
        let x = name_number(h, p);
        ok = ok & property_ok(h, classes, used, x);
        bytes += usize::from(names_length(h, x));
        put(used, usize::from(x), 1);
    }
    if ok { Some(bytes) } else { None }
}
