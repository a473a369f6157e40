// The tests of terms.
ghost use Rattle.std.specs.Prelude.{◌≡◌, length};
ghost use Rattle.values.specs.Spelling.{spell_scalar};
ghost use Rattle.register_form.specs.Form.{term_at};
ghost use Rattle.register_form_test.specs.Loops.{climbs};
ghost use Rattle.register_form_test.specs.Stages.{no_text, spelled_length, judged_in, judged_text, judged_value, judged_group, judged_term, term_test, TermsTested};

use crate::Judged;
use crate::texts::text_length;
use register_form::layout::TERMS;
use register_form::{code_at, group_at, kind_at, property_count, term_at, term_count, text_count};
use tables::{get_or, put};
use text::{compare, key_at};
use values::{Kind, Scalar, in_range, scalar_length};

// How long the text x of a class is, spelled.
fn spelled_length(h: &[u8], class: u16, x: u16) -> u16
    ensures { result ≡ spelled_length h.now class x }
{
    let n = text_length(h, x);
    if class == 3 { n } else { n.saturating_sub(1) }
}

// A term that names the text x of a class, which is to be of a range.
fn judge_in(h: &[u8], low: u16, high: u16, class: u16, x: u16) -> Judged
    ensures { result ≡ judged_in h.now low high class x }
{
    let bytes = spelled_length(h, class, x);
    Judged {
        ok: (low <= class) & (class <= high) & (bytes <= 64),
        text: x,
        bytes,
    }
}

// A term that names no text.
fn no_text(ok: bool, bytes: u16) -> Judged
    ensures { result ≡ no_text ok bytes }
{
    Judged {
        ok,
        text: 65535,
        bytes,
    }
}

// A term whose code is a text's number.
fn judge_text(h: &[u8], classes: &[u16], low: u16, high: u16, code: u64) -> Judged
    ensures { result ≡ judged_text h.now classes.now low high code }
{
    if u64::from(text_count(h)) <= code {
        return no_text(false, 0);
    }
    let x = code as u16;
    judge_in(h, low, high, get_or(classes, usize::from(x), 0), x)
}

// How long the value of a scalar kind is that a code tells.
fn scalar_bytes(k: Scalar, code: u64) -> u16
    ensures { result ≡ length (spell_scalar k code) }
{
    scalar_length(k, code) as u16
}

// A value of a kind.
fn judge_value(h: &[u8], classes: &[u16], kind: Kind, code: u64) -> Judged
    ensures { result ≡ judged_value h.now classes.now kind code }
{
    match kind {
        Kind::Page => judge_text(h, classes, 2, 3, code),
        Kind::Scalar(k) => no_text(in_range(k, code), scalar_bytes(k, code)),
        Kind::String => judge_text(h, classes, 1, 2, code),
    }
}

// A term of a group.
fn judge_group(h: &[u8], classes: &[u16], group: u16, code: u64) -> Judged
    ensures { result ≡ judged_group h.now classes.now group code }
{
    if group == 0 {
        return judge_text(h, classes, 2, 2, code);
    }
    if group <= property_count(h) {
        return judge_value(h, classes, kind_at(h, group - 1), code);
    }
    no_text(false, 0)
}

fn judge_term(h: &[u8], classes: &[u16], f: u16) -> Judged
    ensures { result ≡ judged_term h.now classes.now f }
{
    judge_group(h, classes, u16::from(group_at(h, f)), code_at(h, f))
}

// Whether the term before term f, if there is one, is less. Their first eight bytes tell, but for two that differ in the ninth alone;
// where both lie within the bytes the compiler loads eight at once.
fn term_climbs(h: &[u8], f: u16) -> bool
    ensures { result ≡ climbs (term_at h.now) f }
{
    if f == 0 {
        return true;
    }
    let before = f - 1;
    let at = usize::from(TERMS) + 9 * usize::from(before);
    if at + 18 <= h.len() {
        let x = key_at(h, at);
        let y = key_at(h, at + 9);
        if x != y {
            return x < y;
        }
    }
    compare(term_at(h, before), term_at(h, f)).is_lt()
}

// Whether terms keep the rules and ascend; marks the texts that they name as used, and writes how many bytes each counts for.
pub fn terms_ok(h: &[u8], classes: &[u16], used: &mut [u16], shown: &mut [u16]) -> bool
    ensures { TermsTested h.now classes.now used.old shown.old used.new shown.new result }
{
    let mut ok = true;
    for f in 0..term_count(h) {
        let judged = judge_term(h, classes, f);
        ok = ok & (judged.ok & term_climbs(h, f));
        put(used, usize::from(judged.text), 1);
        put(shown, usize::from(f), judged.bytes);
    }
    ok
}
