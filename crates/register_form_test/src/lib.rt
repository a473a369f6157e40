// Whether bytes are the form of a register: layout, texts, terms and pages, each gone over once.
#![tactic(auto, unfolding(crate::specs::Stages::are_rows_padded, crate::specs::Stages::kind_test, crate::specs::Stages::start_at, crate::specs::Stages::rise_test, crate::specs::Stages::text_test, crate::specs::Stages::text_length, crate::specs::Stages::property_ok, crate::specs::Stages::spelled_length, crate::specs::Stages::judged_in, crate::specs::Stages::judged_text, crate::specs::Stages::judged_value, crate::specs::Stages::judged_group, crate::specs::Stages::judged_term, crate::specs::Stages::no_text, crate::specs::Stages::form_bytes, crate::specs::Stages::form_count, crate::specs::Stages::page_ok, crate::specs::Stages::used_test, register_form::specs::Tests::rises, register_form::specs::Tests::is_counted, register_form::specs::Tests::is_padded, register_form::specs::Tests::is_laid, register_form::specs::Tests::is_labelled, crate::specs::Loops::is_set, register_form::specs::Form::form_start, register_form::specs::Form::text_start))]

ghost use Rattle.std.specs.Prelude.{◌≡◌};
ghost use Rattle.register_form_test.specs.Opening.{Opens, Tries};

pub mod layout; // layout.rt: the counts, the tables of starts and the zeros behind each region
mod pages; // pages.rt: pages and their forms, and that each text and term is used
pub mod terms; // terms.rt: terms
mod texts; // texts.rt: texts and properties

use layout::is_laid;
use pages::{pages_ok, terms_used, texts_used};
use register_form::layout::{FORM_ROOM, MOST_BYTES, TEXT_ROOM};
use terms::terms_ok;
use texts::{properties_ok, texts_ok};

// Whether a term keeps the rules, the number of the text that it names, and how many bytes it counts for. No Option of the rest, and
// 65,535 for no text, past every table: the loop over terms never stops, and writes both of a term that breaks a rule too.
#[derive(Clone, Copy)]
pub struct Judged {
    pub ok: bool,
    pub text: u16,
    pub bytes: u16,
}

// Whether the bytes are the form of a register; writes the places of its pages into a table that is all 0.
fn try_open(h: &[u8], places: &mut [u16]) -> bool
    ensures { Tries h.now places.old places.new result }
{
    if !is_laid(h) {
        return false;
    }
    let mut classes = [0u16; TEXT_ROOM];
    let mut used = [0u16; TEXT_ROOM];
    let mut shown = [0u16; FORM_ROOM];
    let mut last = [0u16; FORM_ROOM];
    if !texts_ok(h, &mut classes) {
        return false;
    }
    let Some(names) = properties_ok(h, &classes, &mut used) else {
        return false;
    };
    if !terms_ok(h, &classes, &mut used, &mut shown) {
        return false;
    }
    let Some(held) = pages_ok(h, &classes, &shown, &mut last, places) else {
        return false;
    };
    terms_used(h, &last) & texts_used(h, &used, places) & (names + held <= MOST_BYTES)
}

// Whether the bytes are the form of a register; where they are, a table of 2,368 numbers gets for each text that is the identifier of
// a page its place and 1 more, and 0 for any other.
pub fn open(h: &[u8], places: &mut [u16]) -> bool
    ensures { Opens h.now places.old places.new result }
{
    if places.len() != TEXT_ROOM {
        let mut table = [0u16; TEXT_ROOM];
        return try_open(h, &mut table);
    }
    places.fill(0);
    try_open(h, places)
}
