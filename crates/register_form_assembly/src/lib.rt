// What the writer of a held register makes of a draft: its terms with the new numbers of their texts, the forms that each page
// keeps, and the bytes of names and values.
#![tactic(auto)]

use dictionary::Texts;

pub mod counting; // counting.rt: the bytes of names and values
pub mod keeping; // keeping.rt: the forms that each page keeps
pub mod terms; // terms.rt: terms with new codes

// A draft in tables, which may have room for more: the counts say how many texts, properties, pages and terms there are. A property has
// the byte of its kind and a text for its name; page i has a text for its identifier, and the terms that uses has from firsts i up to the
// next; a term has a group and a code.
#[derive(Clone, Copy)]
pub struct Draft<'a> {
    pub texts: Texts<'a>,
    pub text_count: u16,
    pub kinds: &'a [u8],
    pub names: &'a [u16],
    pub property_count: u16,
    pub identifiers: &'a [u16],
    pub firsts: &'a [u16],
    pub page_count: u16,
    pub uses: &'a [u16],
    pub groups: &'a [u8],
    pub codes: &'a [u64],
    pub term_count: u16,
}

// What numbering items found: those that stand for the texts, in the order of these, how many they are, and the number of each item.
#[derive(Clone, Copy)]
pub struct Order<'a> {
    pub refs: &'a [u16],
    pub count: u16,
    pub numbers: &'a [u16],
}
