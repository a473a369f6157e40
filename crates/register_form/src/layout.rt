// The layout of a held register, docs/LAYOUT.md.

// The limits of a register, and how many texts it has at most.
pub const MOST_PROPERTIES: u16 = 64;

pub const MOST_PAGES: u16 = 256;

pub const MOST_FORMS: u16 = 2048;

pub const MOST_TEXTS: u16 = MOST_PROPERTIES + MOST_PAGES + MOST_FORMS;

pub const MOST_BYTES: usize = 32768;

// Room for so many rows; pages and texts have one more number, where the last ends.
pub const PROPERTY_ROOM: usize = MOST_PROPERTIES as usize;

pub const PAGE_ROOM: usize = MOST_PAGES as usize;

pub const FORM_ROOM: usize = MOST_FORMS as usize;

pub const TEXT_ROOM: usize = MOST_TEXTS as usize;

pub const PAGE_START_ROOM: usize = PAGE_ROOM + 1;

// How many bytes the regions have; of the form starts and the text starts without the first, which is 0. As every place in a register
// these are numbers of 16 bits.
pub const PROPERTY_BYTES: u16 = 3 * MOST_PROPERTIES;

pub const PAGE_BYTES: u16 = 2 * MOST_PAGES;

pub const FORM_BYTES: u16 = 2 * MOST_FORMS;

pub const TERM_BYTES: u16 = 9 * MOST_FORMS;

pub const TEXT_END_BYTES: u16 = 2 * MOST_TEXTS;

pub const TEXT_BYTES: u16 = MOST_BYTES as u16 + MOST_TEXTS;

// Room for the bytes of texts.
pub const TEXT_BYTE_ROOM: usize = TEXT_BYTES as usize;

// Where the regions begin. The first name stands behind the first kind, the first code behind the first group, and a page's forms
// or a text end where the next begin.
pub const PROPERTIES: u16 = 8;

pub const PROPERTY_NAMES: u16 = PROPERTIES + 1;

pub const PAGES: u16 = PROPERTIES + PROPERTY_BYTES;

pub const FORM_STARTS: u16 = PAGES + PAGE_BYTES;

pub const FORM_ENDS: u16 = FORM_STARTS + 2;

pub const FORMS: u16 = FORM_ENDS + PAGE_BYTES;

pub const TERMS: u16 = FORMS + FORM_BYTES;

pub const CODES: u16 = TERMS + 1;

pub const TEXT_STARTS: u16 = TERMS + TERM_BYTES;

pub const TEXT_ENDS: u16 = TEXT_STARTS + 2;

pub const TEXTS: u16 = TEXT_ENDS + TEXT_END_BYTES;

pub const REGISTER_BYTES: usize = TEXTS as usize + TEXT_BYTE_ROOM;

// A draft has room for the rows of two registers.
pub const DRAFT_PROPERTIES: usize = 2 * PROPERTY_ROOM;

pub const DRAFT_PAGES: usize = 2 * PAGE_ROOM;

pub const DRAFT_PAGE_STARTS: usize = DRAFT_PAGES + 1;

pub const DRAFT_FORMS: usize = 2 * FORM_ROOM;

pub const DRAFT_TERM_BYTES: usize = 9 * DRAFT_FORMS;

pub const DRAFT_TEXTS: usize = 2 * TEXT_ROOM;

pub const DRAFT_TEXT_BYTES: usize = 2 * TEXT_BYTE_ROOM;
