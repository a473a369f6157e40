// The rows of the regions of a held register, written into a buffer as far as there is room.
#![tactic(auto)]

ghost use Rattle.std.specs.Prelude.{◌≡◌};
ghost use Rattle.values.specs.Values.{kind_code, kind_from};
ghost use Rattle.buffer.specs.Writing.{written};
ghost use Rattle.register_form.specs.Form.{property_bytes};
ghost use Rattle.register_form_bytes.specs.Writing.{row_of, four_bytes};

use buffer::{put_byte, put_two};

pub mod regions; // regions.rt: the rows of the regions

// The byte of the kind that a byte tells.
fn kind_code(b: u8) -> u8
    ensures { result ≡ kind_code (kind_from b) }
{
    if b < 3 { b } else { 3 }
}

// Writes a property: its kind, and the number of its name.
pub fn put_property(h: &mut [u8], at: usize, kind: u8, name: u16)
    ensures { h.new ≡ written h.old at (property_bytes (row_of kind name)) }
{
    if h.len() <= at {
        return;
    }
    put_byte(h, at, kind_code(kind));
    put_two(h, at + 1, usize::from(name));
}

// Writes the four counts at the front.
pub fn put_counts(h: &mut [u8], properties: u16, pages: u16, terms: u16, texts: u16)
    ensures { h.new ≡ written h.old 0 (four_bytes properties pages terms texts) }
{
    put_two(h, 0, usize::from(properties));
    put_two(h, 2, usize::from(pages));
    put_two(h, 4, usize::from(terms));
    put_two(h, 6, usize::from(texts));
}
