// A name judged and composed, by a table that is lent.
ghost use Rattle.std.specs.Prelude.{◌≡◌};
ghost use Rattle.names.specs.Steps.{IsTable, NamePut};

use super::own_form::own_front;
use super::table::Table;
use super::{Lent, compose_from, has_name_shape};
use buffer::put_bytes;

// Judges a name and writes its composed form: how long that is, 0 where the bytes are no name. The tables are lent, so that they are not
// made anew for each name. It is compiled into its callers, as compose_from is.
#[inline(always)]
pub fn put_name(
    places: &[u8],
    letters: &[u16],
    marks: &[u16],
    codes: &[u16],
    h: &mut [u8],
    at: u16,
    s: &[u8],
) -> usize
    ensures { IsTable places.now letters.now marks.now codes.now → NamePut s.now h.old at h.new result }
{
    if !has_name_shape(s) {
        return 0;
    }
    let start = usize::from(at);
    let front = own_front(s);
    if front == s.len() {
        put_bytes(h, start, s);
        return front;
    }
    let lent = Lent {
        places,
        letters,
        marks,
        codes,
    };
    compose_from(&lent, h, start, s, front)
}

impl Table {
    // The same by the table.
    pub fn put_name(&self, h: &mut [u8], at: u16, s: &[u8]) -> usize
        ensures { NamePut s.now h.old at h.new result }
    {
        let lent = self.lent();
        put_name(lent.places, lent.letters, lent.marks, lent.codes, h, at, s)
    }
}
