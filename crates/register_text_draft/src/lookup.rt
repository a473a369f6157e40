// A property by its name.
ghost use Rattle.std.specs.Prelude.{◌≡◌};
ghost use Rattle.register_text_draft.specs.Lookup.{found_in, property_found};

use register_text_entries::table::item_at;
use register_text_verdict::Declared;
use register_text_verdict::checks::is_declared;
use tables::narrow;
use text::{part, same_bytes};
use values::Kind;

// The kind that the first m of a list of rows declare x with, and the place of the row that does.
pub fn property_place(s: &[u8], t: &[u16], rows: &[u16], m: usize, x: &[u8]) -> Option<(Kind, u16)>
    ensures { result ≡ property_found (found_in s.now t.now rows.now m x.now) }
{
    for k in 0..m {
        if rows.len() <= k {
            return None;
        }
        let item = item_at(t, usize::from(rows[k]));
        let name = part(s, item.first.start, item.first.len);
        if is_declared(Declared::Property, item.tag) & same_bytes(name, x) {
            return Some((item.kind, narrow(k)));
        }
    }
    None
}
