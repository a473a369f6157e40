// The rules for the bytes of names and values, in a table, so that a text is gone over once for both.
ghost use Rattle.std.specs.Prelude.{◌≡◌};
ghost use Rattle.values.specs.ByteRules.{rule_table, RuledOut, name_class};

use crate::{has_bare_ends, is_sized};
use names::own_form::all_paired;
use tables::get_or;

// A digit for each byte: 0 where a name may have it by itself, 1 where a composed name may have it in a pair, 2 where only a value may,
// 4 where neither may.
pub fn byte_rules() -> [u8; 256]
    ensures { result ≡ rule_table }
{
    *b"4444444444444444444444444444444400420000000000000000000000204040000000000000000000000000000404020000000000000000000000000002420411111111111111111111111111111111111111111111111111111111111111112211112222222222222222222222222222222222222222222222222222222222"
}

// The digits of all bytes by a table, their bits put together.
fn ruled_out<'a>(rules: &'a [u8], s: &'a [u8]) -> u8
    ensures { RuledOut rules.now s.now result }
{
    let mut out: u8 = 0;
    for &b in s {
        out |= get_or(rules, usize::from(b), 0);
    }
    out % 16
}

// 2 for a composed name, 1 for a value that is none, 0 for any other text. ASCII is gone over once.
pub fn name_class<'a>(rules: &'a [u8], s: &'a [u8]) -> u16
    ensures { rules.now ≡ rule_table → result ≡ name_class s.now }
{
    let fit = is_sized(s) & has_bare_ends(s);
    if !fit {
        return 0;
    }
    let first = get_or(s, 0, 0);
    let out = ruled_out(rules, s);
    let begun = !((first == b'!') | (first == b'~') | (first == b'+'));
    if begun & (out < 1) {
        return 2;
    }
    if begun & (out < 2) {
        if all_paired(s) {
            return 2;
        }
        return 1;
    }
    if (out < 4) & (first != b'~') { 1 } else { 0 }
}
