// Booleans: how they are read, and how long they are, spelled.
ghost use Rattle.std.specs.Prelude.{◌≡◌, map, eqb, length};
ghost use Rattle.text.specs.Bytes.{same};
ghost use Rattle.text.specs.Table.{bit};
ghost use Rattle.values.specs.Values.{map_option, lower, read_boolean};
ghost use Rattle.values.specs.Spelling.{spell_boolean};

// Whether the bytes, their letters small, are the word.
fn is_word(s: &[u8], w: &[u8]) -> bool
    ensures { result ≡ same (map lower s.now) w.now }
{
    (s.len() == w.len())
        && s.iter()
            .map(|b| b.to_ascii_lowercase())
            .zip(w.iter())
            .all(|(a, &b)| a == b)
}

// The boolean that the bytes write: 1 for true, 0 for false.
pub fn read_boolean(s: &[u8]) -> Option<u64>
    ensures { result ≡ map_option bit (read_boolean s.now) }
{
    if is_word(s, b"true") | is_word(s, b"yes") | is_word(s, b"1") {
        return Some(1);
    }
    if is_word(s, b"false") | is_word(s, b"no") | is_word(s, b"0") {
        Some(0)
    } else {
        None
    }
}

// How long `true` or `false` is; any code but 1 is that of `false`.
pub fn boolean_length(c: u64) -> usize
    ensures { result ≡ length (spell_boolean (eqb c 1)) }
{
    if c == 1 { 4 } else { 5 }
}
