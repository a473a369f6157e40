// The script, taken apart.
ghost use Rattle.std.specs.Prelude.{ℕ, ◌<◌, ◌≤◌, length};

use tables::get_or;

// A step: its text is `len` bytes from `start` on, and the next step begins at `next`.
#[derive(Clone, Copy)]
pub struct Step {
    pub letter: u8,
    pub number: usize,
    pub start: usize,
    pub len: usize,
    pub next: usize,
}

// A number of at most six digits, and where it ends.
#[derive(Clone, Copy)]
pub struct Number {
    pub value: usize,
    pub end: usize,
}

pub fn number_at(s: &[u8], at: usize) -> Number
    ensures { (result.value ≤ 1000254) × (at ≤ result.end) }
{
    let mut value: usize = 0;
    for i in at..s.len() {
        let b = s[i];
        if (b < b'0') | (b'9' < b) | (99999 < value) {
            return Number { value, end: i };
        }
        value = 10 * value + usize::from(b - b'0');
    }
    Number {
        value,
        end: at.max(s.len()),
    }
}

// The letters whose steps have a text.
fn has_text(letter: u8) -> bool {
    matches!(letter, b'R' | b'r' | b'Q' | b'q')
}

// The step at a place.
pub fn step_at(s: &[u8], at: usize) -> Step
    ensures { at < length s.now → at < result.next }
{
    if s.len() <= at {
        return Step {
            letter: 0,
            number: 0,
            start: 0,
            len: 0,
            next: s.len(),
        };
    }
    let letter = get_or(s, at, 0);
    let number = number_at(s, at + 1);
    let value = number.value;
    let end = number.end;
    if s.len() < end {
        return Step {
            letter: 0,
            number: 0,
            start: 0,
            len: 0,
            next: s.len(),
        };
    }
    if has_text(letter) {
        return Step {
            letter,
            number: value,
            start: end + 1,
            len: value,
            next: end + value + 2,
        };
    }
    Step {
        letter,
        number: value,
        start: end + 1,
        len: 0,
        next: end + 1,
    }
}
