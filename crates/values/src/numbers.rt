// Numbers: how they are read, and how long they are, spelled.
ghost use Rattle.std.specs.Prelude.{◌≡◌, ◌-◌, ◌^◌, ◌<◌, length};
ghost use Rattle.values.specs.Values.{map_option, read_digits, read_fraction, read_thousandths, read_number, biased};
ghost use Rattle.values.specs.Spelling.{digits, spell_fraction, spell_thousandths, spell_number, number_from};

use tables::get_or;
use text::{Class, all_in, part, scan};

// What is added to a number of thousandths in its code.
const NUMBER_BASE: u64 = 1_000_000_000_000_000_000;

// What a decimal digit counts.
fn digit_of(b: u8) -> u64
    ensures { result ≡ b - 48 }
{
    u64::from(b.saturating_sub(b'0'))
}

// The number that 1 to 15 decimal digits write, as it is.
pub fn read_digits(s: &[u8]) -> Option<u64>
    ensures { result ≡ read_digits s.now }
{
    let fit = (1 <= s.len()) & (s.len() <= 15) & all_in(s, Class::Digit);
    if !fit {
        return None;
    }
    let mut n: u64 = 0;
    for &b in s {
        n = 10 * n + digit_of(b);
    }
    Some(n)
}

// What the last of k digits behind a point counts, in thousandths.
fn last_counts(k: usize) -> u64
    ensures { result ≡ 10 ^ (3 - k) }
{
    match k {
        0 => 1000,
        1 => 100,
        2 => 10,
        _ => 1,
    }
}

// The thousandths that a point and 1 to 3 digits write; nothing writes none.
fn read_fraction(s: &[u8]) -> Option<u64>
    ensures { result ≡ read_fraction s.now }
{
    if s.len() == 0 {
        return Some(0);
    }
    let digits = part(s, 1, s.len());
    if (get_or(s, 0, 0) != b'.') | (3 < digits.len()) {
        return None;
    }
    let n = read_digits(digits)?;
    Some(n * last_counts(digits.len()))
}

// The thousandths that digits and what stands behind them write.
fn read_thousandths(s: &[u8]) -> Option<u64>
    ensures { result ≡ read_thousandths s.now }
{
    let point = scan(s, 0, Class::Digit);
    let n = read_digits(part(s, 0, point))?;
    let m = read_fraction(part(s, point, s.len()))?;
    Some(1000 * n + m)
}

// The number of thousandths that the bytes write, with 10^18 added.
pub fn read_number(s: &[u8]) -> Option<u64>
    ensures { result ≡ map_option biased (read_number s.now) }
{
    if get_or(s, 0, 0) == b'-' {
        let n = read_thousandths(part(s, 1, s.len()))?;
        return Some(NUMBER_BASE - n);
    }
    let n = read_thousandths(s)?;
    Some(NUMBER_BASE + n)
}

// How many decimal digits a number below 10,000 has; 4 for any other.
fn few_digits(n: u64) -> usize
    ensures { n < 10000 → result ≡ length (digits n) }
{
    match n {
        0..=9 => 1,
        10..=99 => 2,
        100..=999 => 3,
        _ => 4,
    }
}

// How many decimal digits a number has. Four are taken off at a time, for as long as there are so many: how often is what is asked.
fn digit_count(n: u64) -> usize
    ensures { result ≡ length (digits n) }
{
    let mut rest = n;
    let mut k: usize = 0;
    while 10000 <= rest {
        rest = rest / 10000;
        k += 4;
    }
    k + few_digits(rest)
}

// How long the digits behind a point are, with it, of less than 1,000 thousandths.
fn fraction_length(n: u64) -> usize
    ensures { result ≡ length (spell_fraction n) }
{
    if n == 0 {
        return 0;
    }
    if n % 100 == 0 {
        return 2;
    }
    if n % 10 == 0 { 3 } else { 4 }
}

// How long a number of thousandths is, spelled.
fn thousandths_length(n: u64) -> usize
    ensures { result ≡ length (spell_thousandths n) }
{
    digit_count(n / 1000) + fraction_length(n % 1000)
}

// How long the number is that a code tells.
pub fn number_length(c: u64) -> usize
    ensures { result ≡ length (spell_number (number_from c)) }
{
    if c < NUMBER_BASE {
        return 1 + thousandths_length(NUMBER_BASE - c);
    }
    thousandths_length(c - NUMBER_BASE)
}
