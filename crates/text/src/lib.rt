// Byte strings: parts of them, their order, the byte classes of the language, words and trimming.
#![tactic(auto)]

ghost use Rattle.std.specs.Prelude.{◌≡◌, ◌+◌, ◌<◌, ◌≤◌, eqb, length, get_or, drop};
ghost use Rattle.text.specs.Bytes.{any, all, same, order_of, span, starts, trim_end, part as part_from};
ghost use Rattle.text.specs.Class.{one_of, in_class};
ghost use Rattle.text.specs.Keys.{key_to};
ghost use Rattle.text.specs.Parts.{Trimmed};

use std::cmp::Ordering;
use tables::get_or;

// The byte classes that a scan goes by. An enum and no closure: the definitions name a class too, so that a clause is one equation.
#[derive(Clone, Copy)]
pub enum Class {
    Blank,
    Free,
    Quotable,
    Name,
    Value,
    Digit,
    NoColon,
    NoDot,
}

// Where a part of a text lies.
#[derive(Clone, Copy)]
pub struct Span {
    pub start: usize,
    pub len: usize,
}

// What there is of the len bytes from start.
pub fn part(s: &[u8], start: usize, len: usize) -> &[u8]
    ensures { result.now ≡ part_from s.now start len }
{
    if s.len() <= start {
        return &s[..0];
    }
    if len <= s.len() - start {
        let end = start + len;
        return &s[start..end];
    }
    &s[start..]
}

// The byte at a place as a wider number, 0 past the end.
pub fn digit(t: &[u8], i: usize) -> u64
    ensures { (result ≡ get_or t.now i 0) × (result < 256) }
{
    u64::from(get_or(t, i, 0))
}

// The key of a string of eight bytes or more, which is compiled to one load.
fn key_of_eight(t: &[u8]) -> u64
    ensures { result ≡ key_to 8 t.now }
{
    let a = 72057594037927936 * digit(t, 0) + 281474976710656 * digit(t, 1);
    let b = 1099511627776 * digit(t, 2) + 4294967296 * digit(t, 3);
    let c = 16777216 * digit(t, 4) + 65536 * digit(t, 5);
    let d = 256 * digit(t, 6) + digit(t, 7);
    a + b + c + d
}

// The key of a string: its first eight bytes as one number, the first counting most, and 0 for what lies behind the end.
pub fn key_of(t: &[u8]) -> u64
    ensures { result ≡ key_to 8 t.now }
{
    if 8 <= t.len() {
        return key_of_eight(t);
    }
    let mut key: u64 = 0;
    for i in 0..8 {
        key = 256 * key + digit(t, i);
    }
    key
}

// The key of what a string has from a place on: one load, where the caller knows that eight bytes are there.
pub fn key_at(s: &[u8], at: usize) -> u64
    ensures { result ≡ key_to 8 (drop at s.now) }
{
    key_of_eight(part(s, at, 8))
}

// How two byte strings stand to one another from a place on, which both have or end at. The strings are mostly short, or differ soon: a
// loop that is compiled into its callers is faster than the library's `cmp`, which prepares for long ones.
fn compare_from(a: &[u8], b: &[u8], from: usize) -> Ordering
    requires { (from ≤ length a.now) × (from ≤ length b.now) }
    ensures { result ≡ order_of (drop from a.now) (drop from b.now) }
{
    for i in from..a.len() {
        if b.len() <= i {
            return Ordering::Greater;
        }
        if a[i] < b[i] {
            return Ordering::Less;
        }
        if b[i] < a[i] {
            return Ordering::Greater;
        }
    }
    if a.len() < b.len() {
        Ordering::Less
    } else {
        Ordering::Equal
    }
}

// The key of the eight bytes from a place on: one load, since that they are there is asked of the caller and not tested.
fn key_in(s: &[u8], at: usize) -> u64
    requires { at + 8 ≤ length s.now }
    ensures { result ≡ key_to 8 (drop at s.now) }
{
    key_of_eight(&s[at..at + 8])
}

// How two byte strings stand to one another. Eight bytes of each are one number while both have so many.
pub fn compare_long(a: &[u8], b: &[u8]) -> Ordering
    ensures { result ≡ order_of a.now b.now }
{
    let blocks = a.len().min(b.len()) / 8;
    for k in 0..blocks {
        let x = key_in(a, 8 * k);
        let y = key_in(b, 8 * k);
        if x != y {
            return x.cmp(&y);
        }
    }
    compare_from(a, b, 8 * blocks)
}

// The same, for strings of which one is often short: it is small, so that a compiler puts it into what calls it.
pub fn compare(a: &[u8], b: &[u8]) -> Ordering
    ensures { result ≡ order_of a.now b.now }
{
    if (8 <= a.len()) & (8 <= b.len()) {
        return compare_long(a, b);
    }
    compare_from(a, b, 0)
}

// Whether two strings of one length have the same bytes. They are mostly short, or differ soon: as with `compare_from`, a loop that is
// compiled into its callers is faster than the library's `==`.
fn all_same(a: &[u8], b: &[u8]) -> bool
    requires { length a.now ≡ length b.now }
    ensures { result ≡ same a.now b.now }
{
    for i in 0..a.len() {
        if a[i] != b[i] {
            return false;
        }
    }
    true
}

// Whether the word w stands at a place.
pub fn word_at(s: &[u8], at: usize, w: &[u8]) -> bool
    ensures { result ≡ starts w.now (drop at s.now) }
{
    let t = part(s, at, w.len());
    if t.len() != w.len() {
        return false;
    }
    all_same(t, w)
}

// Whether two strings have the same bytes. Names in a list are often alike but for their ends: the last byte goes first.
pub fn same_bytes(a: &[u8], b: &[u8]) -> bool
    ensures { result ≡ same a.now b.now }
{
    let n = a.len();
    if n != b.len() {
        return false;
    }
    if n == 0 {
        return true;
    }
    if a[n - 1] != b[n - 1] {
        return false;
    }
    all_same(a, b)
}

// Whether a byte is one of a set's.
pub fn one_of(b: u8, set: &[u8]) -> bool
    ensures { result ≡ any (eqb b) set.now }
{
    set.contains(&b)
}

// Whether a byte is one that neither a name nor a value has.
fn is_mark(b: u8) -> bool
    ensures { result ≡ one_of "[]|<>" b }
{
    (b == b'[') | ((b == b']') | ((b == b'|') | ((b == b'<') | (b == b'>'))))
}

// Whether a byte is one of the others that a name does not have.
fn is_name_mark(b: u8) -> bool
    ensures { result ≡ one_of ":#{}_\"" b }
{
    (b == b':') | ((b == b'#') | ((b == b'{') | ((b == b'}') | ((b == b'_') | (b == b'"')))))
}

// Whether a byte is of a class.
pub fn in_class(class: Class, b: u8) -> bool
    ensures { result ≡ in_class class b }
{
    match class {
        Class::Blank => (b == 32) | (b == 10),
        Class::Free => !is_mark(b),
        Class::Quotable => !((b == 34) | (b == 10)),
        Class::Name => (32 <= b) & (b != 127) & !(is_mark(b) | is_name_mark(b)),
        Class::Value => (32 <= b) & (b != 127) & !(is_mark(b) | (b == b'"')),
        Class::Digit => (48 <= b) & (b <= 57),
        Class::NoColon => b != 58,
        Class::NoDot => b != 46,
    }
}

// The first place from at on whose byte is not of the class.
pub fn scan(s: &[u8], at: usize, class: Class) -> usize
    ensures { result ≡ at + span (in_class class) (drop at s.now) }
{
    if s.len() < at {
        return at;
    }
    for i in at..s.len() {
        if !in_class(class, s[i]) {
            return i;
        }
    }
    s.len()
}

// Whether every byte is of the class.
pub fn all_in(s: &[u8], class: Class) -> bool
    ensures { result ≡ all (in_class class) s.now }
{
    scan(s, 0, class) == s.len()
}

// How long a text is without the blanks at its end.
pub fn end_of(s: &[u8]) -> usize
    ensures { result ≡ length (trim_end s.now) }
{
    for i in (0..s.len()).rev() {
        if !in_class(Class::Blank, s[i]) {
            return i + 1;
        }
    }
    0
}

// The part of s from start, of at most len bytes, without the blanks at both ends.
pub fn trimmed(s: &[u8], start: usize, len: usize) -> Span
    ensures { Trimmed s.now start len result }
{
    if s.len() < start {
        return Span { start: 0, len: 0 };
    }
    let t = part(s, start, len);
    let a = scan(t, 0, Class::Blank);
    let u = part(t, a, t.len());
    Span {
        start: start + a,
        len: end_of(u),
    }
}
