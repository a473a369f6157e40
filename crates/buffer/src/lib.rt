// Numbers and strings in the bytes of a buffer: read from any place, with zeros behind the end, and written as far as there is room.
#![tactic(auto)]

ghost use Rattle.std.specs.Prelude.{◌≡◌, [], ◌∷◌, ◌⊎◌, ◌+◌, ◌≤◌, length};
ghost use Rattle.buffer.specs.Numbers.{two_bytes, eight_bytes, two_at, eight_at, zeros as zeros_of};
ghost use Rattle.buffer.specs.Tests.{zeros_at, zeros_to};
ghost use Rattle.buffer.specs.Writing.{written};
ghost use Rattle.text.specs.Bytes.{part as part_from};

use tables::get_or;
use text::part;

// The number in two bytes, the low byte first, and in eight.
pub fn two_at(h: &[u8], i: usize) -> u16
    ensures { result ≡ two_at h.now i }
{
    if h.len() < 2 {
        return u16::from(get_or(h, i, 0));
    }
    if h.len() - 2 < i {
        return u16::from(get_or(h, i, 0));
    }
    u16::from(h[i]) + 256 * u16::from(h[i + 1])
}

pub fn eight_at(h: &[u8], i: usize) -> u64
    ensures { result ≡ eight_at h.now i }
{
    if h.len() <= i {
        return 0;
    }
    let a = u64::from(two_at(h, i));
    let b = u64::from(two_at(h, i + 2));
    let c = u64::from(two_at(h, i + 4));
    let d = u64::from(two_at(h, i + 6));
    a + 65536 * (b + 65536 * (c + 65536 * d))
}

// Whether all bytes are 0: whether their bits put together are. It never stops before the end, so that a compiler takes many bytes
// at a time.
fn are_zeros(s: &[u8]) -> bool
    ensures { result ≡ zeros_to s.now (length s.now) }
{
    let mut bits: u8 = 0;
    for &b in s {
        bits |= b;
    }
    bits == 0
}

// The 256 bytes from a place on. That they are there is asked and not tested, so that the compiler knows the size.
fn block(s: &[u8], at: usize) -> &[u8]
    requires { at + 256 ≤ length s.now }
    ensures { result.now ≡ part_from s.now at 256 }
{
    &s[at..at + 256]
}

// Whether the n bytes from a place on are 0. In blocks of a size that the compiler knows, which it goes through without a loop.
pub fn zeros(h: &[u8], from: usize, n: usize) -> bool
    ensures { result ≡ zeros_at h.now from n }
{
    let s = part(h, from, n);
    let blocks = s.len() / 256;
    for k in 0..blocks {
        if !are_zeros(block(s, 256 * k)) {
            return false;
        }
    }
    are_zeros(part(s, 256 * blocks, s.len() % 256))
}

// Writes a byte, where there is room.
pub fn put_byte(h: &mut [u8], at: usize, b: u8)
    ensures { h.new ≡ written h.old at (b ∷ []) }
{
    if at < h.len() {
        h[at] = b;
    }
}

// Writes a number below 65,536 as two bytes, and any as eight.
pub fn put_two(h: &mut [u8], at: usize, n: usize)
    ensures { h.new ≡ written h.old at (two_bytes n) }
{
    if h.len() <= at {
        return;
    }
    put_byte(h, at, (n % 256) as u8);
    put_byte(h, at + 1, (n / 256 % 256) as u8);
}

pub fn put_eight(h: &mut [u8], at: usize, n: u64)
    ensures { h.new ≡ written h.old at (eight_bytes n) }
{
    if h.len() <= at {
        return;
    }
    let a = n as usize;
    let b = a / 65536;
    let c = b / 65536;
    let d = c / 65536;
    put_two(h, at, a);
    put_two(h, at + 2, b);
    put_two(h, at + 4, c);
    put_two(h, at + 6, d);
}

// Writes bytes that there is room for. No test stands in the loop, so that a compiler takes many bytes at a time; the library's
// `copy_from_slice` calls memmove here, for strings of a few bytes.
fn put_all(h: &mut [u8], at: usize, v: &[u8])
    requires { at + length v.now ≤ length h.old }
    ensures { h.new ≡ written h.old at v.now }
{
    for i in 0..v.len() {
        h[at + i] = v[i];
    }
}

// Writes a string's bytes, as far as there is room.
pub fn put_bytes(h: &mut [u8], at: usize, v: &[u8])
    ensures { h.new ≡ written h.old at v.now }
{
    if h.len() <= at {
        return;
    }
    let n = v.len().min(h.len() - at);
    put_all(h, at, &v[..n]);
}

// Writes n zeros at the front.
pub fn clear(h: &mut [u8], n: usize)
    ensures { h.new ≡ written h.old 0 (zeros_of n) }
{
    let end = n.min(h.len());
    h[..end].fill(0);
}
