// Parts of a list, written one after the other as far as there is room.
ghost use Rattle.std.specs.Prelude.{ℕ, ◌+◌, ◌<◌, ◌≡◌, [], ◌∷◌};
ghost use Rattle.program_listing.specs.Listing.{decimal, name_line};
ghost use Rattle.program_listing.specs.Appends.{Appends};

// Writes a byte, and answers the place behind it.
pub fn put_byte(out: &mut [u8], at: usize, b: u8) -> usize
    ensures { Appends out.old at (b ∷ []) out.new result }
{
    if out.len() <= at {
        return at;
    }
    out[at] = b;
    at + 1
}

// Writes bytes, and answers the place behind them.
pub fn put(out: &mut [u8], at: usize, part: &[u8]) -> usize
    ensures { Appends out.old at part.now out.new result }
{
    let mut to = at;
    for &b in part {
        to = put_byte(out, to, b);
    }
    to
}

// The digit of a number below 10.
fn digit(n: usize) -> u8
    ensures { n < 10 → result ≡ 48 + n }
{
    b'0' + (n % 10) as u8
}

// Writes a number below 1,000 in decimal.
pub fn put_decimal(out: &mut [u8], at: usize, n: usize) -> usize
    ensures { n < 1000 → Appends out.old at (decimal n) out.new result }
{
    if n < 10 {
        return put_byte(out, at, digit(n));
    }
    if n < 100 {
        let next = put_byte(out, at, digit(n / 10));
        return put_byte(out, next, digit(n % 10));
    }
    let next = put_byte(out, at, digit(n / 100 % 10));
    let last = put_byte(out, next, digit(n / 10 % 10));
    put_byte(out, last, digit(n % 10))
}

// Writes a page's line: place, space, namespace, colon, article name.
pub fn put_line(out: &mut [u8], at: usize, i: usize, namespace: &[u8], article: &[u8]) -> usize
    ensures { i < 1000 → Appends out.old at (name_line i namespace.now article.now) out.new result }
{
    let a = put_decimal(out, at, i);
    let b = put_byte(out, a, b' ');
    let c = put(out, b, namespace);
    let d = put_byte(out, c, b':');
    let e = put(out, d, article);
    put_byte(out, e, b'\n')
}
