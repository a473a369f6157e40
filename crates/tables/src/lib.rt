// Tables of numbers: reading with something behind the end, writing where there is room, and narrower numbers.
#![tactic(auto)]

ghost use Rattle.std.specs.Prelude.{◌≡◌, ◌+◌, ◌%◌, get_or, set};

// The lowest 16 and 32 bits of a number, and one more in 16. A TryFrom would refuse what is larger. They are two, since one over both
// types would be told each type's modulus.
pub fn narrow(n: usize) -> u16
    ensures { result ≡ n % 65536 }
{
    (n % 65536) as u16
}

pub fn narrow_start(n: usize) -> u32
    ensures { result ≡ n % 4294967296 }
{
    (n % 4294967296) as u32
}

pub fn next(n: u16) -> u16
    ensures { result ≡ (n + 1) % 65536 }
{
    narrow(usize::from(n) + 1)
}

// What stands at a place of a table, and something else past its end.
pub fn get_or<T: Copy>(t: &[T], i: usize, behind: T) -> T
    ensures { result ≡ get_or t.now i behind }
{
    if i < t.len() { t[i] } else { behind }
}

// Writes at a place of a table, where there is room.
pub fn put<T: Copy>(t: &mut [T], at: usize, v: T)
    ensures { t.new ≡ set t.old at v }
{
    if at < t.len() {
        t[at] = v;
    }
}
