// The terms of a draft with the new numbers of their texts.
ghost use Rattle.std.specs.Prelude.{◌≡◌, ◌*◌, ◌<◌, ◌^◌, ℕ, get_or, set};
ghost use Rattle.register_form.specs.Dictionary.{term_of};
ghost use Rattle.register_form.specs.Form.{joined};
ghost use Rattle.buffer.specs.Writing.{written};
ghost use Rattle.register_form_assembly.specs.Terms.{code_for, code_by, terms_by, Filling};

use buffer::{put_byte, put_eight};
use tables::{get_or, put};
use values::{Kind, kind_from};

// The new number of the text that a code names.
fn number_at(numbers: &[u16], c: u64) -> u64
    ensures { result ≡ get_or numbers.now c 0 }
{
    u64::from(get_or(numbers, c as usize, 0))
}

fn code_for(kind: Kind, numbers: &[u16], c: u64) -> u64
    ensures { result ≡ code_for kind numbers.now c }
{
    match kind {
        Kind::Page | Kind::String => number_at(numbers, c),
        Kind::Scalar(_) => c,
    }
}

// The new code of a form.
fn code_by(kinds: &[u8], numbers: &[u16], group: u8, c: u64) -> u64
    ensures { result ≡ code_by kinds.now numbers.now group c }
{
    if group == 0 {
        return number_at(numbers, c);
    }
    code_for(
        kind_from(get_or(kinds, usize::from(group - 1), 0)),
        numbers,
        c,
    )
}

// Writes term f, nine bytes.
fn put_term(table: &mut [u8], f: usize, group: u8, code: u64)
    ensures { table.new ≡ written table.old f (term_of group code) }
{
    if table.len() <= f {
        return;
    }
    put_byte(table, f, group);
    put_eight(table, f + 1, code);
}

// Writes the terms of the first n forms. Of the elements of a slice only a function that takes it knows the range: hence the clause on
// the codes.
pub fn put_terms(
    kinds: &[u8],
    numbers: &[u16],
    groups: &[u8],
    codes: &[u64],
    n: u16,
    table: &mut [u8],
)
    ensures terms { table.new ≡ written table.old 0 (joined (terms_by kinds.now numbers.now groups.now codes.now n)) }
    ensures codes { (i : ℕ) → get_or codes.now i 0 < 2 ^ 64 }
{
    for f in 0..n {
        let k = usize::from(f);
        let group = get_or(groups, k, 0);
        put_term(
            table,
            9 * k,
            group,
            code_by(kinds, numbers, group, get_or(codes, k, 0)),
        );
    }
}

// Writes where each of the first n terms begins.
pub fn put_term_starts(t: &mut [u32], n: u16)
    ensures { Filling (λ i. 9 * i) t.old n t.new }
{
    for i in 0..n {
        put(t, usize::from(i), 9 * u32::from(i));
    }
}

// Writes of each of the first n places that it has its own number. Two loops of a line, over tables of two types.
pub fn put_own(t: &mut [u16], n: u16)
    ensures { Filling (λ i. i) t.old n t.new }
{
    for i in 0..n {
        put(t, usize::from(i), i);
    }
}
