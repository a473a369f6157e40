// The list of the marked pages, and a refusal.
ghost use Rattle.std.specs.Prelude.{◌≡◌, ℕ};
ghost use Rattle.program_listing.specs.Answering.{AppendsPage, AppendsLines, AppendsList, AppendsRefusal};

use crate::parts::{put, put_byte, put_decimal, put_line};
use register_form::{REGISTER_BYTES, page_count};
use register_form_view::{article_at, namespace_at};
use tables::get_or;
use text::part;

// Writes the line of the page in place i where its mark is 1.
fn put_page(out: &mut [u8], at: usize, h: &[u8], i: u16, mark: u8) -> usize
    ensures { AppendsPage h.now i mark out.old at out.new result }
{
    if mark != 1 {
        return at;
    }
    let namespace = namespace_at(h, i);
    let article = article_at(h, i);
    put_line(out, at, usize::from(i), namespace, article)
}

// Writes the lines of the marked pages among the first n.
fn put_lines(out: &mut [u8], at: usize, h: &[u8], marks: &[u8], n: u16) -> usize
    ensures { AppendsLines h.now marks.now n out.old at out.new result }
{
    let mut to = at;
    for i in 0..n {
        let mark = get_or(marks, usize::from(i), 0);
        to = put_page(out, to, h, i, mark);
    }
    to
}

// Writes the word, the count and the lines of the marked pages of a held register.
pub fn put_list(out: &mut [u8], held: &[u8], count: usize, marks: &[u8]) -> usize
    ensures { AppendsList held.now count marks.now out.old out.new result }
{
    let h = part(held, 0, REGISTER_BYTES);
    let n = page_count(h);
    let a = put(out, 0, b"pages ");
    let b = put_decimal(out, a, count);
    let c = put_byte(out, b, b'\n');
    put_lines(out, c, h, marks, n)
}

// Writes the word and the number of a refusal.
pub fn put_refusal(out: &mut [u8], n: usize) -> usize
    ensures { AppendsRefusal n out.old out.new result }
{
    let a = put(out, 0, b"refused ");
    let b = put_decimal(out, a, n);
    put_byte(out, b, b'\n')
}
