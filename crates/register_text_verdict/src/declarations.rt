// What rows declare, each in one part of the text: a property's name; a page's namespace and name, with `" "` between.
ghost use Rattle.std.specs.Prelude.{◌≡◌, true};
ghost use Rattle.register_text_entries.specs.Items.{entry_in};
ghost use Rattle.register_text_verdict.specs.Names.{Closed, Joins, Pieces, Names};

use register_text_entries::table::{item_at, put};
use register_text_entries::{Item, Tag};
use tables::{get_or, narrow};
use text::{Class, Span, scan, word_at};

// Whether a part has no quotation mark and the word w stands behind it.
fn is_closed(s: &[u8], p: Span, w: &[u8]) -> bool
    ensures { result ≡ true → Closed s.now p w.now }
{
    let start = p.start;
    let end = scan(s, start, Class::Quotable);
    (end - start == p.len) & word_at(s, end, w)
}

// The part from the start of a to the end of b, where `" "` stands between them.
fn joined(s: &[u8], a: Span, b: Span) -> Option<Span>
    ensures { Joins s.now a b result }
{
    if !is_closed(s, a, b"\" \"") {
        return None;
    }
    let next = a.start + a.len + 3;
    if b.start != next {
        return None;
    }
    if s.len() - next < b.len {
        return None;
    }
    Some(Span {
        start: a.start,
        len: a.len + 3 + b.len,
    })
}

// The part that says what an entry declares.
fn piece_of(s: &[u8], item: Item) -> Option<Span>
    ensures { Pieces s.now (entry_in s.now item) result }
{
    let name = item.first;
    match item.tag {
        Tag::Prop => {
            if is_closed(s, name, b"\"") {
                Some(name)
            } else {
                None
            }
        }
        Tag::Page => joined(s, name, item.second),
        Tag::Cat | Tag::Val | Tag::Close => None,
    }
}

// Lists the parts that say what the first m of a list of rows declare. False where there is no room or one of them is not in one part.
// The tables come one by one: a struct of both would be made for this call alone.
pub fn list_names(
    s: &[u8],
    t: &[u16],
    rows: &[u16],
    m: usize,
    starts: &mut [u32],
    lens: &mut [u16],
) -> bool
    ensures { result ≡ true → Names s.now t.now rows.now m starts.new lens.new }
{
    if (65535 < s.len()) | (starts.len() < m) | (lens.len() < m) {
        return false;
    }
    for k in 0..m {
        let Some(p) = piece_of(s, item_at(t, usize::from(get_or(rows, k, 0)))) else {
            return false;
        };
        tables::put(starts, k, u32::from(narrow(p.start)));
        put(lens, k, p.len);
    }
    true
}
