// The words and pieces of the query text: where they stand, and how a piece reads.
#![tactic(auto)]

ghost use Rattle.std.specs.Prelude.{◌≡◌, ◌+◌, ◌<◌, ◌^◌, not, Some};
ghost use Rattle.text.specs.Bytes.{after as after_word};
ghost use Rattle.text.specs.Parts.{part_of};
ghost use Rattle.values.specs.Names.{reference};
ghost use Rattle.language.specs.Answer.{only_if};
ghost use Rattle.language.specs.RawQuery.{token as token_in, piece_at, ends_head, next_term};
ghost use Rattle.language.specs.QueryText.{is_category, article_of, is_existence, breaks_reference, identifier_of};
ghost use Rattle.query_text_pieces.specs.Places.{from, text_at, rest_of, inner_end, head_at, head_of, last_of, piece_of, moved, SplitsAt, category_told, read_told};

use language::{SurfaceComparator, comparator_at, is_equal, word_length};
use names::{is_name, is_namespace};
use text::{Class, Span, part, same_bytes, scan, trimmed, word_at};
use values::{Split, split_reference};

// A piece by its place: its comparator, and where its text lies.
#[derive(Clone, Copy)]
pub struct Placed {
    pub comparator: SurfaceComparator,
    pub text: Span,
}

// How a piece outside property bodies reads: `namespace:+`, or a reference.
#[derive(Clone, Copy)]
pub enum Read {
    Namespace(Span),
    Reference(SurfaceComparator, Span),
}

// Past the word, where it stands at a place.
pub fn after(s: &[u8], at: usize, w: &[u8]) -> Option<usize>
    ensures { rest_of s.now result ≡ after_word w.now (from s.now at) }
{
    if word_at(s, at, w) {
        Some(at + w.len())
    } else {
        None
    }
}

// Past the word, where it stands behind blanks.
pub fn token(s: &[u8], at: usize, w: &[u8]) -> Option<usize>
    ensures { rest_of s.now result ≡ token_in w.now (from s.now at) }
{
    after(s, scan(s, at, Class::Blank), w)
}

// Where the next term of a conjunction begins.
pub fn next_term(s: &[u8], at: usize) -> Option<usize>
    ensures { rest_of s.now result ≡ next_term (from s.now at) }
{
    if let Some(i) = token(s, at, b"AND") {
        return Some(i);
    }
    if token(s, at, b"[[").is_some() {
        return Some(at);
    }
    if token(s, at, b"<q>").is_some() {
        Some(at)
    } else {
        None
    }
}

// Past the `</q>` that closes a subquery, and past blanks.
pub fn inner_end(s: &[u8], at: usize) -> Option<usize>
    ensures { rest_of s.now result ≡ inner_end (from s.now at) }
{
    let i = token(s, at, b"</q>")?;
    Some(scan(s, i, Class::Blank))
}

// Whether `|`, `<q>` or `]]` stands at a place.
fn ends_head(s: &[u8], at: usize) -> bool
    ensures { result ≡ ends_head (from s.now at) }
{
    word_at(s, at, b"|") | word_at(s, at, b"<q>") | word_at(s, at, b"]]")
}

// Where the `::` of a property body stands.
pub fn head_end(s: &[u8], at: usize) -> Option<usize>
    ensures { result ≡ head_at s.now at }
{
    for i in at..s.len() {
        if word_at(s, i, b"::") {
            return Some(i);
        }
        if ends_head(s, i) {
            return None;
        }
    }
    None
}

// The piece at a place, and the place behind it.
pub fn piece_at(s: &[u8], at: usize) -> (Placed, usize)
    ensures { piece_at (from s.now at) ≡ (piece_of s.now result.0, from s.now result.1) }
{
    let begin = scan(s, at, Class::Blank);
    let comparator = comparator_at(s, begin);
    let start = begin + usize::from(word_length(comparator));
    let end = scan(s, start, Class::Free);
    let text = trimmed(s, start, end - start);
    (Placed { comparator, text }, end)
}

// Where the last name of a head lies.
pub fn last_name(s: &[u8], at: usize, len: usize) -> Span
    ensures { text_at s.now result ≡ last_of (head_of s.now at len) }
{
    let head = part(s, at, len);
    let dot = scan(head, 0, Class::NoDot);
    if dot < head.len() {
        last_name(s, at + dot + 1, len - dot - 1)
    } else {
        trimmed(s, at, len)
    }
}

// Whether a property piece is exactly `+`.
pub fn is_existence(s: &[u8], p: Placed) -> bool
    ensures { result ≡ is_existence (piece_of s.now p) }
{
    is_equal(p.comparator) & same_bytes(part(s, p.text.start, p.text.len), b"+")
}

// The place so far behind a start.
fn moved(start: usize, p: Span) -> Span
    requires { start + p.start < 2 ^ 64 }
    ensures { result ≡ moved start p }
{
    Span {
        start: start + p.start,
        len: p.len,
    }
}

// Where the two sides of a piece's reference lie.
pub fn split_at(s: &[u8], text: Span) -> Split
    ensures { SplitsAt s.now text result }
{
    let split = split_reference(part(s, text.start, text.len));
    let article = moved(text.start, split.article);
    let Some(n) = split.namespace else {
        return Split {
            namespace: None,
            article,
        };
    };
    Split {
        namespace: Some(moved(text.start, n)),
        article,
    }
}

// The category name of a bracket's first piece, by how its reference is split.
pub fn category_of(s: &[u8], p: Placed, split: Split) -> Option<Span>
    ensures { SplitsAt s.now p.text split → category_told s.now result
        ≡ only_if (is_category (piece_of s.now p)) (Some (article_of (reference (part_of s.now p.text)))) }
{
    let n = split.namespace?;
    if is_equal(p.comparator) & same_bytes(part(s, n.start, n.len), b"Category") {
        Some(split.article)
    } else {
        None
    }
}

// How a piece outside property bodies reads, by how its reference is split.
pub fn read_piece(s: &[u8], p: Placed, split: Split) -> Option<Read>
    ensures { SplitsAt s.now p.text split → read_told s.now result
        ≡ only_if (not (breaks_reference (piece_of s.now p))) (Some (identifier_of (piece_of s.now p))) }
{
    let a = split.article;
    let name = part(s, a.start, a.len);
    let named = is_name(name);
    let reference = Read::Reference(p.comparator, p.text);
    let Some(n) = split.namespace else {
        return named.then_some(reference);
    };
    let spaced = is_namespace(part(s, n.start, n.len));
    if is_equal(p.comparator) & same_bytes(name, b"+") {
        spaced.then_some(Read::Namespace(n))
    } else {
        (spaced & named).then_some(reference)
    }
}
