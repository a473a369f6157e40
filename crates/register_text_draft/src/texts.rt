// Writing texts behind those that the tables hold, and the codes of values. What has no room is not written.
ghost use Rattle.std.specs.Prelude.{◌≡◌, List, [], ◌∷◌, ◌+◌, ◌%◌, ◌≤◌, ◌<◌, length, set};
ghost use Rattle.names.specs.Names.{composed_name};
ghost use Rattle.values.specs.Names.{reference, composed_reference, identifier};
ghost use Rattle.values.specs.Values.{Value, link, read_value, kind_code};
ghost use Rattle.register_form.specs.Dictionary.{PropertyRow, PageRow, labelled};
ghost use Rattle.register_form.specs.Encoding.{identifier_text, value_texts};
ghost use Rattle.register_text_draft.specs.Drafting.{code_in};
ghost use Rattle.register_text_draft.specs.Sizes.{Spaced};
ghost use Rattle.register_text_draft.specs.Tables.{Ended, Pushed};
ghost use Rattle.register_text_draft.specs.Lent.{SameTexts};

use super::TextTable;
use buffer::put_bytes;
use names::put_composed;
use tables::{narrow, next, put};
use text::part;
use values::{Kind, read_scalar, split_reference};

// The lowest 8 bits of a number.
pub fn byte(n: usize) -> u8
    ensures { result ≡ n % 256 }
{
    (n % 256) as u8
}

impl TextTable<'_> {
    // Ends a text: what it has of a namespace and of a name, and its length before both.
    fn end_text(&mut self, a: usize, b: usize)
        requires { (a < 65536) × (b < 65536) }
        ensures ended { Ended self.old a b self.new }
        ensures same_slices { SameTexts self.old self.new }
    {
        let m = usize::from(self.count);
        put(self.starts, m, u32::from(self.end));
        put(self.lens, m, narrow(1 + a + b));
        self.count = next(self.count);
        self.end = narrow(usize::from(self.end) + 1 + a + b);
    }

    // Adds a text, of a namespace and a name.
    pub fn push_text(&mut self, space: &[u8], name: &[u8])
        ensures pushed { length space.now ≤ 64 → Pushed self.old (labelled space.now name.now ∷ []) self.new }
        ensures same_slices { SameTexts self.old self.new }
    {
        let first = usize::from(self.end);
        let a = usize::from(narrow(space.len()));
        let b = usize::from(narrow(name.len()));
        put(self.heap, first, byte(a));
        put_bytes(self.heap, first + 1, space);
        put_bytes(self.heap, first + 1 + a, name);
        self.end_text(a, b);
    }

    // Adds the text of a namespace and a name, both composed where they then lie.
    fn push_names(&mut self, space: &[u8], name: &[u8])
        ensures pushed { length (composed_name space.now) ≤ 64 → Pushed self.old (labelled (composed_name space.now) (composed_name name.now) ∷ []) self.new }
        ensures same_slices { SameTexts self.old self.new }
    {
        let first = usize::from(self.end);
        let a = usize::from(narrow(put_composed(self.heap, first + 1, space)));
        put(self.heap, first, byte(a));
        let b = usize::from(narrow(put_composed(self.heap, first + 1 + a, name)));
        self.end_text(a, b);
    }

    // Adds the text of the link that v writes, its names composed.
    fn push_link(&mut self, v: &[u8])
        ensures pushed { Spaced (link (identifier (composed_reference (reference v.now)))) → Pushed self.old (identifier_text (identifier (composed_reference (reference v.now))) ∷ []) self.new }
        ensures same_slices { SameTexts self.old self.new }
    {
        let split = split_reference(v);
        let name = part(v, split.article.start, split.article.len);
        match split.namespace {
            Some(n) => self.push_names(part(v, n.start, n.len), name),
            None => self.push_names(part(v, 0, 0), name),
        }
    }

    // Adds the text of the value of a kind that v writes, if it has one.
    pub fn push_value(&mut self, kind: Kind, v: &[u8])
        ensures pushed { (w : Value) → read_value kind v.now ≡ Some w → Spaced w → Pushed self.old (value_texts w) self.new }
        ensures same_slices { SameTexts self.old self.new }
    {
        match kind {
            Kind::Page => self.push_link(v),
            Kind::Scalar(_) => (),
            Kind::String => self.push_text(part(v, 0, 0), v),
        }
    }
}

// The code of the value of a kind that v writes, whose text, if it has one, is text n.
pub fn value_code(kind: Kind, v: &[u8], n: u16) -> u64
    ensures { (w : Value) → read_value kind v.now ≡ Some w → result ≡ code_in n w }
{
    match kind {
        Kind::Page => u64::from(n),
        Kind::Scalar(k) => read_scalar(k, v).unwrap_or(0),
        Kind::String => u64::from(n),
    }
}
