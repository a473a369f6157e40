// What one row, or two, must keep.
ghost use Rattle.std.specs.Prelude.{◌≡◌, true, false};
ghost use Rattle.values.specs.Values.{read_value};
ghost use Rattle.language.specs.Answer.{found};
ghost use Rattle.language.specs.RegisterText.{breaks_rule, same_declared};
ghost use Rattle.register_text_entries.specs.Items.{entry_in};
ghost use Rattle.register_text_entries.specs.Table.{entry_at};
ghost use Rattle.register_text_verdict.specs.Checks.{declares_tag, kinds_in, fails};
ghost use Rattle.register_text_verdict.specs.declared.Check.TheVariants.{Undeclared, Unfit};

use super::{Check, Declared};
use names::{is_name, is_namespace, is_property_name};
use register_text_entries::table::item_at;
use register_text_entries::{Item, Tag};
use text::{part, same_bytes};
use values::{Kind, is_reference, is_value, read_scalar};

// Whether an entry declares what is looked for.
pub fn is_declared(what: Declared, tag: Tag) -> bool
    ensures { result ≡ declares_tag what tag }
{
    match what {
        Declared::Property => tag == Tag::Prop,
        Declared::Page => tag == Tag::Page,
    }
}

// The kind that the first m of a list of rows declare x with. The draft of a text asks for the place too, in a crate above this one, by
// a definition of its own.
pub fn property_kind(s: &[u8], t: &[u16], rows: &[u16], m: usize, x: &[u8]) -> Option<Kind>
    ensures { result ≡ kinds_in s.now t.now rows.now m x.now }
{
    for k in 0..m {
        if rows.len() <= k {
            return None;
        }
        let item = item_at(t, usize::from(rows[k]));
        let name = part(s, item.first.start, item.first.len);
        if is_declared(Declared::Property, item.tag) & same_bytes(name, x) {
            return Some(item.kind);
        }
    }
    None
}

// Whether a value is fit for a kind.
pub fn value_fits(kind: Kind, v: &[u8]) -> bool
    ensures { result ≡ found (read_value kind v.now) (λ w. true) false }
{
    match kind {
        Kind::Page => is_reference(v),
        Kind::Scalar(k) => read_scalar(k, v).is_some(),
        Kind::String => true,
    }
}

// Whether a name, namespace or value of an entry breaks its rule.
pub fn breaks_rule(s: &[u8], item: Item) -> bool
    ensures { result ≡ breaks_rule (entry_in s.now item) }
{
    let a = part(s, item.first.start, item.first.len);
    let b = part(s, item.second.start, item.second.len);
    match item.tag {
        Tag::Prop => !is_property_name(a),
        Tag::Page => !(is_namespace(a) & is_name(b)),
        Tag::Cat => !is_name(a),
        Tag::Val => !(is_property_name(a) & is_value(b)),
        Tag::Close => false,
    }
}

// Whether an entry is a val form whose property is not declared.
pub fn is_undeclared(s: &[u8], t: &[u16], props: &[u16], m: usize, item: Item) -> bool
    ensures { result ≡ fails Undeclared (kinds_in s.now t.now props.now m) (entry_in s.now item) }
{
    let x = part(s, item.first.start, item.first.len);
    (item.tag == Tag::Val) && property_kind(s, t, props, m, x).is_none()
}

// Whether an entry is a val form whose value is unfit for its property's kind.
pub fn is_unfit(s: &[u8], t: &[u16], props: &[u16], m: usize, item: Item) -> bool
    ensures { result ≡ fails Unfit (kinds_in s.now t.now props.now m) (entry_in s.now item) }
{
    if item.tag != Tag::Val {
        return false;
    }
    let x = part(s, item.first.start, item.first.len);
    let v = part(s, item.second.start, item.second.len);
    match property_kind(s, t, props, m, x) {
        Some(kind) => !value_fits(kind, v),
        None => true,
    }
}

// Whether the entry of a row fails a check.
pub fn row_fails(s: &[u8], t: &[u16], props: &[u16], m: usize, i: usize, check: Check) -> bool
    ensures { result ≡ fails check (kinds_in s.now t.now props.now m) (entry_at s.now t.now i) }
{
    let item = item_at(t, i);
    match check {
        Check::Rule => breaks_rule(s, item),
        Check::Undeclared => is_undeclared(s, t, props, m, item),
        Check::Unfit => is_unfit(s, t, props, m, item),
    }
}

// Whether two entries declare the same property, or the same page.
pub fn are_alike(s: &[u8], a: Item, b: Item) -> bool
    ensures { result ≡ same_declared (entry_in s.now a) (entry_in s.now b) }
{
    if a.tag != b.tag {
        return false;
    }
    let same_first = same_bytes(
        part(s, a.first.start, a.first.len),
        part(s, b.first.start, b.first.len),
    );
    match a.tag {
        Tag::Prop => same_first,
        Tag::Page => {
            same_first
                && same_bytes(
                    part(s, a.second.start, a.second.len),
                    part(s, b.second.start, b.second.len),
                )
        }
        Tag::Cat | Tag::Val | Tag::Close => false,
    }
}
