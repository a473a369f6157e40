// Names compared by the numbers of their texts, which ascend: a name's place among them is looked up once.
ghost use Rattle.std.specs.Prelude.{◌≡◌, [], ◌∷◌, ◌+◌, ◌*◌};
ghost use Rattle.text.specs.Bytes.{numbers, order_of};
ghost use Rattle.register_form.specs.Dictionary.{name_of};
ghost use Rattle.register_form.specs.Form.{text_at};
ghost use Rattle.register_form_view.specs.declared.Index.TheVariants.{Texts as TextIndex};
ghost use Rattle.register_form_view.specs.Ranges.{Ranked, Keyed, RankOf, ConstantRank, TestRank};

use crate::ranges::{compare_entry, entry_count, find};
use crate::{Index, Rank, ValueTest};
use query_core::Constant;
use register_form::name_at;
use std::cmp::Ordering;
use text::{compare, part};

// How many texts have no namespace: they begin with 0.
fn plain_count(h: &[u8]) -> u16
    ensures { Ranked h.now TextIndex (1 ∷ []) result }
{
    let key = [1u8; 1];
    find(h, Index::Texts, &key)
}

// The number to which 1 + 2 n stands as text n stands to that of the name x.
fn name_key(h: &[u8], x: &[u8]) -> u64
    ensures { Keyed h.now x.now result }
{
    let m = find(h, Index::Names, x);
    let below = 2 * u64::from(m);
    if entry_count(h, Index::Names) <= m {
        return below;
    }
    if compare_entry(h, Index::Names, m, x).is_eq() {
        below + 1
    } else {
        below
    }
}

// A rank that tells nothing.
pub fn no_rank() -> Rank
    ensures { result.plain ≡ 0 }
{
    Rank { plain: 0, key: 0 }
}

// The rank of the name x for a number of comparisons; for few it is not worth looking up.
pub fn rank_of(h: &[u8], x: &[u8], uses: u16) -> Rank
    ensures { RankOf h.now x.now result }
{
    if uses < 24 {
        return no_rank();
    }
    Rank {
        plain: plain_count(h),
        key: name_key(h, x),
    }
}

// The rank of a constant's string, which lies in q.
fn constant_rank(h: &[u8], w: Constant, q: &[u8], uses: u16) -> Rank
    ensures { ConstantRank h.now q.now w result }
{
    match w {
        Constant::Scalar(_, _) => no_rank(),
        Constant::String(p) => rank_of(h, part(q, p.start, p.len), uses),
    }
}

// The rank of a test's string or article name, which lies in q.
pub fn rank_for(h: &[u8], test: ValueTest, q: &[u8], uses: u16) -> Rank
    ensures { TestRank h.now q.now test result }
{
    match test {
        ValueTest::Constant(_, w) => constant_rank(h, w, q, uses),
        ValueTest::Reference(_, split) => {
            let p = split.article;
            rank_of(h, part(q, p.start, p.len), uses)
        }
    }
}

// How the name of text n stands to that of the rank, where the rank tells.
pub fn order_by(rank: Rank, n: u16) -> Ordering
    ensures { result ≡ numbers (1 + 2 * n) rank.key }
{
    (1 + 2 * u64::from(n)).cmp(&rank.key)
}

// How the name of text n stands to x.
pub fn compare_name(h: &[u8], n: u16, x: &[u8]) -> Ordering
    ensures { result ≡ order_of (name_of (text_at h.now n)) x.now }
{
    compare(name_at(h, n), x)
}
