// The rows of a register's table: which are properties and pages, what each must keep, and the verdict 1 to 7 on a text.
#![tactic(auto)]

ghost use Rattle.std.specs.Prelude.{◌≡◌, ◌&&◌, ◌≤◌, length};
ghost use Rattle.text.specs.Bytes.{Bytes};
ghost use Rattle.language.specs.Refusals.{number_of};
ghost use Rattle.register_text_verdict.specs.Checks.{Collected, some_fails, lowest, verdict_of, row_room, ReadsRows, JudgesTyped, Prepared, Judges, Room};
ghost use Rattle.register_text_verdict.specs.declared.Check.TheVariants.{Undeclared};

pub mod checks; // checks.rt: what one row, or two, must keep
pub mod declarations; // declarations.rt: what rows declare, as parts of the text
pub mod tests; // tests.rt: some row fails, two rows are alike, how many are inner forms

use checks::is_declared;
use language::Refusal;
use register_text_entries::read_all;
use register_text_entries::table::{item_at, put};
use tests::{count_inner, some_row, twice};

// What a row declares, and what it is tested for. Enums and no closures: the definitions match on them, so that a clause is one equation.
#[derive(Clone, Copy, Debug, PartialEq, Eq)]
pub enum Declared {
    Property,
    Page,
}

// The tests of refusals 3, 5 and 6.
#[derive(Clone, Copy, Debug, PartialEq, Eq)]
pub enum Check {
    Rule,
    Undeclared,
    Unfit,
}

// How many properties and pages rows declare. The lists of rows stand in tables with more room, whose counts go with them: a slice cut to
// each would move what is behind it out of the clauses, which speak of whole tables.
#[derive(Clone, Copy)]
pub struct Judged {
    pub props: usize,
    pub pages: usize,
}

// Lists the rows that declare properties, or pages, and counts them.
pub fn collect(t: &[u16], n: usize, what: Declared, out: &mut [u16]) -> usize
    ensures { Collected what t.now n out.old out.new result }
{
    let mut m: usize = 0;
    for i in 0..n {
        put(out, m, i);
        m += usize::from(is_declared(what, item_at(t, i).tag));
    }
    m
}

// The first refusal whose condition holds.
pub fn lowest_of(
    declared_twice: bool,
    undeclared: bool,
    unfit: bool,
    over_limit: bool,
) -> Result<(), Refusal>
    ensures { number_of result ≡ lowest declared_twice undeclared unfit over_limit }
{
    if declared_twice {
        return Err(Refusal::DeclaredTwice);
    }
    if undeclared {
        return Err(Refusal::UndeclaredValue);
    }
    if unfit {
        return Err(Refusal::UnfitValue);
    }
    if over_limit {
        return Err(Refusal::OverLimit);
    }
    Ok(())
}

// Whether some val has no declared property. Such a val is unfit too, so that most texts are not gone through again.
fn some_undeclared(s: &[u8], t: &[u16], n: usize, props: &[u16], np: usize, unfit: bool) -> bool
    ensures { result ≡ (unfit && some_fails Undeclared s.now t.now n props.now np) }
{
    if !unfit {
        return false;
    }
    some_row(s, t, n, props, np, Check::Undeclared)
}

// The verdict on the first n rows, of which np are properties and ng are pages.
pub fn judge_rows(
    s: &[u8],
    t: &[u16],
    n: usize,
    props: &[u16],
    np: usize,
    pages: &[u16],
    ng: usize,
) -> Result<(), Refusal>
    ensures { number_of result ≡ verdict_of s.now t.now n props.now np pages.now ng }
{
    let alike = twice(s, t, props, np) | twice(s, t, pages, ng);
    let unfit = some_row(s, t, n, props, np, Check::Unfit);
    let undeclared = some_undeclared(s, t, n, props, np, unfit);
    let over = (64 < np) | (256 < ng) | (2048 < count_inner(t, n));
    lowest_of(alike, undeclared, unfit, over)
}

// Reads a text into the rows of a table: how many, or refusal 1 or 2.
pub fn read_rows(s: &[u8], t: &mut [u16]) -> Result<usize, Refusal>
    ensures { row_room ≤ length t.old → ReadsRows s.now t.new result }
{
    if 32768 < s.len() {
        return Err(Refusal::TextTooLong);
    }
    read_all(s, t).ok_or(Refusal::TextUnread)
}

// The same, and judges its names and values as typed: the lowest refusal of 1 to 3.
pub fn judge_typed(s: &[u8], t: &mut [u16]) -> Result<usize, Refusal>
    ensures { row_room ≤ length t.old → JudgesTyped s.now t.new result }
{
    let n = read_rows(s, t)?;
    let none = [0u16; 1]; // the rule asks for no property
    if some_row(s, t, n, &none, 0, Check::Rule) {
        return Err(Refusal::RuleBroken);
    }
    Ok(n)
}

// How many of the first n rows, whose names are composed, are properties and pages, which is then in the tables, and the verdict on them:
// the lowest refusal of 4 to 7.
pub fn judge(
    s: &[u8],
    t: &[u16],
    n: usize,
    props: &mut [u16],
    pages: &mut [u16],
) -> (Judged, Result<(), Refusal>)
    ensures { Room props.old pages.old → (typed : Bytes) → Prepared typed s.now t.now n → Judges typed t.now n props.new pages.new result.0 result.1 }
{
    let np = collect(t, n, Declared::Property, props);
    let ng = collect(t, n, Declared::Page, pages);
    let judged = Judged {
        props: np,
        pages: ng,
    };
    (judged, judge_rows(s, t, n, props, np, pages, ng))
}
