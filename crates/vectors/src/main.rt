// Runs the steps of the file `script` and writes what each call answers, a line each. A step is a letter, a number and byte 10;
// where the letter asks for a text, that many bytes and byte 10 follow:
//   R, r  the register call on the text, r with a buffer one byte short
//   Q, q  the query call on the text and the held register, q with a buffer one byte short
//   A     the ask call, with a buffer of that many bytes
//   H, K  every byte of the held register, or of the held query, becomes that number
#![tactic(auto)]

mod steps; // steps.rt: the script, taken apart

use call_ask::ask;
use call_query::query;
use call_register::register;
use language::Refusal;
use program_files::{fail, read_file};
use query_core::QUERY_BYTES;
use register_form::{REGISTER_BYTES, page_count};
use std::io;
use std::process::ExitCode;
use steps::step_at;
use text::part;

// Writes a word, a number and the end of the line.
fn write_line(rt: &impl Print, word: &str, n: usize) -> io::Result<()> {
    println!(rt; "{word} {n}")
}

// Writes how many pages are marked, and the places of those that are.
fn write_places(rt: &impl Print, count: usize, marks: &[u8]) -> io::Result<()> {
    print!(rt; "pages {count}")?;
    for (i, mark) in marks.iter().enumerate() {
        if *mark == 1 {
            print!(rt; " {i}")?;
        }
    }
    println!(rt; "")
}

// The number of what a call refuses, 0 where it refuses nothing.
fn number_of(answer: Result<(), Refusal>) -> usize {
    match answer {
        Ok(()) => 0,
        Err(refusal) => usize::from(refusal.number()),
    }
}

// The ask call, with a buffer of so many bytes.
fn ask_step(
    rt: &impl Print,
    held_query: &[u8],
    held_register: &[u8],
    room: usize,
) -> io::Result<()> {
    let mut marks = [0u8; 256];
    let lent = &mut marks[..room.min(256)];
    match ask(held_query, held_register, lent) {
        Ok(n) => write_places(rt, n, lent),
        Err(refusal) => write_line(rt, "refused", usize::from(refusal.number())),
    }
}

// The register call, and the number of pages of what it accepts.
fn register_step(rt: &impl Print, words: &[u8], held: &mut [u8]) -> io::Result<()> {
    match register(words, held) {
        Ok(()) => write_line(rt, "register 0 pages", usize::from(page_count(held))),
        Err(refusal) => write_line(rt, "register", usize::from(refusal.number())),
    }
}

// The register call and the query call, with buffers one byte short.
fn register_short(words: &[u8]) -> usize {
    let mut held = [0u8; REGISTER_BYTES - 1];
    number_of(register(words, &mut held))
}

fn query_short(held: &[u8], words: &[u8]) -> usize {
    let mut asked = [0u8; QUERY_BYTES - 1];
    number_of(query(held, words, &mut asked))
}

// One step.
fn perform(
    rt: &impl Print,
    letter: u8,
    number: usize,
    words: &[u8],
    held: &mut [u8],
    asked: &mut [u8],
) -> io::Result<()> {
    match letter {
        b'R' => register_step(rt, words, held)?,
        b'r' => write_line(rt, "register", register_short(words))?,
        b'Q' => write_line(rt, "query", number_of(query(held, words, asked)))?,
        b'q' => write_line(rt, "query", query_short(held, words))?,
        b'A' => ask_step(rt, asked, held, number)?,
        b'H' => held.fill((number % 256) as u8),
        b'K' => asked.fill((number % 256) as u8),
        _ => write_line(rt, "no step", number)?,
    }
    Ok(())
}

// All steps.
fn perform_all(
    rt: &impl Print,
    script: &[u8],
    held: &mut [u8],
    asked: &mut [u8],
) -> io::Result<()> {
    let mut at: usize = 0; // a step tells where the next begins, so that no range serves
    while at < script.len() {
        let step = step_at(script, at);
        let words = part(script, step.start, step.len);
        perform(rt, step.letter, step.number, words, held, asked)?;
        at = step.next;
    }
    Ok(())
}

fn main(rt: HostRuntime) -> ExitCode {
    let mut file = [0u8; 131072];
    let mut held = [0u8; REGISTER_BYTES];
    let mut asked = [0u8; QUERY_BYTES];
    match read_file(&rt, b"script", &mut file) {
        Ok(n) => match perform_all(&rt, part(&file, 0, n), &mut held, &mut asked) {
            Ok(()) => ExitCode::SUCCESS,
            Err(reason) => fail(&rt, "standard output", reason),
        },
        Err(reason) => fail(&rt, "script", reason),
    }
}
