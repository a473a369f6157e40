// Lists the pages that the query in query.txt selects from the register in register.txt.
#![tactic(auto)]

use program_files::{fail, read_file};
use program_listing::{ANSWER_BYTES, answer};
use std::process::ExitCode;
use std::rt::Files;
use text::part;

// Writes the answer in one piece: no answer is longer than the buffer (`asklist_most` in listing).
fn write_answer(rt: &(impl Print + Eprint), register: &[u8], query: &[u8]) -> ExitCode {
    let mut out = [0u8; ANSWER_BYTES];
    let n = answer(register, query, &mut out);
    match rt.write_all(part(&out, 0, n)) {
        Ok(()) => ExitCode::SUCCESS,
        Err(reason) => fail(rt, "standard output", reason),
    }
}

// Reads the query, one byte past its limit at most.
fn read_query(rt: &(impl Files + Print + Eprint), register: &[u8]) -> ExitCode {
    let mut query = [0u8; 1025];
    match read_file(rt, b"query.txt", &mut query) {
        Ok(n) => write_answer(rt, register, part(&query, 0, n)),
        Err(reason) => fail(rt, "query.txt", reason),
    }
}

// Reads the register, one byte past its limit at most.
fn main(rt: HostRuntime) -> ExitCode {
    let mut register = [0u8; 32769];
    match read_file(&rt, b"register.txt", &mut register) {
        Ok(n) => read_query(&rt, part(&register, 0, n)),
        Err(reason) => fail(&rt, "register.txt", reason),
    }
}
