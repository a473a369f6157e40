// Reading a file into a buffer, and saying of one why it cannot be read.
#![tactic(auto)]

ghost use Rattle.std.specs.Prelude.{length};
ghost use Rattle.program_files.specs.Reads.{Within};

use std::fs::File;
use std::process::ExitCode;
use std::rt::Files;
use std::{io, str};

// One read behind the first bytes of a buffer.
fn read_behind<F: io::Read>(file: &mut F, buf: &mut [u8], done: usize) -> io::Result<usize>
    ensures { Within done (length buf.old) result }
{
    if buf.len() < done {
        return Err(io::Error::from(io::ErrorKind::InvalidInput));
    }
    file.read(&mut buf[done..])
}

// The file of a name, which is text.
fn file_named<R: Files>(rt: &R, path: &[u8]) -> io::Result<R::File> {
    match str::from_utf8(path) {
        Ok(name) => File::open(rt, name),
        Err(_) => Err(io::Error::from(io::ErrorKind::InvalidInput)),
    }
}

// Reads a file until it ends or the buffer is full: how many bytes there are, or the system's reason why it cannot be read.
pub fn read_file<R: Files>(rt: &R, path: &[u8], buf: &mut [u8]) -> io::Result<usize>
    ensures { Within 0 (length buf.old) result }
{
    let mut file = file_named(rt, path)?;
    let mut done: usize = 0; // each read tells how far it came, so that no range serves
    while done < buf.len() {
        let n = read_behind(&mut file, buf, done)?;
        if n == 0 {
            return Ok(done);
        }
        done += n;
    }
    Ok(done)
}

// Writes a line to standard error: what failed, a colon and the system's reason.
pub fn fail(rt: &impl Eprint, what: &str, reason: io::Error) -> ExitCode {
    let _ = eprintln!(rt; "{what}: {reason}");
    ExitCode::FAILURE
}
