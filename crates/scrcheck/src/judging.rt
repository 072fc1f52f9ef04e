// The program itself, over any input and output: the bytes that stand at the one judged, the verdict written to the other.
ghost use Rattle.scrcheck.specs.Prints.{Judges};

use crate::input::read_to_end;
use std::io;
use std::io::{Read, Write};
use std::process::ExitCode;
use thiserror::Error;

// How the program ends: all is done; the set is refused; there is no verdict, or not all of it; the set passes, but not all events are done. The number is
// the exit status.
#[derive(Clone, Copy, PartialEq, Eq)]
pub enum Status {
    Done = 0,
    Refused = 1,
    NoVerdict = 2,
    Stopped = 3,
}

impl From<Status> for ExitCode {
    fn from(status: Status) -> ExitCode {
        ExitCode::from(status as u8)
    }
}

// Why there is no verdict, or not all of it.
#[derive(Debug, Drop, Error)]
pub enum Fault {
    #[error("standard input can't be read to its end: no verdict ({0})")]
    Input(io::Error),
    #[error("standard output can't be written: the verdict is not complete ({0})")]
    Output(io::Error),
}

// By what is printed: only PASS has a P, and only REFUSE has an R. `report` hands out the text and its length, and what it promises speaks of the text: to
// carry the verdict besides it would be a second answer, of which it would have to be shown that it says the same.
fn status_of(text: &[u8]) -> Status {
    if !text.contains(&b'P') {
        Status::Refused
    } else if text.contains(&b'R') {
        Status::Stopped
    } else {
        Status::Done
    }
}

// The first 8,192 words are looked at. What stands beyond them is ignored, a broken word too.
pub fn judge<R: Read, W: Write>(input: &mut R, output: &mut W) -> Result<Status, Fault>
    ensures { Judges result (R.remaining input.old) (W.contents output.old) (W.contents output.new) }
{
    let mut bytes = [0u8; report::MAX_INPUT];
    let n = read_to_end(input, &mut bytes).map_err(Fault::Input)?;
    let mut text = [0u8; report::MAX_OUTPUT];
    let end = report::report(&bytes[..n], &mut text);
    output.write_all(&text[..end]).map_err(Fault::Output)?;
    Ok(status_of(&text[..end]))
}
