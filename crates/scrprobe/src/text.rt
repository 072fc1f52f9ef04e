// The lines that tell what an entry answered.
use report::LINE;
use report::lines::{put_pass, put_refusal};
use scr::{Counts, Refusal};
use std::fmt::Display;
use std::io;
use std::io::Write;

// As the program prints it, and a pass likewise.
fn refusal<W: Write>(out: &mut W, why: Refusal) -> io::Result<()> {
    let mut line = [0u8; LINE];
    let end = put_refusal(&mut line, 0, why);
    out.write_all(&line[..end])
}

fn pass<W: Write>(out: &mut W, counts: Counts) -> io::Result<()> {
    let mut line = [0u8; LINE];
    let end = put_pass(&mut line, 0, counts);
    out.write_all(&line[..end])
}

// A name and what was answered, or the refusal.
pub fn answer<W: Write, T: Display + Copy>(
    out: &mut W,
    name: &str,
    answer: Result<T, Refusal>,
) -> io::Result<()> {
    match answer {
        Ok(answered) => writeln!(out, "{name} {answered}"),
        Err(why) => refusal(out, why),
    }
}

// Apart from `answer`, since counts are not printed by themselves.
pub fn verdict<W: Write>(out: &mut W, answer: Result<Counts, Refusal>) -> io::Result<()> {
    match answer {
        Ok(counts) => pass(out, counts),
        Err(why) => refusal(out, why),
    }
}

// All elements in one line, a blank between two.
pub fn list<W: Write, T: Display + Copy>(out: &mut W, elements: &[T]) -> io::Result<()> {
    let mut between = "";
    for element in elements {
        write!(out, "{between}{}", *element)?;
        between = " ";
    }
    writeln!(out)
}
