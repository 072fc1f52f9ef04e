// All that the program prints, made by one function of the bytes of its input.
#![tactic(auto)]

mod input; // bytes to words
pub mod lines; // lines put into lent bytes
mod parts; // parts of lists of words
mod runs; // the lines of a run
mod text; // bytes and decimal numbers at the end of a text
mod text_lines; // lines at the end of a text

ghost use Rattle.std.specs.Prelude.{◌≡◌, ℕ, ◌+◌, ◌≤◌, ◌++◌, length, take};
ghost use Rattle.std.proofs.lemmas.List.Edits.{sets};
ghost use Rattle.arrayvec.specs.ArrayVec.{array_vec_len};
ghost use Rattle.meaning.specs.Check.{check_of};
ghost use Rattle.meaning.specs.Program.{printed, program_of};
ghost use Rattle.scr.specs.Answers.{verdict_says};
ghost use Rattle.report.specs.Room as Room;

use crate::runs::put_run;
use crate::text::{MAX_DIGITS, SMALL_DIGITS, STATE_DIGITS};
use crate::text_lines::{put_pass, put_refusal};
use arrayvec::ArrayVec;
use scr::{Counts, Refusal};
use word::MAX_EVENTS;

// The words of the input that are looked at, and their bytes.
const MAX_INPUT_WORDS: usize = 8192;

pub const MAX_INPUT: usize = MAX_INPUT_WORDS * 4;

// Bytes that are enough, as specs/Room has them: for a blank and a number, for the line of a set or a refusal, and for the short line of an
// event of a run.
const FIELD: usize = MAX_DIGITS + 1;

pub const LINE: usize = 6 + 7 * FIELD + 1;

const EVENT_LINE: usize = 3 * (SMALL_DIGITS + 1) + (STATE_DIGITS + 1);

// The longest output is PASS, a line for each event of a run, and REFUSE.
pub const MAX_OUTPUT: usize = LINE + MAX_EVENTS * EVENT_LINE + LINE;

// The line of the verdict of a set, and the lines of its run. "A set that check refuses is not run."
fn put_set<const N: usize>(
    text: &mut ArrayVec<u8, N>,
    verdict: Result<Counts, Refusal>,
    set: &[u32],
    events: &[u32],
)
    requires { (array_vec_len text.old + Room.output ≤ N) × (verdict_says verdict ≡ check_of set.now) }
    ensures { text.new.items ≡ text.old.items ++ printed set.now events.now (check_of set.now) }
{
    match verdict {
        Ok(c) => {
            put_pass(text, c);
            put_run(text, set, events)
        }
        Err(q) => put_refusal(text, q),
    }
}

// The same at the front of `out`; how many bytes it is. Not inlined, so that the text is on the stack only here, when check no longer needs it.
#[inline(never)]
fn write(out: &mut [u8], verdict: Result<Counts, Refusal>, set: &[u32], events: &[u32]) -> usize
    requires { (Room.output ≤ length out.old) × (verdict_says verdict ≡ check_of set.now) }
    ensures out_after { out.new ≡ sets out.old 0 (printed set.now events.now (check_of set.now)) }
    ensures value { result ≡ length (printed set.now events.now (check_of set.now)) }
    ensures upper_bound { result ≤ Room.output }
{
    let mut text = ArrayVec::<u8, MAX_OUTPUT>::new();
    put_set(&mut text, verdict, set, events);
    out[..text.len()].copy_from_slice(&text);
    text.len()
}

// What the program prints, at the front of `out`, whose other bytes stay as they were; how many bytes it is. "Words from the first of kind 11 on are
// events."
pub fn report(bytes: &[u8], out: &mut [u8]) -> usize
    requires { Room.output ≤ length out.old }
    ensures out_after { out.new ≡ sets out.old 0 (program_of bytes.now) }
    ensures value { result ≡ length (program_of bytes.now) }
    ensures upper_bound { (result ≤ length out.new) × (result ≡ length (take result out.new)) }
{
    let words = input::words_of(bytes);
    let (set, events) = words.split_at(parts::first_event(&words));
    write(out, scr::check(set), set, events)
}
