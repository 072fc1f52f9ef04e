// Lines, put into lent bytes from a place on: each is made as a text of its own and copied to its place. Each function gives the place after what it put.
ghost use Rattle.std.specs.Prelude.{◌≡◌, ℕ, ◌+◌, ◌*◌, ◌≤◌, length};
ghost use Rattle.word.specs.Limits as Max;
ghost use Rattle.meaning.specs.Program as P;
ghost use Rattle.scr.specs.Answers.{refusal_says};
ghost use Rattle.report.specs.Text.{Puts};
ghost use Rattle.report.specs.Lines.{counts_of};
ghost use Rattle.report.specs.Room as Room;

use crate::{LINE, text_lines};
use arrayvec::ArrayVec;
use scr::{Counts, Refusal};

// A text has room for the longest line of a set, and no line of an event is as long.
type Line = ArrayVec<u8, LINE>;

#[tactic(auto, using(crate::proofs::Putting::text_put))]
fn put(out: &mut [u8], at: usize, text: &[u8]) -> usize
    requires { at + length text.now ≤ length out.old }
    ensures puts { Puts text.now out.old at out.new result }
    ensures value { result ≡ at + length text.now }
{
    let end = at + text.len();
    out[at..end].copy_from_slice(text);
    end
}

#[tactic(auto, using(crate::proofs::Putting::line_put))]
pub fn put_pass(out: &mut [u8], at: usize, c: Counts) -> usize
    requires { at + Room.line ≤ length out.old }
    ensures puts { Puts (P.pass_line (counts_of c)) out.old at out.new result }
    ensures upper_bound { result ≤ at + Room.line }
{
    let mut text = Line::new();
    text_lines::put_pass(&mut text, c);
    put(out, at, &text)
}

#[tactic(auto, using(crate::proofs::Putting::line_put))]
pub fn put_refusal(out: &mut [u8], at: usize, q: Refusal) -> usize
    requires { at + Room.line ≤ length out.old }
    ensures puts { Puts (P.refuse_line (refusal_says q).0 (refusal_says q).1) out.old at out.new result }
    ensures upper_bound { result ≤ at + Room.line }
{
    let mut text = Line::new();
    text_lines::put_refusal(&mut text, q);
    put(out, at, &text)
}

// A line for each state reached, one by one: there may be any number of them.
pub fn put_events(out: &mut [u8], at: usize, events: &[u32], states: &[u32]) -> usize
    requires { Room.EventsFit at (length states.now) (length out.old) }
    ensures puts { Puts (P.event_lines 0 events.now states.now) out.old at out.new result }
    ensures upper_bound { result ≤ at + length states.now * Room.event }
    ensures short { length states.now ≤ Max.max_events → result ≤ at + length states.now * Room.short_event }
{
    let mut on = at;
    for (i, s) in states.iter().enumerate() {
        let mut text = Line::new();
        text_lines::put_event(&mut text, events, i, *s);
        on = put(out, on, &text);
    }
    on
}
