// Lines, written at the end of a text. "Output is decimal, one blank between fields, a line feed after each line."
ghost use Rattle.std.specs.Prelude.{◌≡◌, ◌∷◌, ◌++◌, ℕ, ◌+◌, ◌*◌, ◌<◌, ◌≤◌, length};
ghost use Rattle.arrayvec.specs.ArrayVec.{array_vec_len};
ghost use Rattle.word.specs.Limits as Max;
ghost use Rattle.meaning.specs.Reading.{word};
ghost use Rattle.meaning.specs.Program as P;
ghost use Rattle.scr.specs.Answers.{refusal_says};
ghost use Rattle.report.specs.Lines.{counts_of};
ghost use Rattle.report.specs.Room as Room;

use crate::text::{put, put_number};
use arrayvec::ArrayVec;
use index::word_at;
use scr::telling::tell;
use scr::{Counts, Refusal};
use word::{value, variable};

// A blank, and the number.
fn put_field<const N: usize>(text: &mut ArrayVec<u8, N>, n: u64)
    requires { array_vec_len text.old + Room.field ≤ N }
    ensures puts { text.new.items ≡ text.old.items ++ 32 ∷ P.decimal n }
    ensures upper_bound { array_vec_len text.new ≤ array_vec_len text.old + Room.field }
{
    text.push(b' ');
    put_number(text, n);
}

// A field for each number, and the line feed.
fn put_fields<const N: usize>(text: &mut ArrayVec<u8, N>, numbers: &[u64])
    requires { array_vec_len text.old + (length numbers.now * Room.field + 1) ≤ N }
    ensures puts { text.new.items ≡ text.old.items ++ P.fields numbers.now }
    ensures upper_bound { array_vec_len text.new ≤ array_vec_len text.old + (length numbers.now * Room.field + 1) }
{
    for n in numbers {
        put_field(text, *n);
    }
    text.push(b'\n');
}

#[tactic(auto, using(crate::proofs::Printing::pass_put))]
pub fn put_pass<const N: usize>(text: &mut ArrayVec<u8, N>, c: Counts)
    requires { array_vec_len text.old + Room.line ≤ N }
    ensures puts { text.new.items ≡ text.old.items ++ P.pass_line (counts_of c) }
    ensures upper_bound { array_vec_len text.new ≤ array_vec_len text.old + Room.line }
{
    put(text, b"PASS");
    put_fields(text, &[u64::from(c.states), c.steps, c.assertions as u64]);
}

// The number of the refusal, then what it carries.
pub fn put_refusal<const N: usize>(text: &mut ArrayVec<u8, N>, q: Refusal)
    requires { array_vec_len text.old + Room.line ≤ N }
    ensures puts { text.new.items ≡ text.old.items ++ P.refuse_line (refusal_says q).0 (refusal_says q).1 }
    ensures upper_bound { array_vec_len text.new ≤ array_vec_len text.old + Room.line }
{
    let told = tell(q);
    let carried = told.carried;
    put(text, b"REFUSE");
    put_field(text, u64::from(told.number));
    put_fields(text, &carried[..told.count]);
}

// The line of event i, after which the state is s.
#[tactic(auto, using(crate::proofs::Printing::event_put, crate::proofs::Printing::event_short))]
pub fn put_event<const N: usize>(text: &mut ArrayVec<u8, N>, events: &[u32], i: usize, s: u32)
    requires { array_vec_len text.old + Room.event ≤ N }
    ensures puts { text.new.items ≡ text.old.items ++ P.event_line i (word events.now i) s }
    ensures upper_bound { array_vec_len text.new ≤ array_vec_len text.old + Room.event }
    ensures short { i < Max.max_events → array_vec_len text.new ≤ array_vec_len text.old + Room.short_event }
{
    let w = word_at(events, i);
    put_number(text, i as u64);
    put_fields(
        text,
        &[u64::from(variable(w)), u64::from(value(w)), u64::from(s)],
    );
}

// A line for each state reached.
pub fn put_events<const N: usize>(text: &mut ArrayVec<u8, N>, events: &[u32], states: &[u32])
    requires { Room.EventsFit (array_vec_len text.old) (length states.now) N }
    ensures puts { text.new.items ≡ text.old.items ++ P.event_lines 0 events.now states.now }
    ensures upper_bound { array_vec_len text.new ≤ array_vec_len text.old + length states.now * Room.event }
    ensures short { length states.now ≤ Max.max_events → array_vec_len text.new ≤ array_vec_len text.old + length states.now * Room.short_event }
{
    // A state beyond the events has its line too, with the word 0, so the two lists are not gone through in pairs: pairs end with the shorter list.
    for (i, s) in states.iter().enumerate() {
        put_event(text, events, i, *s);
    }
}
