// Conditions, events and rows of a table, judged straight from the words of a set that has been read.
// A formula is judged from its first word on; where it ends is found on the way, so no tree is built and no place is kept. The table of operand
// counts says how many operands follow a word.
#![tactic(auto)]

mod rows; // the rows of a table

ghost use Rattle.std.specs.Prelude.{◌≡◌, ◌<◌, length};
ghost use Rattle.word.specs.Fields as W;
ghost use Rattle.meaning.specs.Reading.{test_of};
ghost use Rattle.meaning.specs.Steps.{true_in};
ghost use Rattle.judge.specs.Judge.{joined_by, judge_by, judge_at, changed_by, change_at, judge_event_at};

use index::{element, word_at};
pub use rows::{condition_rows, event_rows};
use word::{Change, Kind, Relation, Value, given, kind, operands, relation, sort, truth, variable};

// A formula's truth, and the place after it. A type of its own, not one generic with the mask of a formula and its place: the field says which of them it has.
#[derive(Clone, Copy)]
pub struct Judged {
    pub value: bool,
    pub next: usize,
}

// The rows that hold: none, one with the value that it gives, or the lowest two. Three cases, so neither an Option nor a Result: whether none or two are
// a fault is for the table to say.
#[derive(Clone, Copy)]
pub enum Got {
    Nothing,
    One(usize, Value),
    Two(usize, usize),
}

// ---- conditions
// Is a test word true of the values?
#[tactic(auto, using(crate::proofs::Laws::test_laws))]
fn holds(w: u32, values: &[Value]) -> bool
    ensures { result ≡ true_in values.now (test_of w) }
{
    let x = element(values, variable(w) as usize, 0);
    let k = given(w);
    if relation(w) == Relation::Equals as u32 {
        x == k
    } else {
        x <= k
    }
}

// "and" or "or", by the kind of the word.
#[tactic(auto, using(crate::proofs::Laws::join_laws))]
fn joined(k: u32, a: bool, b: bool) -> bool
    ensures { result ≡ joined_by k a b }
{
    if k == Kind::And as u32 { a & b } else { a | b }
}

// The condition at a place, at most `left` levels deep. The four parameters go on together, but as a struct they would be taken apart and put together anew
// at every word, since `at` and `left` change with each.
#[cycle(judge)]
#[tactic(auto, using(crate::proofs::Laws::judge_laws))]
pub fn judge(words: &[u32], values: &[Value], at: usize, left: usize) -> Judged
    ensures { result ≡ judge_at words.now values.now left at }
{
    if left == 0 {
        return Judged {
            value: false,
            next: at,
        };
    }
    if words.len() <= at {
        return Judged {
            value: false,
            next: at,
        };
    }
    let w = word_at(words, at);
    let d = left - 1;
    if operands(w) == 0 {
        if kind(w) == Kind::Test as u32 {
            Judged {
                value: holds(w, values),
                next: at + 1,
            }
        } else {
            Judged {
                value: truth(w) == 1,
                next: at + 1,
            }
        }
    } else {
        judge_operator(words, values, w, at, d)
    }
}

// The condition of an operator w at a place, its operands at most `left` levels deep. Apart from `judge` and not inlined, so that a test, as most words
// are, is judged without a call of its own.
#[cycle(judge)]
#[inline(never)]
#[tactic(auto, using(crate::proofs::Laws::operator_laws))]
fn judge_operator(words: &[u32], values: &[Value], w: u32, at: usize, left: usize) -> Judged
    requires { (at < length words.now) × (W.operands w ≡ 0 → ⊥) }
    ensures { result ≡ judge_by values.now (judge_at words.now values.now left) w at }
{
    if operands(w) == 2 {
        let a = judge(words, values, at + 1, left);
        let b = judge(words, values, a.next, left);
        Judged {
            value: joined(kind(w), a.value, b.value),
            next: b.next,
        }
    } else {
        let a = judge(words, values, at + 1, left);
        Judged {
            value: !a.value,
            next: a.next,
        }
    }
}

// ---- events
// A step from one list of values to the other.
#[derive(Clone, Copy)]
pub struct Step<'a> {
    pub before: &'a [Value],
    pub after: &'a [Value],
}

// Has c, false or true before the step (`old`) and after it (`new`), changed as the sort says, with d true before it (`when`)?
#[tactic(auto, using(crate::proofs::Laws::changed_laws))]
fn changed(s: u32, old: bool, new: bool, when: bool) -> bool
    ensures { result ≡ changed_by s old new when }
{
    if s == Change::BecomesTrue as u32 {
        (!old & new) & when
    } else {
        (old & !new) & when
    }
}

// The change word w with its conditions c, at a place, and d, which starts where c ends. Both sides of the step find the same end.
#[tactic(auto, using(crate::proofs::Laws::change_law))]
fn judge_change(words: &[u32], step: &Step, w: u32, at: usize, left: usize) -> Judged
    ensures { result ≡ change_at words.now step.now.before.now step.now.after.now left w at }
{
    let old = judge(words, step.before, at, left);
    let new = judge(words, step.after, at, left);
    let when = judge(words, step.before, old.next, left);
    Judged {
        value: changed(sort(w), old.value, new.value, when.value),
        next: when.next,
    }
}

// The event at a place, in a step. A block walks an event alike, for masks of 64 states, and the two stay apart: this one reads the words of the set, that
// one a list of fixed length with zeros behind them; a truth is a `bool` here and 64 bits there; and a change is judged at lists of values or at planes.
// A trait for how a word is read, what is joined, what stands for false and what a change gives, with an impl for each, would be longer than the walk.
#[tactic(auto, using(crate::proofs::Laws::event_laws))]
pub fn judge_event(words: &[u32], step: &Step, at: usize, left: usize) -> Judged
    ensures { result ≡ judge_event_at words.now step.now.before.now step.now.after.now left at }
{
    if left == 0 {
        return Judged {
            value: false,
            next: at,
        };
    }
    if words.len() <= at {
        return Judged {
            value: false,
            next: at,
        };
    }
    let w = word_at(words, at);
    let on = at + 1;
    let d = left - 1;
    match operands(w) {
        2 => {
            if kind(w) == Kind::Or as u32 {
                let a = judge_event(words, step, on, d);
                let b = judge_event(words, step, a.next, d);
                Judged {
                    value: a.value | b.value,
                    next: b.next,
                }
            } else {
                judge_change(words, step, w, on, d)
            }
        }
        _ => Judged {
            value: false,
            next: on,
        },
    }
}
