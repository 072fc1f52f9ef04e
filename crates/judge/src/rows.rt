// The rows of a table that hold, judged where they stand: of a condition table in a state, of a mode or event table in a step.
ghost use Rattle.std.specs.Prelude.{◌≡◌, ◌&&◌, ℕ, List, eqb};
ghost use Rattle.word.specs.Fields as W;
ghost use Rattle.word.specs.Limits as Max;
ghost use Rattle.meaning.specs.Reading.{word};
ghost use Rattle.meaning.specs.Steps.{mode_is};
ghost use Rattle.judge.specs.declared.Judged.{Judged};
ghost use Rattle.judge.specs.Judge.{judge_at, judge_event_at, add_row, rows_at, condition_rows_at, event_rows_at};

use crate::{Got, Judged, Step, judge, judge_event};
use index::word_at;
use word::{EVERY_MODE, Kind, MAX_DEPTH, MAX_ROWS, Value, given, kind, mode};

// What judges the formulas of rows: `judged` says what it makes of the formula at a place of the words.
trait RowJudge {
    ghost judged: { Self → List ℕ → ℕ → Judged };

    fn judge_at(&self, words: &[u32], at: usize) -> Judged
        ensures { result ≡ judged self.now words.now at };
}

// The values of a state, at which the conditions of rows are judged.
#[derive(Clone, Copy)]
struct State<'a>(&'a [Value]);

impl RowJudge for State<'_> {
    ghost judged = { λ state ws i. judge_at ws state.0.now Max.max_depth i };

    fn judge_at(&self, words: &[u32], at: usize) -> Judged {
        judge(words, self.0, at, MAX_DEPTH)
    }
}

impl RowJudge for Step<'_> {
    ghost judged = { λ step ws i. judge_event_at ws step.before.now step.after.now Max.max_depth i };

    fn judge_at(&self, words: &[u32], at: usize) -> Judged {
        judge_event(words, self, at, MAX_DEPTH)
    }
}

// Does a row for mode m take part where the mode is x?
#[tactic(auto, using(crate::proofs::Laws::mode_law))]
fn mode_is(m: u32, x: u32) -> bool
    ensures { result ≡ mode_is m x }
{
    (m == EVERY_MODE) | (m == x)
}

// The rows that hold so far, with row i, which gives k and holds if h.
#[tactic(auto, using(crate::proofs::Laws::add_laws))]
fn add_row(got: Got, h: bool, i: usize, k: Value) -> Got
    ensures { result ≡ add_row got h i k }
{
    if !h {
        return got;
    }
    match got {
        Got::Nothing => Got::One(i, k),
        Got::One(j, _) => Got::Two(j, i),
        Got::Two(j, l) => Got::Two(j, l),
    }
}

// The same from the row's word w, the mode x and the truth of the row's formula.
#[tactic(auto, using(crate::proofs::Laws::with_law))]
fn with_row(got: Got, w: u32, x: u32, truth: bool, i: usize) -> Got
    ensures { result ≡ add_row got (mode_is (W.mode w) x && truth) i (W.value w) }
{
    let m = mode_is(mode(w), x);
    add_row(got, m & truth, i, given(w))
}

// Does a row stand at the place?
#[tactic(auto, using(crate::proofs::Laws::row_law))]
fn is_row(words: &[u32], at: usize) -> bool
    ensures { result ≡ eqb (W.kind (word words.now at)) 3 }
{
    kind(word_at(words, at)) == Kind::Row as u32
}

// The rows that hold, judged by `judges`. The first row stands at `at`, `mode` is the value of the class read.
fn rows<J: RowJudge>(words: &[u32], judges: &J, mode: u32, at: usize) -> Got
    ensures { result ≡ rows_at words.now (J.judged judges.now words.now) mode Max.max_rows 0 at Got.Nothing }
{
    let mut got = Got::Nothing;
    let mut on = at;
    // The next row stands where the formula ends, so the rows are no slice to go over; i is the row's number.
    for i in 0..MAX_ROWS {
        if words.len() <= on {
            return got;
        }
        let j = judges.judge_at(words, on + 1);
        let w = word_at(words, on);
        got = with_row(got, w, mode, j.value, i);
        on = j.next;
        if !is_row(words, on) {
            return got;
        }
    }
    got
}

// The rows of a condition table that hold at the values.
#[tactic(auto, unfolding(crate::specs::Judge::condition_rows_at))]
pub fn condition_rows(words: &[u32], values: &[Value], mode: u32, at: usize) -> Got
    ensures { result ≡ condition_rows_at words.now values.now mode Max.max_rows 0 at Got.Nothing }
{
    rows(words, &State(values), mode, at)
}

// The rows of a mode or event table that hold in the step; `mode` is the value before it of the class read.
#[tactic(auto, unfolding(crate::specs::Judge::event_rows_at))]
pub fn event_rows(words: &[u32], before: &[Value], after: &[Value], mode: u32, at: usize) -> Got
    ensures { result ≡ event_rows_at words.now before.now after.now mode Max.max_rows 0 at Got.Nothing }
{
    rows(words, &Step { before, after }, mode, at)
}
