// The public face: the answers, and the entries with their promises. Every entry takes words, states, events and lists of every content and
// length. It promises an equation for all that it gives and writes, and demand 1 (AnswersOrRefuses, RunAnswers, RowsAnswers); demands 2 and 3
// stand where they speak of the entry.
#![tactic(auto)]

mod reading; // a set that reads
mod refusals; // making refusals
mod runs; // a run of a set that reads
mod stepping; // a step of a set that reads
pub mod telling; // a refusal as numbers
pub mod told; // a number with what it carries
mod valuing; // the values of a state of a set that reads
mod verdicts; // the verdict of a set that reads

ghost use Rattle.std.specs.Prelude.{◌≡◌, ℕ, length};
ghost use Rattle.meaning.specs.Answers.{start_numbers, check_numbers, step_numbers, values_numbers};
ghost use Rattle.meaning.specs.Calls.{start_of, values_of, lent_values, rows_of};
ghost use Rattle.meaning.specs.Steps.{step_of};
ghost use Rattle.meaning.specs.Run.{run_of};
ghost use Rattle.meaning.specs.Passes.{Refused};
ghost use Rattle.meaning.specs.Demand1.{StartRefused, StepRefused, ValuesRefused, AnswersOrRefuses, RunAnswers, RowsAnswers};
ghost use Rattle.meaning.specs.Demand3.{Demand3};
ghost use Rattle.meaning.specs.Check.{check_of};
ghost use Rattle.scr.specs.Answers.{answer_says, verdict_says, count_of};
ghost use Rattle.scr.specs.Promises.{Demand2, StartsExactly, StepsExactly, ValuesExactly};

pub use order::Cycle;
use part::{part_end, part_start};
use reading::Reading;
use set::read_set;
pub use simulator::Input;
use state::initial_state;
use word::Value;

// ---- answers

// A condition table without a row that holds. Side 0 is the state given, 1 the one after a step, which carries the state before.
#[derive(Clone, Copy)]
pub struct Gap {
    pub side: u32,
    pub state: u32,
    pub variable: usize,
}

// The lowest two rows of a condition table that hold together.
#[derive(Clone, Copy)]
pub struct Overlap {
    pub side: u32,
    pub state: u32,
    pub variable: usize,
    pub first: usize,
    pub second: usize,
}

// The lowest two rows of a mode or event table that hold together in a step.
#[derive(Clone, Copy)]
pub struct StepOverlap {
    pub state: u32,
    pub input: Input,
    pub variable: usize,
    pub first: usize,
    pub second: usize,
}

// An assertion and the step that breaks it.
#[derive(Clone, Copy)]
pub struct Broken {
    pub assertion: usize,
    pub state: u32,
    pub input: Input,
}

// The documents' refusals, each with what it carries. specs/Answers gives each its number.
#[derive(Clone, Copy)]
pub enum Refusal {
    Length(usize),
    Kind(usize),
    Range(usize),
    Limit(usize),
    Fit(usize),
    NoTable(usize),
    InitialValue(usize),
    States(usize),
    Cycle(Cycle),
    Gap(Gap),
    Overlap(Overlap),
    StepOverlap(StepOverlap),
    FalseInitially(usize),
    Broken(Broken),
    NoState(u32),
    NotEnabled(usize),
    Room(usize),
    Order(usize),
}

// What a pass carries: how many typed states, typed steps and assertions the set has.
#[derive(Clone, Copy)]
pub struct Counts {
    pub states: u32,
    pub steps: u64,
    pub assertions: usize,
}

// ---- entries
// All begin with the reading. They are alike no further, step and values too: each has a promise of its own.

// The initial state, which holds the initial values, or the first of refusals 1 to 9.
pub fn start(words: &[u32]) -> Result<u32, Refusal>
    ensures result_value { answer_says result ≡ start_of words.now }
    ensures answers_or_refuses { AnswersOrRefuses (answer_says result) start_numbers (StartRefused words.now) }
    ensures starts_exactly { StartsExactly words.now result }
{
    let opened = read_set(words)?;
    Ok(initial_state(&opened.index(words)))
}

// The word that a set may be loaded. Every typed state, every typed step and every assertion counts; which steps are looked at singly is the
// filter's matter (crate filter). Not inlined, so that what it keeps on the stack is free again for what a caller does with the verdict.
#[inline(never)]
pub fn check(words: &[u32]) -> Result<Counts, Refusal>
    ensures result_value { verdict_says result ≡ check_of words.now }
    ensures answers_or_refuses { AnswersOrRefuses (verdict_says result) check_numbers (Refused words.now) }
    ensures demand2 { Demand2 words.now result }
{
    let opened = read_set(words)?;
    Reading::new(&opened, words).verdict()
}

// The next state, or the refusal. It answers a state exactly if that is the one next state by the SCR rules, met without gap or overlap,
// and the event word is enabled.
pub fn step(words: &[u32], state: u32, event: u32) -> Result<u32, Refusal>
    ensures result_value { answer_says result ≡ step_of words.now state event }
    ensures answers_or_refuses { AnswersOrRefuses (answer_says result) step_numbers (StepRefused words.now state event) }
    ensures steps_exactly { StepsExactly words.now state event result }
{
    let opened = read_set(words)?;
    Reading::new(&opened, words).step(state, event)
}

// The events in turn from a state on. The state after each event done is written to the lent list from the place on, and the last is given;
// a refusal keeps what was written.
pub fn run(
    words: &[u32],
    state: u32,
    events: &[u32],
    trace: &mut [u32],
    place: usize,
) -> Result<u32, Refusal>
    ensures result_value { answer_says result ≡ (run_of words.now state events.now trace.old place).answer }
    ensures trace_after { trace.new ≡ (run_of words.now state events.now trace.old place).lent }
    ensures run_answers { RunAnswers words.now state events.now trace.old place (answer_says result) trace.new }
    ensures demand3 { Demand3 words.now state events.now trace.old place (answer_says result) trace.new }
{
    let opened = read_set(words)?;
    Reading::new(&opened, words).run(state, events, trace, place)
}

// The values of a state, one a variable at the front of a lent list; elements beyond keep their content. They are written exactly if they are the
// one valuation of the state, met without gap or overlap.
pub fn values(words: &[u32], state: u32, out: &mut [Value]) -> Result<usize, Refusal>
    ensures result_value { answer_says result ≡ count_of (values_of words.now state (length out.old)) }
    ensures out_after { out.new ≡ lent_values (values_of words.now state (length out.old)) out.old }
    ensures answers_or_refuses { AnswersOrRefuses (answer_says result) values_numbers (ValuesRefused words.now state (length out.old)) }
    ensures values_exactly { ValuesExactly words.now state out.old result out.new }
{
    let opened = read_set(words)?;
    Reading::new(&opened, words).values(state, out)
}

// The rows of a variable's table, as a part of the caller's words: those that reading the table took, its table word first; the empty part
// if the set does not read or has no such table.
pub fn rows(words: &[u32], variable: u32) -> &[u32]
    ensures result_value { result.now ≡ rows_of words.now variable }
    ensures rows_answers { RowsAnswers words.now variable result.now }
{
    if read_set(words).is_err() {
        return &words[0..0];
    }
    let a = part_start(words, variable);
    if words.len() <= a {
        return &words[0..0];
    }
    let b = part_end(words, a);
    &words[a..b]
}
