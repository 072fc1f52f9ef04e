// The lines of a run.
ghost use Rattle.std.specs.Prelude.{◌≡◌, ◌++◌, ℕ, ◌+◌, ◌*◌, ◌≤◌, length};
ghost use Rattle.arrayvec.specs.ArrayVec.{array_vec_len};
ghost use Rattle.word.specs.Limits as Max;
ghost use Rattle.meaning.specs.Calls.{start_of};
ghost use Rattle.meaning.specs.Program.{run_from_start};
ghost use Rattle.scr.specs.Answers.{refusal_says, answer_says};
ghost use Rattle.report.specs.Room as Room;
ghost use Rattle.report.specs.Runs.{Passed, done_before, ran_lines};

use crate::text_lines::{put_events, put_refusal};
use arrayvec::ArrayVec;
use scr::Refusal;
use word::MAX_EVENTS;

// How many events were done before a refusal, in a run of a set that passes: there only an event word that is not enabled (16) ends a run
// that has begun, and it carries its index.
#[tactic(auto, using(crate::proofs::Running::done_16, crate::proofs::Running::done_none))]
fn done_before(q: Refusal) -> usize
    ensures { result ≡ done_before (refusal_says q).0 (refusal_says q).1 }
{
    match q {
        Refusal::NotEnabled(i) => i,
        _ => 0,
    }
}

// The lines of a run of a set that passes, by its answer and by the states that it wrote.
fn put_ran<const N: usize>(
    text: &mut ArrayVec<u8, N>,
    events: &[u32],
    states: &[u32],
    answer: Result<u32, Refusal>,
)
    requires { (array_vec_len text.old + length states.now * Room.short_event + Room.line ≤ N) × (length states.now ≤ Max.max_events) }
    ensures puts { text.new.items ≡ text.old.items ++ ran_lines events.now states.now (answer_says answer) }
    ensures upper_bound { array_vec_len text.new ≤ array_vec_len text.old + length states.now * Room.short_event + Room.line }
{
    match answer {
        Ok(_) => put_events(text, events, &states[..events.len().min(states.len())]),
        Err(q) => {
            put_events(text, events, &states[..done_before(q).min(states.len())]);
            put_refusal(text, q)
        }
    }
}

// The run from the initial state.
pub fn put_run<const N: usize>(text: &mut ArrayVec<u8, N>, set: &[u32], events: &[u32])
    requires { (array_vec_len text.old + Room.run ≤ N) × Passed set.now }
    ensures puts { text.new.items ≡ text.old.items ++ run_from_start set.now events.now (start_of set.now) }
    ensures upper_bound { array_vec_len text.new ≤ array_vec_len text.old + Room.run }
{
    if let Ok(s) = scr::start(set) {
        // A run writes one state an event.
        let mut states = [0u32; MAX_EVENTS];
        let answer = scr::run(set, s, events, &mut states, 0);
        put_ran(text, events, &states, answer);
    }
}
