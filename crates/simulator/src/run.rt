// The event loop of a run, over the index of a set.
ghost use Rattle.std.specs.Prelude.{◌≡◌, ◌≤◌, length};
ghost use Rattle.std.proofs.lemmas.List.Edits.{sets};
ghost use Rattle.word.specs.Limits as Max;
ghost use Rattle.simulator.specs.RunIndex.{run_index};
ghost use Rattle.simulator.specs.StepIndex.{ended_says};

use crate::{Stopped, step_from};
use index::Index;

// The last state of the events from state s on, or the first event that is not done. The state after each event done is written to the event's place in the lent list.
pub fn run_events(index: &Index, s: u32, events: &[u32], trace: &mut [u32]) -> Result<u32, Stopped>
    requires few { index.now.variables.count ≤ Max.max_variables }
    requires room { length events.now ≤ length trace.old }
    ensures result_value { ended_says result ≡ (run_index index.now.variables.words.now index.now.variables.places.now index.now.weights.now index.now.order.now index.now.variables.count 0 s events.now).last }
    ensures trace_after { trace.new ≡ sets trace.old 0 (run_index index.now.variables.words.now index.now.variables.places.now index.now.weights.now index.now.order.now index.now.variables.count 0 s events.now).done }
{
    let mut state = s;
    for (i, &event) in events.iter().enumerate() {
        let next = step_from(index, i, state, event)?;
        trace[i] = next;
        state = next;
    }
    Ok(state)
}
