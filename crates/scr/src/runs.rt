// A run of a set that reads.
ghost use Rattle.std.specs.Prelude.{◌≡◌, ℕ, ◌-◌, ◌≤◌, length};
ghost use Rattle.std.proofs.lemmas.List.Edits.{sets};
ghost use Rattle.meaning.specs.Run.{run_of};
ghost use Rattle.scr.specs.Answers.{answer_says};
ghost use Rattle.scr.specs.Opened.{run_in};

use crate::Refusal;
use crate::reading::Reading;
use simulator::run::run_events;
use word::MAX_EVENTS;

impl Reading<'_> {
    // The events, with room for each at the front of the lent list.
    fn perform(&self, s: u32, events: &[u32], trace: &mut [u32]) -> Result<u32, Refusal>
        requires { length events.now ≤ length trace.old }
        ensures result_value { answer_says result ≡ (run_in self.now.index s events.now).last }
        ensures trace_after { trace.new ≡ sets trace.old 0 (run_in self.now.index s events.now).done }
    {
        Ok(run_events(&self.index, s, events, trace)?)
    }

    // The same from the place on. At or past the end there is no room, so there are no events.
    #[tactic(auto, using(crate::proofs::Performing::perform_from_laws))]
    fn perform_from(
        &self,
        s: u32,
        events: &[u32],
        trace: &mut [u32],
        place: usize,
    ) -> Result<u32, Refusal>
        requires { length events.now ≤ length trace.old - place }
        ensures result_value { answer_says result ≡ (run_in self.now.index s events.now).last }
        ensures trace_after { trace.new ≡ sets trace.old place (run_in self.now.index s events.now).done }
    {
        if trace.len() <= place {
            return Ok(s);
        }
        self.perform(s, events, &mut trace[place..])
    }

    // Too many events, too little room, no such state; then the events.
    #[tactic(auto, using(crate::proofs::Performing::run_laws))]
    pub fn run(
        &self,
        s: u32,
        events: &[u32],
        trace: &mut [u32],
        place: usize,
    ) -> Result<u32, Refusal>
        ensures result_value { answer_says result ≡ (run_of self.now.index.variables.words.now s events.now trace.old place).answer }
        ensures trace_after { trace.new ≡ (run_of self.now.index.variables.words.now s events.now trace.old place).lent }
    {
        if MAX_EVENTS < events.len() {
            return Err(Refusal::Room(MAX_EVENTS + 1));
        }
        let room = trace.len().saturating_sub(place);
        if room < events.len() {
            return Err(Refusal::Room(events.len()));
        }
        if self.extent.states <= s {
            return Err(Refusal::NoState(s));
        }
        self.perform_from(s, events, trace, place)
    }
}
