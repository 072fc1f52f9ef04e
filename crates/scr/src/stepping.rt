// A step of a set that reads.
ghost use Rattle.std.specs.Prelude.{◌≡◌};
ghost use Rattle.meaning.specs.Steps.{step_of};
ghost use Rattle.scr.specs.Answers.{answer_says};

use crate::Refusal;
use crate::reading::Reading;
use simulator::step_from;

impl Reading<'_> {
    pub fn step(&self, s: u32, w: u32) -> Result<u32, Refusal>
        ensures { answer_says result ≡ step_of self.now.index.variables.words.now s w }
    {
        if self.extent.states <= s {
            return Err(Refusal::NoState(s));
        }
        Ok(step_from(&self.index, 0, s, w)?)
    }
}
