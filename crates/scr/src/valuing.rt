// The values of a state of a set that reads.
ghost use Rattle.std.specs.Prelude.{◌≡◌, ℕ, ◌<◌, ◌≤◌, length};
ghost use Rattle.meaning.specs.Calls.{values_of, lent_values};
ghost use Rattle.scr.specs.Answers.{answer_says, count_of};

use crate::reading::Reading;
use crate::refusals::unsettled;
use crate::{Input, Refusal};
use simulator::values_in;
use word::{MAX_VARIABLES, Value};

impl Reading<'_> {
    // The state is examined in a list of its own, so that a refusal writes nothing to the lent one.
    #[tactic(auto, using(crate::proofs::Calling::examine_laws))]
    fn examine(&self, s: u32, own: &mut [Value], out: &mut [Value]) -> Result<usize, Refusal>
        requires { (length own.old ≡ self.now.index.variables.count) × (self.now.index.variables.count ≤ length out.old) × (s < self.now.extent.states) }
        ensures result_value { answer_says result ≡ count_of (values_of self.now.index.variables.words.now s (length out.old)) }
        ensures out_after { out.new ≡ lent_values (values_of self.now.index.variables.words.now s (length out.old)) out.old }
    {
        let none = Input {
            variable: 0,
            value: 0,
        };
        match values_in(&self.index, s, own) {
            Err(fault) => Err(unsettled(0, s, none, fault)),
            Ok(()) => {
                out[..own.len()].copy_from_slice(own);
                Ok(self.index.variables.count)
            }
        }
    }

    #[tactic(auto, using(crate::proofs::Calling::values_laws))]
    pub fn values(&self, s: u32, out: &mut [Value]) -> Result<usize, Refusal>
        ensures result_value { answer_says result ≡ count_of (values_of self.now.index.variables.words.now s (length out.old)) }
        ensures out_after { out.new ≡ lent_values (values_of self.now.index.variables.words.now s (length out.old)) out.old }
    {
        let n = self.index.variables.count;
        if out.len() < n {
            return Err(Refusal::Room(n));
        }
        if self.extent.states <= s {
            return Err(Refusal::NoState(s));
        }
        let mut own = [0 as Value; MAX_VARIABLES];
        self.examine(s, &mut own[..n], out)
    }
}
