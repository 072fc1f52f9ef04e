// Variables settled one after the other: the same walk for the values of a state and for those after a step, each by its rule.
ghost use Rattle.std.specs.Prelude.{◌≡◌, ℕ, List, length, get_or, set};
ghost use Rattle.state.specs.Held.{digit_at};
ghost use Rattle.simulator.specs.Walks.{Given, given_in, given_after, joined, walk};

use crate::{Clash, Input, Unsettled, altered, given_after, given_in, put};
use index::{Index, Variables};
use state::digit_of;
use word::Value;

// What gives a variable its value, at the values that there are so far.
pub trait Rule {
    ghost gives: { Self → List ℕ → ℕ → Given };

    fn give(&self, values: &[Value], v: usize) -> Result<Value, Clash>
        ensures { result ≡ gives self.now values.now v };
}

// In a state: the value that it holds, or that of a condition table.
#[derive(Clone, Copy)]
pub struct InState<'a> {
    pub index: Index<'a>,
    pub state: u32,
}

impl<'a> Rule for InState<'a> {
    ghost gives = { λ r b v. given_in r.index.variables.words.now r.index.variables.places.now b (digit_at r.index.variables.words.now r.index.variables.places.now r.index.weights.now r.state v) v };

    fn give(&self, values: &[Value], v: usize) -> Result<Value, Clash> {
        given_in(
            &self.index.variables,
            values,
            digit_of(&self.index, self.state, v),
            v,
        )
    }
}

// After the step from the values before by an input event.
#[derive(Clone, Copy)]
pub struct AfterStep<'a> {
    pub set: Variables<'a>,
    pub before: &'a [Value],
    pub input: Input,
}

impl<'a> Rule for AfterStep<'a> {
    ghost gives = { λ r b v. given_after r.set.words.now r.set.places.now r.before.now b (get_or (set r.before.now r.input.variable r.input.value) v 0) v };

    fn give(&self, values: &[Value], v: usize) -> Result<Value, Clash> {
        given_after(
            &self.set,
            self.before,
            values,
            altered(self.before, self.input, v),
            v,
        )
    }
}

// Each variable of the order takes the value that the rule gives it, up to the first that has none.
pub fn settle<R: Rule>(order: &[usize], rule: &R, values: &mut [Value]) -> Result<(), Unsettled>
    ensures values_after { joined result values.new ≡ walk (R.gives rule.now) order.now values.old }
    ensures values_len_unchanged { length values.new ≡ length values.old }
{
    for &variable in order {
        let value = rule
            .give(values, variable)
            .map_err(|why| Unsettled { variable, why })?;
        put(values, variable, value);
    }
    Ok(())
}
