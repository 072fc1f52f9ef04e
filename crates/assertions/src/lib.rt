// The assertions at given values. The first stands at `at`; the next begins where a formula ends.
#![tactic(auto)]

ghost use Rattle.std.specs.Prelude.{◌≡◌, Bool};
ghost use Rattle.word.specs.Limits as Max;
ghost use Rattle.assertions.specs.Assertions.{count_from, false_from, row_from};

use judge::judge;
use word::{MAX_ASSERTIONS, MAX_DEPTH, Value};

// How many of the first `most` there are before the first whose truth doesn't go on: h is the test that `goes_on` computes.
fn row<F: Fn(bool) -> bool>(
    words: &[u32],
    values: &[Value],
    at: usize,
    most: usize,
    goes_on: F,
) -> usize
    requires { F.IsAlwaysCallable goes_on }
    ensures { (h : Bool → Bool) → ((x b : Bool) → F.post goes_on x b → b ≡ h x) → result ≡ row_from words.now values.now h most at }
{
    let mut on = at;
    // The next assertion stands where the formula ends, so they are no slice to go over; j is the assertion's number.
    for j in 0..most {
        if words.len() <= on {
            return j;
        }
        let f = judge(words, values, on + 1, MAX_DEPTH);
        if !goes_on(f.value) {
            return j;
        }
        on = f.next;
    }
    most
}

// How many there are. Where a formula ends does not depend on the values.
pub fn count_assertions(words: &[u32], values: &[Value], at: usize) -> usize
    ensures { result ≡ count_from words.now values.now Max.max_assertions at }
{
    row(words, values, at, MAX_ASSERTIONS, |_| true)
}

// The first of the first `most` that is false at the values, `most` if none is.
pub fn first_false(words: &[u32], values: &[Value], at: usize, most: usize) -> usize
    ensures { result ≡ false_from words.now values.now most at }
{
    row(words, values, at, most, |truth| truth)
}
