// The machine host: check and step over bytes. scrhost_c hands both functions to C.
#![tactic(auto)]

mod numbers; // answers as numbers
mod words; // bytes to words

ghost use Rattle.std.specs.Prelude.{◌≡◌};
ghost use Rattle.meaning.specs.Host.{host_check_of, host_step_of};

use numbers::{LENGTH, REFUSED, check_number, step_number};
use scr::{check, step};
use word::MAX_WORDS;
use words::{fours_of, words_of};

// The C interface has scr_check and scr_step, so both are functions of bytes and numbers. They match on the bytes four by four, and the room for the words is made
// only where there are words. `map_or` was tried, and the result stayed unproved, since the check by itself does not split what `map_or` promises into the case
// with words and the case without.

// 0, or the number of the refusal.
#[tactic(auto, using(crate::proofs::Hosting::check_refused))]
pub fn scr_check(bytes: &[u8]) -> u32
    ensures { result ≡ host_check_of bytes.now }
{
    match fours_of(bytes) {
        Some(fours) => check_number(check(words_of(fours, &mut [0; MAX_WORDS]))),
        None => LENGTH,
    }
}

// The next state, or 2^31 plus the number of the refusal.
#[tactic(auto, using(crate::proofs::Hosting::step_refused))]
pub fn scr_step(bytes: &[u8], state: u32, event: u32) -> u32
    ensures { result ≡ host_step_of bytes.now state event }
{
    match fours_of(bytes) {
        Some(fours) => step_number(step(words_of(fours, &mut [0; MAX_WORDS]), state, event)),
        None => REFUSED + LENGTH,
    }
}
