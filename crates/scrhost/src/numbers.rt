// Answers as the host's numbers.
ghost use Rattle.std.specs.Prelude.{◌≡◌};
ghost use Rattle.meaning.specs.Host.{passed, stepped};
ghost use Rattle.scr.specs.Answers.{answer_says, verdict_says};

use scr::telling::tell;
use scr::{Counts, Refusal};

// The C interface answers by number, so these two are no enum. What is made of an answer is a match below: `map_or_else` takes the refusal first and then
// the pass, and is no shorter.
// Added to the number of a refused step: no state has so high a number.
pub const REFUSED: u32 = 2147483648;

// Refusal 1: the bytes are no whole words, or more words than a set has. That there are none is found by check and step.
pub const LENGTH: u32 = 1;

// 0, or the number of the refusal.
#[tactic(auto, using(crate::proofs::Hosting::check_passes, crate::proofs::Hosting::check_refuses))]
pub fn check_number(v: Result<Counts, Refusal>) -> u32
    ensures { result ≡ passed (verdict_says v) }
{
    match v {
        Ok(_) => 0,
        Err(q) => tell(q).number,
    }
}

// The state, or 2^31 plus the number of the refusal.
#[tactic(auto, using(crate::proofs::Hosting::step_gives, crate::proofs::Hosting::step_refuses))]
pub fn step_number(a: Result<u32, Refusal>) -> u32
    ensures { result ≡ stepped (answer_says a) }
{
    match a {
        Ok(s) => s,
        Err(q) => REFUSED + tell(q).number,
    }
}
