// Assertions, to the end of the words.
ghost use Rattle.std.specs.Prelude.{◌≡◌};
ghost use Rattle.word.specs.Limits as Max;
ghost use Rattle.meaning.specs.Reading as R;
ghost use Rattle.reader.specs.Known.{known};
ghost use Rattle.index.specs.Places.{reach};
ghost use Rattle.reader.specs.Faults.{reached};

use crate::faults::Fault;
use crate::first::first_word;
use crate::formulas::read_condition;
use crate::tests::fits_kind;
use index::Variables;
use word::{AssertionType, Kind, MAX_ASSERTIONS, MAX_DEPTH, sort};

// One assertion; `left` of them may still stand, this one included.
#[tactic(auto, using(crate::proofs::AssertionLaws::assertion_laws))]
fn read_assertion(set: &Variables, left: usize, at: usize) -> Result<usize, Fault>
    ensures { reached result ≡ reach (R.read_assertion set.now.words.now (known set.now) left at) }
{
    let w = first_word(set.words, at, left, |w| fits_kind(w, Kind::Assertion))?;
    AssertionType::try_from(sort(w)).map_err(|_| Fault::Range(at))?;
    read_condition(set, at + 1, MAX_DEPTH)
}

// The assertions from `at` on. One too many is read with none left, which refuses it.
#[tactic(auto, using(crate::proofs::AssertionLaws::assertions_laws))]
pub fn read_assertions(set: &Variables, at: usize) -> Result<usize, Fault>
    ensures { reached result ≡ reach (R.read_assertions set.now.words.now (known set.now) Max.max_assertions at) }
{
    let mut on = at;
    // The next assertion stands where the formula ends, so the assertions are no list to go over.
    for i in 0..MAX_ASSERTIONS {
        if set.words.len() <= on {
            return Ok(on);
        }
        on = read_assertion(set, MAX_ASSERTIONS - i, on)?;
    }
    if set.words.len() <= on {
        return Ok(on);
    }
    read_assertion(set, 0, on)
}
