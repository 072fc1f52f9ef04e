// The word that a table, a row, an assertion or a formula begins with.
ghost use Rattle.std.specs.Prelude.{◌≡◌, ℕ, ◌<◌, Bool, false, List, length, OnOk};
ghost use Rattle.meaning.specs.Searches.{mem};
ghost use Rattle.meaning.specs.Reading as R;
ghost use Rattle.reader.specs.First.{first_word, first_said};

use crate::faults::Fault;
use index::word_at;

// The word at a place, if it `fits`; `left` of its like may still stand, this one included. A place past the end is tested first, so that the place
// after it is a number.
pub fn first_word<F: Fn(u32) -> bool>(
    words: &[u32],
    at: usize,
    left: usize,
    fits: F,
) -> Result<u32, Fault>
    requires { F.IsAlwaysCallable fits }
    ensures room { OnOk result ((at < length words.now) × (0 < left)) }
    ensures value { (kinds : List ℕ) → mem 0 kinds ≡ false → ((w : ℕ) (b : Bool) → F.post fits w b → b ≡ R.fits kinds w) → first_said result ≡ first_word words.now kinds left at }
{
    if words.len() <= at {
        return Err(Fault::Kind(at));
    }
    let w = word_at(words, at);
    if !fits(w) {
        return Err(Fault::Kind(at));
    }
    if left == 0 {
        return Err(Fault::Limit(at));
    }
    Ok(w)
}
