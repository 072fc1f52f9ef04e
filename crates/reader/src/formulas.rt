// Conditions and events. `left` levels may still stand, this word's included; each operand has one less. The table of operand counts says how many
// follow a word.
// Each arm returns its answer at once: the value of a match would be kept and copied at every word. Of the last operand the end
// is handed on as a number, not the whole answer: copied as one piece, right after it was written in two, that took a quarter of the time of a set's reading.
ghost use Rattle.std.specs.Prelude.{◌≡◌};
ghost use Rattle.meaning.specs.Reading as R;
ghost use Rattle.reader.specs.Known.{known};
ghost use Rattle.index.specs.Places.{reach};
ghost use Rattle.reader.specs.Faults.{reached};
ghost use Rattle.reader.specs.Formulas.{change_reach};

use crate::faults::Fault;
use crate::first::first_word;
use crate::tests::{fits_condition, fits_event, test_ok};
use index::Variables;
use word::{Change, Kind, kind, operands, sort, truth};

#[tactic(auto, using(crate::proofs::FormulaLaws::conditions))]
pub fn read_condition(set: &Variables, at: usize, left: usize) -> Result<usize, Fault>
    ensures { reached result ≡ reach (R.read_condition set.now.words.now (known set.now) left at) }
{
    let w = first_word(set.words, at, left, |w| fits_condition(w))?;
    let on = at + 1;
    let less = left - 1;
    match operands(w) {
        2 => {
            let second = read_condition(set, on, less)?;
            let end = read_condition(set, second, less)?;
            return Ok(end);
        }
        1 => {
            let end = read_condition(set, on, less)?;
            return Ok(end);
        }
        _ => {
            if kind(w) == Kind::Test as u32 {
                if test_ok(set, w) {
                    return Ok(on);
                }
                return Err(Fault::Range(at));
            }
            return Ok(on);
        }
    }
}

// The two conditions c and d after a change word.
#[tactic(auto, using(crate::proofs::FormulaLaws::change_laws))]
pub fn read_change(set: &Variables, at: usize, left: usize) -> Result<usize, Fault>
    ensures { reached result ≡ change_reach set.now.words.now (known set.now) left at }
{
    let second = read_condition(set, at, left)?;
    let end = read_condition(set, second, left)?;
    Ok(end)
}

#[tactic(auto, using(crate::proofs::FormulaLaws::events))]
pub fn read_event(set: &Variables, at: usize, left: usize) -> Result<usize, Fault>
    ensures { reached result ≡ reach (R.read_event set.now.words.now (known set.now) left at) }
{
    let w = first_word(set.words, at, left, |w| fits_event(w))?;
    let on = at + 1;
    let less = left - 1;
    match operands(w) {
        2 => {
            if kind(w) == Kind::Or as u32 {
                let second = read_event(set, on, less)?;
                let end = read_event(set, second, less)?;
                return Ok(end);
            }
            if Change::try_from(sort(w)).is_ok() {
                let end = read_change(set, on, less)?;
                return Ok(end);
            }
            return Err(Fault::Range(at));
        }
        _ => {
            if truth(w) == 0 {
                return Ok(on);
            }
            return Err(Fault::Range(at));
        }
    }
}
