// The variables at the front. Only this knows where their words stand.
ghost use Rattle.std.specs.Prelude.{◌≡◌};
ghost use Rattle.reader.specs.Variables.{VariablesAs};

use crate::faults::Fault;
use crate::found::Found;
use crate::tests::variable_ok;
use index::PLACES;
use word::{Kind, MAX_VARIABLES, kind};

// The variables, which go to the place of their number. Each bit of a variable word is named, so that none is refused by 2; one too many
// is refused by 4, whatever its fields are. The place of each variable's word goes behind the places of tables.
#[tactic(auto, using(crate::proofs::VariableLaws::variables_laws))]
pub fn read_variables(words: &[u32]) -> Result<Found, Fault>
    ensures { VariablesAs words.now result }
{
    let mut places = [0; PLACES];
    for (i, w) in words.iter().enumerate() {
        if kind(*w) != Kind::Variable as u32 {
            return Ok(Found { places, count: i });
        }
        if i == MAX_VARIABLES {
            return Err(Fault::Limit(i));
        }
        if !variable_ok(*w) {
            return Err(Fault::Range(i));
        }
        places[MAX_VARIABLES + i] = i;
    }
    Ok(Found {
        places,
        count: words.len(),
    })
}
