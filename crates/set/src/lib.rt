// The reading of a set, whole: refusals 1 to 9, and the index that everything above works with.
#![tactic(auto)]

mod faults; // why a set is not read
mod opened; // a set that is

ghost use Rattle.set.specs.ReadSet.{SetAs};

pub use faults::Fault;
pub use opened::Opened;
use order::order_tables;
use reader::read_typed;
use word::MAX_VARIABLES;

// Reads a set: what it opens, or the first of the refusals.
#[tactic(auto, using(crate::proofs::Laws::set_laws))]
pub fn read_set(words: &[u32]) -> Result<Opened, Fault>
    ensures { SetAs words.now result }
{
    let typed = read_typed(words)?;
    let set = typed.variables(words);
    let mut order = [0; MAX_VARIABLES];
    order_tables(&set, &mut order)?;
    let places = typed.places;
    let weights = typed.weights;
    Ok(Opened {
        extent: typed.extent,
        places,
        weights,
        order,
    })
}
