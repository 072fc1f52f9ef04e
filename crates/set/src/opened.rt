// A set that reads, with all that reading finds of it.
ghost use Rattle.std.specs.Prelude.{◌≡◌};
ghost use Rattle.set.specs.ReadSet.{Opens};
ghost use Rattle.set.specs.Opened.{IndexOf};

use index::{Extent, Index, PLACES, Variables};
use word::MAX_VARIABLES;

// How far the set goes, by variable the places of its table and its word and its weight in a state's number, and the dependency order. The lists have room for
// the most that a set may have, as there is no heap.
#[derive(Clone, Copy)]
pub struct Opened {
    pub extent: Extent,
    pub places: [usize; PLACES],
    pub weights: [u32; MAX_VARIABLES],
    pub order: [usize; MAX_VARIABLES],
}

impl Opened {
    // Its index, by the words that it was read from.
    pub fn index<'a>(&'a self, words: &'a [u32]) -> Index<'a>
        requires { Opens words.now self.now }
        ensures words_value { result.variables.words.now ≡ words.now }
        ensures index_of { IndexOf result self.now.extent }
    {
        let count = self.extent.variables;
        Index {
            variables: Variables {
                words,
                places: &self.places,
                count,
            },
            weights: &self.weights,
            order: &self.order[..count],
        }
    }
}
