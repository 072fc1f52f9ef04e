// Where the words of a set's variables and tables are found.
ghost use Rattle.std.specs.Prelude.{◌≡◌, ◌≤◌};
ghost use Rattle.word.specs.Limits as Max;

use index::{PLACES, Variables};

// How many variables there are, and the places of their words and of the tables read so far, as `Variables` has them. Tables are read one after the other,
// each against those before it, so that the places are written in between.
#[derive(Clone, Copy)]
pub struct Found {
    pub places: [usize; PLACES],
    pub count: usize,
    ghost few: { count ≤ Max.max_variables },
}

impl Found {
    // What is found of the set of these words, as its variables.
    pub fn variables<'a>(&'a self, words: &'a [u32]) -> Variables<'a>
        ensures same_words { result.words.now ≡ words.now }
        ensures same_places { result.places.now ≡ self.now.places }
        ensures same_count { result.count ≡ self.now.count }
    {
        Variables {
            words,
            places: &self.places,
            count: self.count,
        }
    }
}
