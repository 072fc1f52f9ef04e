// A set that reads.
ghost use Rattle.std.specs.Prelude.{◌≡◌};
ghost use Rattle.set.specs.ReadSet.{Opens};
ghost use Rattle.set.specs.Opened.{IndexOf};
ghost use Rattle.scr.specs.OneProof.{IndexOf-prop};

use index::{Extent, Index};
use set::Opened;

// A set that reads: its index, and how far it goes. What an entry does with it are methods, each in a file of its own.
#[derive(Clone, Copy)]
pub struct Reading<'a> {
    pub index: Index<'a>,
    pub extent: Extent,
    ghost index_of: { IndexOf index extent } by { IndexOf-prop },
}

impl<'a> Reading<'a> {
    // By the words that it was read from.
    pub fn new(opened: &'a Opened, words: &'a [u32]) -> Reading<'a>
        requires { Opens words.now opened.now }
        ensures { result.index.variables.words.now ≡ words.now }
    {
        Reading {
            index: opened.index(words),
            extent: opened.extent,
        }
    }
}
