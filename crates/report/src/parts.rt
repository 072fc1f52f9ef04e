// Parts of lists of words.
ghost use Rattle.std.specs.Prelude.{◌≡◌, ℕ, ◌≤◌, eqb, length};
ghost use Rattle.word.specs.Fields as W;
ghost use Rattle.meaning.specs.Program.{first_event};

use word::{Kind, kind};

fn is_event(word: u32) -> bool
    ensures { result ≡ eqb (W.kind word) 11 }
{
    kind(word) == Kind::InputEvent as u32
}

// The place of the first word of kind 11, or the number of words.
pub fn first_event(words: &[u32]) -> usize
    ensures value { result ≡ first_event words.now }
    ensures upper_bound { result ≤ length words.now }
{
    words
        .iter()
        .position(|word| is_event(*word))
        .unwrap_or(words.len())
}
