// The part of the words that is a table: from its table word to before the next table or assertion, or to the end.
#![tactic(auto)]

ghost use Rattle.std.specs.Prelude.{◌≡◌, ◌+◌, ◌<◌, ◌&&◌, ◌||◌, eqb, length};
ghost use Rattle.word.specs.Fields as W;
ghost use Rattle.part.specs.Part.{start_at, end_at};

use index::word_at;
use word::{Kind, defined, kind};

// Is the word the table word of the variable?
fn is_table(word: u32, variable: u32) -> bool
    ensures { result ≡ (eqb (W.kind word) 2 && eqb (W.defined word) variable) }
{
    (kind(word) == Kind::Table as u32) & (defined(word) == variable)
}

// Does the word stand after a table?
fn ends_table(word: u32) -> bool
    ensures { result ≡ (eqb (W.kind word) 2 || eqb (W.kind word) 10) }
{
    let k = kind(word);
    (k == Kind::Table as u32) | (k == Kind::Assertion as u32)
}

// The place of the table word of a variable, or the number of words.
pub fn part_start(words: &[u32], variable: u32) -> usize
    ensures { result ≡ start_at words.now variable }
{
    words
        .iter()
        .position(|w| is_table(*w, variable))
        .unwrap_or(words.len())
}

// The place after the table whose table word stands at `start`.
pub fn part_end(words: &[u32], start: usize) -> usize
    requires { start < length words.now }
    ensures { result ≡ end_at words.now start }
{
    let n = words.len();
    (start + 1..n)
        .find(|i| ends_table(word_at(words, *i)))
        .unwrap_or(n)
}
