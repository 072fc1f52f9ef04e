// The words of the input, lowest byte first.
ghost use Rattle.std.specs.Prelude.{◌≡◌};
ghost use Rattle.meaning.specs.Program.{input_word, input_words};

use crate::MAX_INPUT_WORDS;
use arrayvec::ArrayVec;

// The word of the first four bytes. "A broken last word" counts as 0.
#[tactic(auto, using(crate::proofs::Words::word_broken, crate::proofs::Words::word_whole))]
fn word_of(bytes: &[u8]) -> u32
    ensures { result ≡ input_word bytes.now 0 }
{
    bytes
        .first_chunk::<4>()
        .map_or(0, |four| u32::from_le_bytes(*four))
}

// The words that are looked at, a broken last one among them.
pub fn words_of(bytes: &[u8]) -> ArrayVec<u32, MAX_INPUT_WORDS>
    ensures { result.items ≡ input_words bytes.now }
{
    let mut words = ArrayVec::new();
    for four in bytes.chunks(4).take(MAX_INPUT_WORDS) {
        words.push(word_of(four));
    }
    words
}
