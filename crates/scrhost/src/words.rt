// Bytes to words, four bytes a word, lowest first.
ghost use Rattle.std.specs.Prelude.{◌≡◌, ℕ, ◌≤◌, IfSome, IfNone, length, map};
ghost use Rattle.std.specs.Int.{w32, from_le_bytes};
ghost use Rattle.word.specs.Limits as Max;
ghost use Rattle.meaning.specs.Answers.{ok};
ghost use Rattle.meaning.specs.Host.{host_words};
ghost use Rattle.scrhost.specs.Limits.{Refused};

use word::MAX_WORDS;

// The bytes four by four; none of bytes that are no whole words, or more words than a set has.
pub fn fours_of(bytes: &[u8]) -> Option<&[[u8; 4]]>
    ensures words_value { IfSome result (λ fours. host_words bytes.now ≡ ok (map (from_le_bytes w32) fours.now)) }
    ensures few { IfSome result (λ fours. length fours.now ≤ Max.max_words) }
    ensures refused { IfNone result (Refused bytes.now) }
{
    let (fours, rest) = bytes.as_chunks::<4>();
    if !rest.is_empty() || MAX_WORDS < fours.len() {
        return None;
    }
    Some(fours)
}

// Their words, written to the front of the room that is lent.
pub fn words_of<'a>(fours: &[[u8; 4]], room: &'a mut [u32; MAX_WORDS]) -> &'a [u32]
    requires { length fours.now ≤ Max.max_words }
    ensures { result.now ≡ map (from_le_bytes w32) fours.now }
{
    // By place, so that the loop can say what stands at the front of the room so far: with `room.iter_mut().zip(fours)` the room is known again only after it,
    // by the pairs that were handed out.
    for (i, four) in fours.iter().enumerate() {
        room[i] = u32::from_le_bytes(*four);
    }
    &room[..fours.len()]
}
