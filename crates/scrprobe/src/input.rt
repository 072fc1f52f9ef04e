// The words of the input: the call, the number of words of the set, the set, and what comes after it.
use std::alloc::{AllocError, Global};

// The longest set and list of events that are taken: longer than any that a set or a run has.
const MAX_TAKEN: usize = 5000;

// The longest input: the call, n, a set, and for a run three numbers and its events.
const MAX_WORDS: usize = 2 + MAX_TAKEN + 3 + MAX_TAKEN;

pub const MAX_BYTES: u64 = MAX_WORDS as u64 * 4;

// The number of the entry, its set, and the words behind the set.
#[derive(Drop)]
pub struct Input {
    pub entry: u32,
    set: Vec<u32>,
    behind: Vec<u32>,
}

// Lowest byte first. Bytes that are missing count as zeros.
fn word_of(bytes: &[u8]) -> u32 {
    let mut word = [0u8; 4];
    let n = bytes.len().min(4);
    word[..n].copy_from_slice(&bytes[..n]);
    u32::from_le_bytes(word)
}

impl Input {
    pub fn new(alloc: Global, bytes: &[u8]) -> Result<Input, AllocError> {
        let words: Vec<u32> = bytes.chunks(4).map(word_of).collect(alloc)?;
        let n = words.get(1).copied().unwrap_or(0) as usize;
        let n = n.min(MAX_TAKEN);
        let mut set: Vec<u32> = words.iter().skip(2).take(n).copied().collect(alloc)?;
        set.resize(n, 0)?;
        let behind = words.iter().skip(2 + n).copied().collect(alloc)?;
        Ok(Input {
            entry: words.first().copied().unwrap_or(0),
            set,
            behind,
        })
    }

    pub fn set(&self) -> &[u32] {
        &self.set
    }

    // The word i behind the set.
    pub fn argument(&self, i: usize) -> u32 {
        self.behind.get(i).copied().unwrap_or(0)
    }

    // The words behind the set from the word i on, at most so many as a run is given.
    pub fn events(&self, i: usize) -> &[u32] {
        let events = &self.behind[i.min(self.behind.len())..];
        &events[..events.len().min(MAX_TAKEN)]
    }
}
