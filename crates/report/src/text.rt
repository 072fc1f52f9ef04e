// Bytes and decimal numbers, written at the end of a text: a list of bytes with room for so many, as there is no heap. Each function asks for the room that it needs.
// `write!` is not used: what it promises holds where it ends well, and it doesn't say that it does where there is room. Every byte is promised here.
ghost use Rattle.std.specs.Prelude.{◌≡◌, ℕ, ◌+◌, ◌≤◌, ◌++◌, length};
ghost use Rattle.arrayvec.specs.ArrayVec.{array_vec_len};
ghost use Rattle.meaning.specs.Program.{decimal};
ghost use Rattle.report.specs.Room as Room;

use arrayvec::ArrayVec;
use itoa::Buffer;

// No number of 64 bits has more digits.
pub const MAX_DIGITS: usize = 20;

// No state has more: it is a number of 32 bits.
pub const STATE_DIGITS: usize = 10;

// No index of an event of a run has more, which is below 4,096, and no variable and no value of an event, which have 8 bits.
pub const SMALL_DIGITS: usize = 4;

pub fn put<const N: usize>(text: &mut ArrayVec<u8, N>, bytes: &[u8])
    requires { array_vec_len text.old + length bytes.now ≤ N }
    ensures { text.new.items ≡ text.old.items ++ bytes.now }
{
    // There is room for all of them, so they are never refused.
    let _ = text.try_extend_from_slice(bytes);
}

#[tactic(auto, using(crate::proofs::Numbers::number_put))]
pub fn put_number<const N: usize>(text: &mut ArrayVec<u8, N>, n: u64)
    requires { array_vec_len text.old + Room.max_digits ≤ N }
    ensures puts { text.new.items ≡ text.old.items ++ decimal n }
    ensures upper_bound { array_vec_len text.new ≤ array_vec_len text.old + Room.max_digits }
{
    put(text, Buffer::new().format(n).as_bytes());
}
