// The input, read to its end.
ghost use Rattle.std.specs.Prelude.{ℕ, ◌<◌, ◌≤◌, length, take, IfOk};
ghost use Rattle.std.specs.Io.KnownBytes.{Consumes, IsAtEnd};

use std::io;
use std::io::{ErrorKind, Read};

// Reads until `bytes` is full or the input ends: how many bytes there are. After the end nothing is read, since a terminal would ask for more. A read that
// a signal interrupts is tried again. Of an error nothing is kept: what was read before it may be no more than a part.
pub fn read_to_end<R: Read>(reader: &mut R, bytes: &mut [u8]) -> io::Result<usize>
    ensures within { IfOk result (λ n. n ≤ length bytes.new) }
    ensures taken { IfOk result (λ n. Consumes (R.remaining reader.old) (R.remaining reader.new) (take n bytes.new)) }
    ensures ended { IfOk result (λ n. n < length bytes.new → IsAtEnd (R.remaining reader.new)) }
{
    let mut done = 0;
    // A loop is to have an end, and reads that are interrupted again and again have none: so many tries are more than ever happen.
    for _ in 0..u64::MAX {
        if bytes.len() <= done {
            return Ok(done);
        }
        match reader.read(&mut bytes[done..]) {
            Ok(0) => return Ok(done),
            Ok(n) => done += n,
            Err(fault) => {
                if fault.kind() != ErrorKind::Interrupted {
                    return Err(fault);
                }
            }
        }
    }
    Err(io::Error::from(ErrorKind::Interrupted))
}
