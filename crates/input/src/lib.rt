//! Reading an input that may never end.

#![tactic(auto)]

ghost use Rattle.std.specs.Prelude.{◌<◌, ◌≤◌, length, take, IfOk};
ghost use Rattle.std.specs.Io.KnownBytes.{Consumes, IsAtEnd};

use std::io;
use std::io::Read;

/// Reads until the input ends or the room is full, and no further; answers how many bytes then stand at the room's
/// front. Where it is known what the input has, these bytes are its first, and it has no more where the room is not
/// full.
pub fn fill<R: Read>(input: &mut R, room: &mut [u8]) -> io::Result<usize>
    ensures within { IfOk result (λ n. n ≤ length room.new) }
    ensures bytes { IfOk result (λ n. Consumes (R.remaining input.old) (R.remaining input.new) (take n room.new)) }
    ensures end { IfOk result (λ n. n < length room.new → IsAtEnd (R.remaining input.new)) }
{
    // kept: a loop over a count. `read_exact` answers no count, and with `io::copy` from `input.take(..)` the clause
    // `within` stayed open, since what it counts is known only where the input's bytes are.
    let mut len = 0;
    while len < room.len() {
        let got = input.read(&mut room[len..])?;
        if got == 0 {
            break;
        }
        len += got;
    }
    Ok(len)
}
