#![tactic(auto)]
// Reading in blocks. A block is full until the input ends, so that no other block cuts a record short.
ghost use Rattle.std.specs.Prelude.{◌≡◌, ◌<◌, ◌≤◌, length, take, IfOk, OnErr};
ghost use Rattle.std.specs.Io.KnownBytes.{Consumes, IsAtEnd};
ghost use Rattle.input.specs.Read.{SomeRead};

use std::io;
use std::io::Read;

// Reads until the room is full or the input ends, and hands back how many bytes were read. They stand at the start of the room, in their
// order; so do those that were read before a read failed.
pub fn fill<R: Read>(input: &mut R, room: &mut [u8]) -> io::Result<usize>
    ensures within { IfOk result (λ n. n ≤ length room.new) }
    ensures counted { IfOk result (λ n. n ≡ length (take n room.new)) }
    ensures read { IfOk result (λ n. Consumes (R.remaining input.old) (R.remaining input.new) (take n room.new)) }
    ensures ended { IfOk result (λ n. n < length room.new → IsAtEnd (R.remaining input.new)) }
    ensures failed { OnErr result (SomeRead (R.remaining input.old) (R.remaining input.new) room.new) }
{
    let mut n = 0;
    while n < room.len() {
        match input.read(&mut room[n..])? {
            0 => break,
            more => n += more,
        }
    }
    Ok(n)
}
