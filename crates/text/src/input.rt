// The input of a program.
ghost use Rattle.std.specs.Prelude.{◌≤◌, ◌<◌, length, take, OnOk};
ghost use Rattle.std.specs.Io.KnownBytes.{Consumes, IsAtEnd};

use std::io::{Read, Result};

// An input of nearbook or units of so many bytes is too long, so a buffer of this size shows one that is.
pub const TOO_LONG: usize = 65537;

// Reads until the input ends, the buffer is full or a read fails: the number of bytes, which stand in front, and whether no read failed. A loop of
// its own: std's `read_to_end` allocates, and `read_exact` does not tell how much came before the end.
pub fn read_full<R: Read>(input: &mut R, buffer: &mut [u8]) -> (usize, Result<()>)
    ensures bound { result.0 ≤ length buffer.new }
    ensures bytes { Consumes (R.remaining input.old) (R.remaining input.new) (take result.0 buffer.new) }
    ensures end { OnOk result.1 (result.0 < length buffer.new → IsAtEnd (R.remaining input.new)) }
{
    let mut size = 0;
    while size < buffer.len() {
        match input.read(&mut buffer[size..]) {
            Ok(0) => break,
            Ok(n) => size += n,
            Err(error) => return (size, Err(error)),
        }
    }
    (size, Ok(()))
}
