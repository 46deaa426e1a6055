//! Bytes that come in.
ghost use Rattle.std.specs.Prelude.{◌≤◌, length, IfOk};

use std::io;
use std::io::{ErrorKind, Read};

/// Reads some bytes into the buffer, and answers how many; 0 at the end. A read that a signal has interrupted
/// is made again.
pub(crate) fn read_some<R: Read>(input: &mut R, buffer: &mut [u8]) -> io::Result<usize>
    ensures { IfOk result (λ n. n ≤ length buffer.old) }
{
    // A count that is never reached stands for a loop that waits on input.
    for _ in 0..u64::MAX {
        match input.read(buffer) {
            Err(e) if e.kind() == ErrorKind::Interrupted => {}
            answer => return answer,
        }
    }
    Ok(0)
}
