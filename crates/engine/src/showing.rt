//! The lines that end a buffer.
ghost use Rattle.std.specs.Prelude.{◌≡◌, drop};

use lines::LINES_ROOM;

/// The lines that begin at `start` and end the buffer. None begin past its end.
pub fn lines_from(out: &[u8; LINES_ROOM], start: usize) -> &[u8]
    ensures { result.now ≡ drop start out.now }
{
    &out[start.min(LINES_ROOM)..]
}
