//! A line by itself.
ghost use Rattle.std.specs.Prelude.{◌≡◌, ◌++◌, length, drop, MatchResult};
ghost use Rattle.lines.specs.Putting.{Closes, write_answer};
ghost use Rattle.lines.specs.Texts.{text};
ghost use Rattle.lines.specs.declared.line.Line.TheVariants.{Refused as refusal};

use crate::line::Line;
use crate::tail::Tail;
use crate::text::{LINES_ROOM, MOST_LINE};
use faults::Fault;

/// Writes a line to the front of the buffer and answers its length. A buffer that is too short is refused
/// with the length of the line, and left as it was.
pub fn write_line(out: &mut [u8], line: Line) -> Result<usize, Fault>
    ensures reply { result ≡ write_answer (length (text line)) (length out.old) }
    ensures holds { MatchResult result (λ n. out.new ≡ text line ++ drop n out.old) (λ _. out.new ≡ out.old) }
{
    let mut room = [0; MOST_LINE];
    let mut tail = Tail::new(&mut room);
    tail.line(line);
    let told = tail.text();
    let needed = told.len();
    if out.len() < needed {
        return Err(Fault::BufferTooShort { needed });
    }
    out[..needed].copy_from_slice(told);
    Ok(needed)
}

/// The line of a refusal, at the end of the buffer. Answers where it begins.
pub fn write_refusal(out: &mut [u8; LINES_ROOM], number: u16, offset: u64) -> usize
    ensures { Closes (text (refusal number offset)) out.old out.new result }
{
    let mut tail = Tail::new(out);
    tail.line(Line::Refused { number, offset });
    tail.start()
}
