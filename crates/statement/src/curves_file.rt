//! The curve book file, and the line of one that is refused.
ghost use Rattle.std.specs.Prelude.{◌≡◌, ◌≤◌, length, IfOk};
ghost use Rattle.curves.specs.Book.{curves_of};
ghost use Rattle.faults.specs.Told.{told_of};
ghost use Rattle.feed.specs.CurveFile.{file_curves};
ghost use Rattle.lines.specs.Texts.{text};
ghost use Rattle.lines.specs.declared.line.Line.TheVariants.{Refused as refusal};
ghost use Rattle.statement.specs.Refusals.{RefusedBy};

use crate::problem::Problem;
use crate::streams::read_some;
use curves::CurveBook;
use faults::Fault;
use feed::read_curve_book;
use lines::{Line, write_line};
use std::io::Write;
use std::{fs, io};

/// One byte more than the longest file that can be accepted: a longer file is refused by its length alone.
const MOST_BYTES: usize = 2115;

/// Room for a line.
const ROOM: usize = 64;

/// The front of the file, as much as fits, and how much that is.
// Nothing is allocated for it. The loop counts nothing: a file is read out in no more reads than it has bytes.
fn read_front(rt: &HostRuntime, bytes: &mut [u8]) -> io::Result<usize>
    ensures { IfOk result (λ n. n ≤ length bytes.old) }
{
    let mut file = fs::open(rt, "curves.bin")?;
    let mut length = 0;
    for _ in 0..bytes.len() {
        let got = read_some(&mut file, &mut bytes[length..])?;
        if got == 0 {
            break;
        }
        length += got;
    }
    Ok(length)
}

/// The curve book of a file's bytes, or why the file is refused.
fn curve_book(bytes: &[u8]) -> Result<CurveBook, Fault>
    ensures reply { RefusedBy 51 result }
    ensures holds { IfOk result (λ book. curves_of book ≡ file_curves bytes.now) }
{
    let mut book = CurveBook::blank();
    read_curve_book(bytes, &mut book)?;
    Ok(book)
}

/// The curve book of the file, or why the file is refused.
pub(crate) fn read_curves(rt: &HostRuntime) -> Result<Result<CurveBook, Fault>, Problem>
    ensures { IfOk result (λ book. RefusedBy 51 book) }
{
    // Memory of a fixed size, for a file of any length.
    let mut bytes = [0; MOST_BYTES];
    let length = read_front(rt, &mut bytes).map_err(Problem::Curves)?;
    Ok(curve_book(&bytes[..length]))
}

/// The line of a file that is refused.
fn refusal_line(room: &mut [u8; ROOM], fault: Fault) -> &[u8]
    requires { (told_of fault).number ≡ 51 }
    ensures { result.now ≡ text (refusal 51 0) }
{
    let line = Line::Refused {
        number: fault.number(),
        offset: 0,
    };
    match write_line(room, line) {
        Ok(length) => &room[..length],
        // No line is longer than the room.
        Err(_) => unreachable!(),
    }
}

/// Writes the line of a file that is refused.
pub(crate) fn refuse_curves(rt: &HostRuntime, fault: Fault) -> Result<(), Problem>
    requires { (told_of fault).number ≡ 51 }
{
    rt.stdout()
        .write_all(refusal_line(&mut [0; ROOM], fault))
        .map_err(Problem::Output)
}
