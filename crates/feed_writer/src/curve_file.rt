//! The file of a curve book, written into a buffer.
ghost use Rattle.std.specs.Prelude.{◌≡◌, ◌+◌, ◌*◌, ◌≤◌, map, length};
ghost use Rattle.std.specs.Bool.{⊤};
ghost use Rattle.std.specs.List.{flat_map};
ghost use Rattle.curves.specs.Steps.{most_curves};
ghost use Rattle.curves.specs.Book.{steps_of, curves_of};
ghost use Rattle.feed_writer.specs.Bytes.{bytes16, bytes32, written};
ghost use Rattle.feed_writer.specs.CurveBytes.{all_steps, WroteFile};
ghost use Rattle.feed_writer.specs.Lengths.{length_bytes16, length_bytes32};

use crate::put::{Number, Part, put_each};
use curves::{Curve, CurveBook, Step};
use faults::Fault;

/// How many steps a curve has.
struct StepCount;

impl Part<Curve> for StepCount {
    ghost SIZE = { 2 };

    ghost bytes = { λ curve. bytes16 (length (steps_of curve)) };

    ghost fitting = { λ _. ⊤ };

    const SIZE: usize = 2;

    fn put(out: &mut [u8], at: usize, curve: &Curve) {
        (curve.steps().len() as u16).put(out, at);
    }

    ghost sized = { λ curve. length_bytes16 (length (steps_of curve)) };
}

/// The margin of a step.
// A type for each column: what `put_each` writes is known of its type, and would have to be asked of a closure.
struct Margin;

impl Part<Step> for Margin {
    ghost SIZE = { 4 };

    ghost bytes = { λ step. bytes32 step.margin };

    ghost fitting = { λ _. ⊤ };

    const SIZE: usize = 4;

    fn put(out: &mut [u8], at: usize, step: &Step) {
        step.margin.put(out, at);
    }

    ghost sized = { λ step. length_bytes32 step.margin };
}

/// The price of a step.
struct Price;

impl Part<Step> for Price {
    ghost SIZE = { 4 };

    ghost bytes = { λ step. bytes32 step.price };

    ghost fitting = { λ _. ⊤ };

    const SIZE: usize = 4;

    fn put(out: &mut [u8], at: usize, step: &Step) {
        step.price.put(out, at);
    }

    ghost sized = { λ step. length_bytes32 step.price };
}

/// How many steps the curves have together.
fn count_steps(curves: &[Curve]) -> usize
    requires { length curves.now ≤ most_curves }
    ensures value { result ≡ length (all_steps (map steps_of curves.now)) }
    ensures bound { result ≤ 256 }
{
    let mut count = 0;
    for curve in curves {
        count += curve.steps().len();
    }
    count
}

/// One number of all steps, curve by curve, from `at` on. Answers where they end.
fn put_column<C: Part<Step>>(out: &mut [u8], at: usize, curves: &[Curve]) -> usize
    requires { at + C.SIZE * length (all_steps (map steps_of curves.now)) ≤ length out.old }
    ensures holds { out.new ≡ written at (flat_map C.bytes (all_steps (map steps_of curves.now))) out.old }
    ensures end { result ≡ at + C.SIZE * length (all_steps (map steps_of curves.now)) }
{
    let mut next = at;
    for curve in curves {
        next = put_each::<C, Step>(out, next, curve.steps());
    }
    next
}

/// Writes the file of the book, and answers its length. A buffer that is too short tells the length
/// needed, and stays as it was.
pub fn write_curve_book(book: &CurveBook, buffer: &mut [u8]) -> Result<usize, Fault>
    ensures { WroteFile (curves_of book.now) result buffer.old buffer.new }
{
    let curves = book.curves();
    let count = curves.len();
    let steps = count_steps(curves);
    let needed = 2 + 2 * count + 8 * steps;
    if buffer.len() < needed {
        return Err(Fault::BufferTooShort { needed });
    }
    (count as u16).put(buffer, 0);
    let margins = put_each::<StepCount, Curve>(buffer, 2, curves);
    let prices = put_column::<Margin>(buffer, margins, curves);
    put_column::<Price>(buffer, prices, curves);
    Ok(needed)
}
