//! The file of a curve book.
ghost use Rattle.std.specs.Prelude.{◌≡◌, ◌+◌, ◌*◌, ◌<◌, ◌≤◌, map, length, IfOk, MatchResult};
ghost use Rattle.std.specs.List.{range_with_len};
ghost use Rattle.sums.specs.Verdict.{told};
ghost use Rattle.curves.specs.Steps.{most_curves, curve_verdict};
ghost use Rattle.curves.specs.Book.{steps_of, curves_of};
ghost use Rattle.feed.specs.CurveFile.{file_count, file_steps, file_length, step_count_lem, first_step, step_in, file_curves, length_verdict, curves_verdict, file_verdict};

use crate::numbers::{read_u16, read_u32};
use curves::{Curve, CurveBook, MOST_CURVES, MOST_STEPS, NO_STEP, Step};
use faults::Fault;

/// The most steps of a curve that are looked at: one more than it may have is refused already.
const SEEN_STEPS: usize = MOST_STEPS + 1;

/// The bytes of a file that is as long as its counts ask for: how many curves it has, and how many
/// steps in all.
#[derive(Clone, Copy)]
struct CurveFile<'a> {
    bytes: &'a [u8],
    curves: usize,
    steps: usize,
    ghost count: { curves ≡ file_count bytes.now },
    ghost total: { steps ≡ file_steps bytes.now },
    ghost long: { length bytes.now ≡ file_length bytes.now },
    ghost some: { 1 ≤ curves },
    ghost few: { curves ≤ most_curves },
}

/// How many steps curve `k` has.
fn step_count(bytes: &[u8], k: usize) -> usize
    requires { 4 + 2 * k ≤ length bytes.now }
    ensures value { result ≡ step_count_lem bytes.now k }
    ensures bound { result ≤ 65535 }
{
    read_u16(bytes, 2 + 2 * k) as usize
}

/// How many steps the first `count` curves have together.
fn count_steps(bytes: &[u8], count: usize) -> usize
    requires { (count ≤ most_curves) × (2 + 2 * count ≤ length bytes.now) }
    ensures value { result ≡ first_step bytes.now count }
    ensures bound { result ≤ 65535 * count }
{
    let (pairs, _) = bytes[2..2 + 2 * count].as_chunks();
    let mut steps = 0;
    for &pair in pairs {
        steps += u16::from_le_bytes(pair) as usize;
    }
    steps
}

impl<'a> CurveFile<'a> {
    /// The file, if it has an allowed number of curves, and the length that its counts ask for.
    fn new(bytes: &'a [u8]) -> Result<CurveFile<'a>, Fault>
        ensures reply { told result ≡ length_verdict bytes.now }
        ensures holds { IfOk result (λ f. f.bytes.now ≡ bytes.now) }
    {
        if bytes.len() < 2 {
            return Err(Fault::CurveSteps { curve: 0, step: 0 });
        }
        let curves = read_u16(bytes, 0) as usize;
        let refusal = Fault::CurveSteps {
            curve: curves,
            step: 0,
        };
        if curves < 1 || MOST_CURVES < curves || bytes.len() < 2 + 2 * curves {
            return Err(refusal);
        }
        let steps = count_steps(bytes, curves);
        if bytes.len() != 2 + 2 * curves + 8 * steps {
            return Err(refusal);
        }
        Ok(CurveFile {
            bytes,
            curves,
            steps,
        })
    }

    /// Step `j`, counted over all curves.
    fn step(&self, j: usize) -> Step
        requires { j < self.now.steps }
        ensures { result ≡ step_in self.now.bytes.now j }
    {
        let margins = 2 + 2 * self.curves;
        let prices = margins + 4 * self.steps;
        Step {
            margin: read_u32(self.bytes, margins + 4 * j),
            price: read_u32(self.bytes, prices + 4 * j),
        }
    }

    /// Curve `k`, whose `count` steps begin at step `first` of the file.
    fn curve(&self, k: usize, first: usize, count: usize) -> Result<Curve, Fault>
        requires { first + count ≤ self.now.steps }
        ensures reply { told result ≡ curve_verdict k (map (step_in self.now.bytes.now) (range_with_len first count)) }
        ensures holds { IfOk result (λ c. steps_of c ≡ map (step_in self.now.bytes.now) (range_with_len first count)) }
    {
        // Room of fixed size, since nothing is allocated: a slice of it goes on.
        let mut room = [NO_STEP; SEEN_STEPS];
        let seen = count.min(SEEN_STEPS);
        let steps = &mut room[..seen];
        for (i, step) in steps.iter_mut().enumerate() {
            *step = self.step(first + i);
        }
        let mut curve = Curve::empty();
        curve.load(k, steps)?;
        Ok(curve)
    }

    /// Fills the book with the curves, or tells the first wrong one; the book then stays as it was.
    fn load_into(&self, book: &mut CurveBook) -> Result<(), Fault>
        ensures reply { result ≡ curves_verdict 0 (file_curves self.now.bytes.now) }
        ensures holds { MatchResult result (λ _. curves_of book.new ≡ file_curves self.now.bytes.now) (λ _. book.new ≡ book.old) }
    {
        // Room of fixed size again.
        let mut room = [Curve::empty(); MOST_CURVES];
        let curves = &mut room[..self.curves];
        let mut first = 0;
        for (k, place) in curves.iter_mut().enumerate() {
            let count = step_count(self.bytes, k);
            *place = self.curve(k, first, count)?;
            first += count;
        }
        book.load(curves)
    }
}

/// Fills the book from the bytes of its file. A file of the wrong length tells its count, a wrong
/// curve its number and its first wrong step; the book then stays as it was.
pub fn read_curve_book(bytes: &[u8], book: &mut CurveBook) -> Result<(), Fault>
    ensures reply { result ≡ file_verdict bytes.now }
    ensures holds { MatchResult result (λ _. curves_of book.new ≡ file_curves bytes.now) (λ _. book.new ≡ book.old) }
{
    CurveFile::new(bytes)?.load_into(book)
}
