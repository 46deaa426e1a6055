//! A curve book. What is done with one stands in the module below.
ghost use Rattle.std.specs.Prelude.{◌≤◌, length};
ghost use Rattle.curves.specs.Steps.{most_curves};

use crate::curve::Curve;
use bounded::Bounded;

mod calls;

/// The most curves that a book has.
pub const MOST_CURVES: usize = 32;

/// One curve for each requirement, by its number.
#[derive(Clone, Copy)]
pub struct CurveBook {
    curves: Bounded<Curve, MOST_CURVES>,
    ghost some: { 1 ≤ length curves.items },
    ghost few: { length curves.items ≤ most_curves },
}
