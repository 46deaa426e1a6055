//! Demand curves, and the book that has one for each requirement.
//!
//! A curve tells what a requirement's shortage is worth: the price of the first step whose margin,
//! on top of the quantity, is within the target. Every `Curve` and every `CurveBook` that exists is
//! sound; loading refuses anything else, and then leaves what was there.
#![tactic(auto)]

ghost use Rattle.curves.specs.Steps.{JudgedLaw};
ghost use Rattle.curves.specs.Value.{ValueLaw};

mod book;
mod curve;
mod step;

pub use crate::book::{CurveBook, MOST_CURVES};
pub use crate::curve::Curve;
pub use crate::step::{MOST_MARGIN, MOST_PRICE, MOST_STEPS, NO_STEP, Step};

/// More quantity never raises a curve's value, and a higher target never lowers it.
pub fn value_never_rises() -> u8
    ensures { ValueLaw }
{
    0
}

/// Exactly the curves are accepted: in range, falling step by step, and ending at margin 0.
pub fn exactly_curves_are_accepted() -> u8
    ensures { JudgedLaw }
{
    0
}
