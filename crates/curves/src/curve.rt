//! A demand curve. What is done with one stands in the modules below.
ghost use Rattle.std.specs.Prelude.{◌≡◌, ◌≤◌, true, length};
ghost use Rattle.sums.specs.Verdict.{accepts};
ghost use Rattle.curves.specs.Steps.{most_steps, curve_verdict};

use crate::step::{MOST_STEPS, Step};
use bounded::Bounded;

mod load;
mod read;

/// Up to eight steps, which `load` has accepted.
#[derive(Clone, Copy)]
pub struct Curve {
    steps: Bounded<Step, MOST_STEPS>,
    ghost short: { length steps.items ≤ most_steps },
    ghost sound: { accepts (curve_verdict 0 steps.items) ≡ true },
}
