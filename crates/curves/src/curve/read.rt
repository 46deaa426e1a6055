//! What a curve tells.
ghost use Rattle.std.specs.Prelude.{◌≡◌, ◌+◌, [], nat_le};
ghost use Rattle.curves.specs.Steps.{IsCurve};
ghost use Rattle.curves.specs.Value.{value_at};
ghost use Rattle.curves.specs.Book.{steps_of};

use crate::curve::Curve;
use crate::step::Step;
use bounded::Bounded;

/// Whether the quantity and the step's margin together are within the target.
fn reaches(step: Step, target: u32, quantity: u128) -> bool
    ensures { result ≡ nat_le (quantity + step.margin) target }
{
    step.margin <= target && quantity <= (target - step.margin) as u128
}

/// The price of the first step whose margin, on top of the quantity, is within the target, else 0.
fn value_of(steps: &[Step], target: u32, quantity: u128) -> u32
    ensures { result ≡ value_at steps.now target quantity }
{
    for step in steps {
        if reaches(*step, target, quantity) {
            return step.price;
        }
    }
    0
}

impl Curve {
    /// The curve of no steps, whose value is 0 everywhere.
    pub fn empty() -> Curve
        ensures { steps_of result ≡ [] }
    {
        Curve {
            steps: Bounded::empty(),
        }
    }

    /// The curve's steps, from the highest price down.
    pub fn steps(&self) -> &[Step]
        ensures value { result.now ≡ steps_of self.now }
        ensures law { IsCurve result.now }
    {
        self.steps.as_slice()
    }

    /// The price of the first step whose margin, on top of the quantity, is within the target, else 0.
    pub fn value(&self, target: u32, quantity: u128) -> u32
        ensures value { result ≡ value_at (steps_of self.now) target quantity }
    {
        value_of(self.steps(), target, quantity)
    }
}

impl Default for Curve {
    ghost is_default = { λ c. steps_of c ≡ [] };

    fn default() -> Curve {
        Curve::empty()
    }
}
