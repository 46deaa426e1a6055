//! One step of a demand curve, and the judgement of a row of steps.
ghost use Rattle.std.specs.Prelude.{◌≡◌, ◌≤◌, true, [], ◌∷◌, ◌++◌, length, OnOk};
ghost use Rattle.sums.specs.Verdict.{accepts};
ghost use Rattle.curves.specs.Steps.{most_steps, in_range_lem, falls, curve_verdict};

use faults::Fault;

/// The most steps that a curve has.
pub const MOST_STEPS: usize = 8;
/// The largest margin of a step.
pub const MOST_MARGIN: u32 = 1_000_000;
/// The largest price of a step.
pub const MOST_PRICE: u32 = 100_000;

/// The price that holds where the quantity falls short of the target by at least the margin.
#[derive(Clone, Copy, PartialEq, Eq, Debug, Default)]
pub struct Step {
    pub margin: u32,
    pub price: u32,
}

/// What fills the places of an array that hold no step.
pub const NO_STEP: Step = Step {
    margin: 0,
    price: 0,
};

impl Step {
    /// Whether the step, by itself, may stand in a curve.
    fn is_in_range(self) -> bool
        ensures { result ≡ in_range_lem self }
    {
        self.margin <= MOST_MARGIN && 1 <= self.price && self.price <= MOST_PRICE
    }

    /// Whether the step is below the last of those before it, if there are any, in margin and in price.
    fn falls_from(self, before: &[Step]) -> bool
        ensures { result ≡ falls (before.now ++ self ∷ []) (length before.now) }
    {
        before.last().is_none_or(|last| self.margin < last.margin && self.price < last.price)
    }
}

/// Accepts the steps of a curve, or tells the first that is wrong.
pub(crate) fn judge(number: usize, steps: &[Step]) -> Result<(), Fault>
    ensures reply { result ≡ curve_verdict number steps.now }
    ensures short { OnOk result (length steps.now ≤ most_steps) }
    ensures sound { OnOk result (accepts (curve_verdict 0 steps.now) ≡ true) }
{
    for (i, step) in steps.iter().enumerate() {
        let is_last = i + 1 == steps.len();
        let is_sound = i < MOST_STEPS
            && step.is_in_range()
            && step.falls_from(&steps[..i])
            && (!is_last || step.margin == 0);
        if !is_sound {
            return Err(Fault::CurveSteps {
                curve: number,
                step: i,
            });
        }
    }
    Ok(())
}
