//! Loading a curve.
ghost use Rattle.std.specs.Prelude.{◌≡◌, MatchResult};
ghost use Rattle.curves.specs.Steps.{curve_verdict};
ghost use Rattle.curves.specs.Book.{steps_of};

use crate::curve::Curve;
use crate::step::{Step, judge};
use bounded::Bounded;
use faults::Fault;

impl Curve {
    /// Takes the steps over. `number` is the curve's place in its book (0 for one by itself), which
    /// a refusal tells with the first wrong step; the curve then stays as it was.
    pub fn load(&mut self, number: usize, steps: &[Step]) -> Result<(), Fault>
        ensures reply { result ≡ curve_verdict number steps.now }
        ensures holds { MatchResult result (λ _. steps_of self.new ≡ steps.now) (λ _. self.new ≡ self.old) }
    {
        judge(number, steps)?;
        *self = Curve {
            steps: Bounded::first_of(steps),
        };
        Ok(())
    }
}
