//! Loading a curve book, and what it tells.
ghost use Rattle.std.specs.Prelude.{◌≡◌, ◌≤◌, [], ◌∷◌, map, length, take, MatchResult};
ghost use Rattle.curves.specs.Steps.{most_curves};
ghost use Rattle.curves.specs.Value.{value_at};
ghost use Rattle.curves.specs.Book.{steps_of, curves_of, steps_at_lem, book_verdict};

use crate::book::{CurveBook, MOST_CURVES};
use crate::curve::Curve;
use bounded::Bounded;
use faults::Fault;

impl CurveBook {
    /// A book of one curve, which has no steps.
    pub fn blank() -> CurveBook
        ensures { curves_of result ≡ [] ∷ [] }
    {
        CurveBook {
            curves: Bounded::first_of(&[Curve::empty()]),
        }
    }

    /// Takes the curves over. No curve, or more than 32, is refused: it tells how many there were,
    /// and the book stays as it was.
    pub fn load(&mut self, curves: &[Curve]) -> Result<(), Fault>
        ensures reply { result ≡ book_verdict (length curves.now) }
        ensures holds { MatchResult result (λ _. curves_of self.new ≡ map steps_of curves.now) (λ _. self.new ≡ self.old) }
    {
        let count = curves.len();
        if count < 1 || MOST_CURVES < count {
            return Err(Fault::CurveSteps {
                curve: count,
                step: 0,
            });
        }
        *self = CurveBook {
            curves: Bounded::first_of(curves),
        };
        Ok(())
    }

    /// The curves, by the number of their requirement.
    pub fn curves(&self) -> &[Curve]
        ensures value { map steps_of result.now ≡ curves_of self.now }
        ensures count { length result.now ≡ length (curves_of self.now) }
        ensures some { 1 ≤ length result.now }
        ensures few { length result.now ≤ most_curves }
    {
        self.curves.as_slice()
    }

    /// How many curves the book has.
    pub fn count(&self) -> usize
        ensures value { result ≡ length (curves_of self.now) }
        ensures some { 1 ≤ result }
        ensures few { result ≤ most_curves }
    {
        self.curves().len()
    }

    /// The value of the requirement's curve, or 0 where the book has no curve for it.
    pub fn value(&self, requirement: usize, target: u32, quantity: u128) -> u32
        ensures value { result ≡ value_at (steps_at_lem (curves_of self.now) requirement) target quantity }
    {
        self.curves()
            .get(requirement)
            .map_or(0, |curve| curve.value(target, quantity))
    }
}
