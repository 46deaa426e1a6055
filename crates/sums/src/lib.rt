//! Sums, floor division and chains of checks: definitions (specs/) and lemmas (proofs/) that the
//! other crates share. It knows nothing of the subject. The functions below only name the laws.
#![tactic(auto)]

ghost use Rattle.sums.specs.Laws.{SumsExchange, FloorDivides, FirstFailureTold};

/// A double sum may be taken in either order.
pub fn sums_exchange<X, Y>() -> u8
    ensures { SumsExchange X Y }
{
    0
}

/// Floor division leaves a remainder that is not negative and below the divisor.
pub fn floor_divides() -> u8
    ensures { FloorDivides }
{
    0
}

/// A check of numbered things tells the first that fails.
pub fn first_failure_is_told<F>() -> u8
    ensures { FirstFailureTold F }
{
    0
}
