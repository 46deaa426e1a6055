//! What every sharing rule does, and the law it keeps.
ghost use Rattle.std.specs.Prelude.{◌≡◌, ℕ, ◌<◌, ◌≤◌, ℤ, pos, ◌*ℤ◌, neg_ℤ, ◌≤ℤ◌};
ghost use Rattle.sums.specs.Floor.{floor};
ghost use Rattle.sharing.specs.Rule.{Fair, InRange, shareable, most_cents, most_parts};

/// The largest sum of all parts that a rule shares among.
pub const MOST_PARTS: u64 = 500_000;

/// The most whole cents, above and below 0, that a rule shares.
pub const MOST_CENTS: i64 = 9_000_000_000_000;

/// A sharing rule. Its ghost member `share` is a fixed function of T, the whole cents to be shared, B,
/// the sum of the parts before, w, the part, and W, the sum of all parts. Inside the ranges it is at
/// least floor(T x w / W) and at most floor(T x (B + w) / W) - floor(T x B / W); outside it is 0.
pub trait SharingRule {
    ghost share: { ℤ → ℕ → ℕ → ℕ → ℤ };

    /// The share of `part`, in whole cents; 0 outside the ranges.
    // Four numbers, as in the definition of a rule: a struct would be made for each part and taken apart at once.
    fn share_of(cents: i64, before: u64, part: u64, total: u64) -> i64
        ensures { result ≡ share cents before part total };

    ghost fair: { Fair share };
}

/// Whether the arguments are in the ranges where a rule shares.
pub(crate) fn is_shareable(cents: i64, before: u64, part: u64, total: u64) -> bool
    ensures { result ≡ shareable cents before part total }
{
    0 < total
        && total <= MOST_PARTS
        && -MOST_CENTS <= cents
        && cents <= MOST_CENTS
        && before <= total
        && part <= total - before
}

/// The exact share of `part`, rounded down.
pub(crate) fn rounded_down(cents: i64, part: u64, total: u64) -> i64
    requires ranged { InRange cents total }
    requires within { part ≤ total }
    ensures value { result ≡ floor (cents *ℤ pos part) total }
    ensures low { neg_ℤ (pos most_cents) ≤ℤ result }
    ensures high { result ≤ℤ pos most_cents }
{
    floor_of(cents * part as i64, total)
}

/// The quotient, rounded toward minus infinity.
fn floor_of(product: i64, total: u64) -> i64
    requires some { 0 < total }
    requires few { total ≤ most_parts }
    ensures { result ≡ floor product total }
{
    product.div_euclid(total as i64)
}
