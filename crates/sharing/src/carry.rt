//! The grains that are carried on.
ghost use Rattle.std.specs.Prelude.{◌≡◌, ◌*◌, ◌^◌, ◌≤◌, length, pos, ◌+ℤ◌, ◌-ℤ◌, ◌*ℤ◌, unsigned_abs};
ghost use Rattle.sharing.specs.Shares.{grains_per_cent, total};
ghost use Rattle.sharing.specs.SharedOut.{most_shares};

use crate::grains::GRAINS_PER_CENT;

/// What the shared cents leave of the grains.
pub(crate) fn carry_of(grains: i64, cents: &[i64]) -> i128
    requires { length cents.now ≤ most_shares }
    ensures { pos grains_per_cent *ℤ total cents.now +ℤ result ≡ grains }
{
    left_of(grains, sum_of(cents))
}

/// What so many cents leave of the grains.
fn left_of(grains: i64, cents: i128) -> i128
    requires { unsigned_abs cents ≤ most_shares * 2 ^ 63 }
    ensures { result ≡ grains -ℤ pos grains_per_cent *ℤ cents }
{
    grains as i128 - GRAINS_PER_CENT as i128 * cents
}

/// All shares together.
fn sum_of(cents: &[i64]) -> i128
    requires { length cents.now ≤ most_shares }
    ensures value { result ≡ total cents.now }
    ensures bound { unsigned_abs result ≤ most_shares * 2 ^ 63 }
{
    let mut sum = 0i128;
    for share in cents {
        sum += *share as i128;
    }
    sum
}
