//! The ranges that an account must be in before and after each posting.
ghost use Rattle.std.specs.Prelude.{◌≡◌, ◌≤◌, true, ◌+ℤ◌, unsigned_abs};
ghost use Rattle.accounts.specs.Ranges.{most_amount, amount_fits_lem, reserves_fit_lem, hour_fits_lem, limits_fit_lem, amounts_fit_lem, supplier_fits, customer_fits};
ghost use Rattle.accounts.specs.Outcomes.{provided};

use crate::customer::Customer;
use crate::supplier::{MOST_TENTHS, Supplier};
use market::Reserves;
use sharing::GRAINS_PER_CENT;

/// The furthest that cents, or the hour's grains, go from 0.
const MOST_AMOUNT: i64 = 4_000_000_000_000_000_000;

/// Whether a number is in the range of cents and grains.
fn amount_fits(number: i64) -> bool
    ensures value { result ≡ amount_fits_lem number }
    ensures bound { result ≡ true → unsigned_abs number ≤ most_amount }
{
    -MOST_AMOUNT <= number && number <= MOST_AMOUNT
}

/// The amount with more added, or less, if that is in range.
pub(crate) fn added(amount: i64, more: i128) -> Option<i64>
    ensures { result ≡ provided (amount_fits_lem (amount +ℤ more)) (amount +ℤ more) }
{
    let sum = more.checked_add(i128::from(amount))?;
    // Not by `then_some`: it would narrow the sum before the test.
    if sum.unsigned_abs() <= MOST_AMOUNT as u128 {
        Some(sum as i64)
    } else {
        None
    }
}

/// Whether each product is in the range of a schedule.
fn reserves_fit(reserves: &Reserves) -> bool
    ensures { result ≡ reserves_fit_lem reserves.now }
{
    reserves.thirty <= MOST_TENTHS
        && reserves.ten <= MOST_TENTHS
        && reserves.spinning <= MOST_TENTHS
}

impl Supplier {
    /// Less than a cent is held, and the day-ahead schedule is in range.
    fn hour_fits(&self) -> bool
        ensures { result ≡ hour_fits_lem self.now }
    {
        i64::from(self.held) < GRAINS_PER_CENT && reserves_fit(&self.ahead)
    }

    /// The upper limit and the response rate are in range.
    fn limits_fit(&self) -> bool
        ensures { result ≡ limits_fit_lem self.now }
    {
        self.upper <= MOST_TENTHS && self.response <= MOST_TENTHS
    }

    /// The cents and the hour's grains are in range.
    fn amounts_fit(&self) -> bool
        ensures { result ≡ amounts_fit_lem self.now }
    {
        amount_fits(self.cents) && amount_fits(self.hour)
    }

    /// Whether all that the account has is in its range. Any location and kind will do.
    pub fn in_ranges(&self) -> bool
        ensures { result ≡ supplier_fits self.now }
    {
        self.hour_fits() && self.limits_fit() && self.amounts_fit()
    }
}

impl Customer {
    /// Whether the cents are in their range.
    pub fn in_ranges(&self) -> bool
        ensures { result ≡ customer_fits self.now }
    {
        amount_fits(self.cents)
    }
}
