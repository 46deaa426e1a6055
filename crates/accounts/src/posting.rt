//! What a clearing or an interval posts to an account.
ghost use Rattle.std.specs.Prelude.{◌≡◌, ◌^◌, ◌≤◌, ◌&&◌, pos, ◌+ℤ◌, ◌-ℤ◌, ◌*ℤ◌, slice_index_or, unsigned_abs};
ghost use Rattle.market.specs.Prices.{over};
ghost use Rattle.market.specs.Tables.{no_prices};
ghost use Rattle.accounts.specs.Outcomes.{provided};
ghost use Rattle.accounts.specs.Ranges.{amount_fits_lem, supplier_fits};
ghost use Rattle.accounts.specs.Terms.{earned as earns, paid_for, earned_by, hour_by_lem, ahead_by_lem, post_by};

use crate::ranges::added;
use crate::supplier::Supplier;
use market::{ProductPrices, Reserves};

/// Which schedule the rows are.
#[derive(Clone, Copy, PartialEq, Eq, Debug)]
pub enum Timing {
    DayAhead,
    RealTime,
}

/// The terms on which schedule rows are paid.
#[derive(Clone, Copy, PartialEq, Eq, Debug)]
pub struct Terms {
    /// What each product earns at each location.
    pub prices: [ProductPrices; 16],
    /// For how long.
    pub seconds: u32,
    /// Which schedule the rows are.
    pub timing: Timing,
}

/// What one product earns in a second by how much its schedule differs from what is paid already.
fn product_earned(price: u64, scheduled: u32, paid: u32) -> i128
    ensures value { result ≡ pos price *ℤ (pos scheduled -ℤ pos paid) }
    ensures bound { unsigned_abs result ≤ 2 ^ 96 }
{
    price as i128 * (scheduled as i128 - paid as i128)
}

/// What all products earn in a second, at prices of any size.
fn earned(prices: &ProductPrices, scheduled: &Reserves, paid: &Reserves) -> i128
    ensures { result ≡ earns prices.now (over scheduled.now paid.now) }
{
    let thirty = product_earned(prices.thirty, scheduled.thirty, paid.thirty);
    let ten = product_earned(prices.ten, scheduled.ten, paid.ten);
    let spinning = product_earned(prices.spinning, scheduled.spinning, paid.spinning);
    thirty + ten + spinning
}

/// Earnings of a second beyond this are past the range of an amount, whatever it was.
const MOST_EARNED: u128 = 1 << 90;

/// The amount with so much for each second added, if that is in range. Earnings of any size will do.
fn grown(amount: i64, in_second: i128, seconds: u32) -> Option<i64>
    ensures { result ≡ provided (amount_fits_lem (amount +ℤ in_second *ℤ pos seconds)) (amount +ℤ in_second *ℤ pos seconds) }
{
    if seconds == 0 {
        return added(amount, 0);
    }
    if in_second.unsigned_abs() > MOST_EARNED {
        return None;
    }
    added(amount, in_second * seconds as i128)
}

/// The prices at a location; past the table they are 0.
fn prices_at(prices: &[ProductPrices], location: usize) -> ProductPrices
    ensures { result ≡ slice_index_or prices.now location no_prices }
{
    prices.get(location).copied().unwrap_or_default()
}

impl Supplier {
    /// The schedule that is paid already: none before the day-ahead schedule is posted.
    fn paid_for(&self, terms: &Terms) -> Reserves
        ensures { result ≡ paid_for terms.now self.now }
    {
        match terms.timing {
            Timing::DayAhead => Reserves::NONE,
            Timing::RealTime => self.ahead,
        }
    }

    /// What the row earns in a second.
    fn earned_by(&self, terms: &Terms, reserves: &Reserves) -> i128
        ensures { result ≡ earned_by terms.now self.now reserves.now }
    {
        let prices = prices_at(&terms.prices, usize::from(self.location));
        let paid = self.paid_for(terms);
        earned(&prices, reserves, &paid)
    }

    /// The day-ahead schedule with the row posted.
    fn ahead_by(&self, terms: &Terms, reserves: Reserves) -> Reserves
        ensures { result ≡ ahead_by_lem terms.now self.now reserves }
    {
        match terms.timing {
            Timing::DayAhead => reserves,
            Timing::RealTime => self.ahead,
        }
    }

    /// The hour's grains with the row posted, if they are in range.
    fn hour_by(&self, terms: &Terms, reserves: &Reserves) -> Option<i64>
        ensures { result ≡ provided (amount_fits_lem (hour_by_lem terms.now self.now reserves.now)) (hour_by_lem terms.now self.now reserves.now) }
    {
        grown(self.hour, self.earned_by(terms, reserves), terms.seconds)
    }

    /// The account with its row posted, if it is in its ranges and stays there.
    // A check of every row asks only whether there is one: made in place, it is not written out for that.
    #[inline(always)]
    pub fn posted(&self, terms: &Terms, reserves: Reserves) -> Option<Supplier>
        ensures { result ≡ provided (supplier_fits self.now && supplier_fits (post_by terms.now self.now reserves)) (post_by terms.now self.now reserves) }
    {
        let hour = self.hour_by(terms, &reserves)?;
        let ahead = self.ahead_by(terms, reserves);
        self.moved_to(self.with_hour(hour, ahead))
    }
}
