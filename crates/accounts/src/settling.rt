//! The end of an hour: what closing and voiding do to an account.
ghost use Rattle.std.specs.Prelude.{◌≡◌, true, ◌&&◌, pos, ◌+ℤ◌};
ghost use Rattle.accounts.specs.Ranges.{supplier_fits};
ghost use Rattle.accounts.specs.Outcomes.{provided};
ghost use Rattle.accounts.specs.Posting.{with_hour_lem, settle, settles, forget, charge, chargeable};

use crate::customer::Customer;
use crate::supplier::Supplier;
use market::Reserves;
use sharing::{rest_grains, whole_cents};

impl Supplier {
    /// The account as it would be, if it is in its ranges and would stay there.
    pub(crate) fn moved_to(&self, next: Supplier) -> Option<Supplier>
        ensures { result ≡ provided (supplier_fits self.now && supplier_fits next) next }
    {
        (self.in_ranges() && next.in_ranges()).then_some(next)
    }

    /// The account with other grains and another day-ahead schedule for the hour in hand.
    pub(crate) fn with_hour(&self, grains: i64, ahead: Reserves) -> Supplier
        ensures { result ≡ with_hour_lem self.now grains ahead }
    {
        Supplier {
            hour: grains,
            ahead,
            ..*self
        }
    }

    /// All grains that are not paid yet, where the account is in its ranges.
    fn unpaid(&self) -> i64
        requires { supplier_fits self.now ≡ true }
        ensures { result ≡ pos self.now.held +ℤ self.now.hour }
    {
        i64::from(self.held) + self.hour
    }

    /// The account once the hour's grains are paid in whole cents, if it is in its ranges and stays
    /// there.
    pub fn settled(&self) -> Option<Supplier>
        ensures { result ≡ provided (settles self.now) (settle self.now) }
    {
        if !self.in_ranges() {
            return None;
        }
        let unpaid = self.unpaid();
        let paid = Supplier {
            cents: self.cents.checked_add(whole_cents(unpaid))?,
            held: rest_grains(unpaid),
            ..*self
        };
        let settled = paid.forgotten();
        settled.in_ranges().then_some(settled)
    }

    /// The account with the hour in hand forgotten.
    pub fn forgotten(&self) -> Supplier
        ensures { result ≡ forget self.now }
    {
        self.with_hour(0, Reserves::NONE)
    }
}

impl Customer {
    /// The account once its share is charged, if it is in its ranges and stays there.
    pub fn charged(&self, share: i64) -> Option<Customer>
        ensures { result ≡ provided (chargeable self.now share) (charge self.now share) }
    {
        let cents = self.cents.checked_add(share)?;
        let charged = Customer { cents, ..*self };
        (self.in_ranges() && charged.in_ranges()).then_some(charged)
    }
}
