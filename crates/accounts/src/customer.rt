//! Load customers.
ghost use Rattle.accounts.specs.Limits.{most_customers};

use crate::account::{Account, Numbered};
use crate::withdrawal::WithdrawalRow;

/// A load customer's account. Customers hold no grains.
#[derive(Clone, Copy, PartialEq, Eq, Debug, Default)]
pub struct Customer {
    pub number: u32,
    /// Cents charged over the closed hours.
    pub cents: i64,
}

impl Numbered for Customer {
    ghost numbered = { λ a. a.number };

    fn number(&self) -> u32 {
        self.number
    }
}

impl Account for Customer {
    type Row = WithdrawalRow;

    ghost most = { most_customers };

    ghost money = { λ a. a.cents };

    ghost rest = { λ _. 0 };

    fn most() -> usize {
        256
    }

    fn cents(&self) -> i64 {
        self.cents
    }

    fn held(&self) -> u32 {
        0
    }
}
