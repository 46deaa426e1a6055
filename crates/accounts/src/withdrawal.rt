//! Rows of metered withdrawals.
ghost use Rattle.std.specs.Prelude.{◌≡◌, ◌+◌};
ghost use Rattle.accounts.specs.Withdrawals.{has_net_lem, net};

use crate::account::Numbered;
use sharing::Portion;

/// What one customer withdrew in the hour, in tenths of a MWh.
#[derive(Clone, Copy, PartialEq, Eq, Debug, Default)]
pub struct WithdrawalRow {
    pub number: u32,
    pub gross: u32,
    /// Station power, which is not charged.
    pub station: u32,
    /// Excluded exports, which are not charged.
    pub exports: u32,
}

impl WithdrawalRow {
    /// What is not charged.
    fn exempt(&self) -> u64
        ensures { result ≡ self.now.station + self.now.exports }
    {
        u64::from(self.station) + u64::from(self.exports)
    }

    /// Whether the gross withdrawal covers what is not charged.
    pub fn has_net(&self) -> bool
        ensures { result ≡ has_net_lem self.now }
    {
        self.exempt() <= u64::from(self.gross)
    }

    /// The net withdrawal, 0 where there is none.
    pub fn net(&self) -> u64
        ensures { result ≡ net self.now }
    {
        u64::from(self.gross).saturating_sub(self.exempt())
    }
}

impl Numbered for WithdrawalRow {
    ghost numbered = { λ w. w.number };

    fn number(&self) -> u32 {
        self.number
    }
}

/// A customer's part of the whole is its net withdrawal.
impl Portion for WithdrawalRow {
    ghost portion = { λ w. net w };

    fn portion(&self) -> u64 {
        self.net()
    }
}
