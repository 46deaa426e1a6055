//! Accounts and sheet rows: plain records of numbers, and the rules that apply to one of them.
//!
//! Accounts stand in tables that the caller owns, and no type vouches for what those hold: each call
//! that posts to an account checks its ranges first.
#![tactic(auto)]

ghost use Rattle.accounts.specs.Figures.{AccountFigures};
ghost use Rattle.accounts.specs.Laws.{TermsKeepRule};

mod account;
mod capability;
mod customer;
mod enrolment;
mod posting;
mod ranges;
mod schedule;
mod settling;
mod sheet;
mod supplier;
mod withdrawal;

pub use crate::account::{Account, Numbered};
pub use crate::customer::Customer;
pub use crate::enrolment::NewSupplier;
pub use crate::posting::{Terms, Timing};
pub use crate::schedule::ScheduleRow;
pub use crate::sheet::ScheduleSheet;
pub use crate::supplier::{Kind, Supplier, UnknownKind};
pub use crate::withdrawal::WithdrawalRow;

/// Posting by a table of the market's prices is posting by its rules, for any map and prices.
pub fn terms_keep_the_rule() -> u8
    ensures { TermsKeepRule }
{
    0
}

/// Worked figures of the rules for one account.
pub fn account_figures() -> u8
    ensures { AccountFigures }
{
    0
}
