//! Books of accounts, and what is checked and written of all of them at once.
//!
//! A book is a table that the caller owns, with a count. Checks take its accounts and tell the first
//! place that is at fault; writes change every account in place. Once the check that goes with a write
//! has accepted, the write does to every account what the rules say.
#![tactic(auto)]

ghost use Rattle.books.specs.Laws.{AcceptedWrites};

mod book;
mod changes;
mod charging;
mod enrolling;
mod numbers;
mod posting;
mod rules;
mod settling;
mod sheets;

pub use crate::book::Book;
pub use crate::charging::check_charge;
pub use crate::numbers::check_new;
pub use crate::posting::check_post;
pub use crate::settling::check_settle;
pub use crate::sheets::{check_capability, check_nets, check_sheet};

/// Once a check has accepted, the write that goes with it does to every account what the rules say.
pub fn accepted_writes_are_whole() -> u8
    ensures { AcceptedWrites }
{
    0
}
