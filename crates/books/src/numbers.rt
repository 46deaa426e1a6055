//! Numbers of accounts are unlike.
ghost use Rattle.std.specs.Prelude.{◌≡◌};
ghost use Rattle.books.specs.Enrolling.{place_verdict};

use crate::rules::check_all;
use accounts::Numbered;
use faults::Fault;

/// Refuses a number that an account has already, with the place of the first that has it.
pub fn check_new<A: Numbered>(accounts: &[A], number: u32) -> Result<(), Fault>
    ensures { result ≡ place_verdict A.Numbered.numbered number accounts.now }
{
    check_all(
        accounts,
        |account| account.number() != number,
        |place| Fault::NumberTaken { place },
    )
}
