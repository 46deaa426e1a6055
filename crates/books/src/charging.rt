//! The end of an hour for customers: each is charged its share.
// That the table and its room stay is said of each write: it is between before and after, which no invariant can say.
ghost use Rattle.std.specs.Prelude.{◌≡◌};
ghost use Rattle.accounts.specs.Posting.{chargeable};
ghost use Rattle.faults.specs.declared.fault.Fault.TheVariants.{AccountRange};
ghost use Rattle.sums.specs.Verdict.{scan};
ghost use Rattle.books.specs.Books.{customers, room, table};
ghost use Rattle.books.specs.Changes.{change_each, charged_or};

use crate::book::Book;
use crate::rules::check_rows;
use accounts::Customer;
use faults::Fault;

/// Refuses the first customer that is past its ranges, or would be with its share charged.
pub fn check_charge(accounts: &[Customer], shares: &[i64]) -> Result<(), Fault>
    ensures { result ≡ scan chargeable AccountRange 0 accounts.now shares.now }
{
    check_rows(
        accounts,
        shares,
        |account, share| account.charged(*share).is_some(),
        |row| Fault::AccountRange { row },
    )
}

impl<'a> Book<'a, Customer> {
    /// Charges every customer its share. One that would leave its ranges keeps what it has.
    pub fn charge(&mut self, shares: &[i64])
        ensures after { customers self.new ≡ change_each charged_or (customers self.old) shares.now }
        ensures room { room self.new ≡ room self.old }
        ensures table { table self.new ≡ table self.old }
    {
        self.change_by(
            shares,
            |account, share| account.charged(*share).unwrap_or(*account),
        )
    }
}
