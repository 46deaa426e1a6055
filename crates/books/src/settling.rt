//! The end of an hour for suppliers: settling when it closes, forgetting when it is voided.
// That the table and its room stay is said of each write: it is between before and after, which no invariant can say.
ghost use Rattle.std.specs.Prelude.{◌≡◌, map};
ghost use Rattle.accounts.specs.Posting.{settles, forget};
ghost use Rattle.faults.specs.declared.fault.Fault.TheVariants.{AccountRange};
ghost use Rattle.sums.specs.Verdict.{scan_one};
ghost use Rattle.books.specs.Books.{suppliers, room, table};
ghost use Rattle.books.specs.Changes.{settled_or};

use crate::book::Book;
use crate::rules::check_all;
use accounts::Supplier;
use faults::Fault;

/// Refuses the first supplier that is past its ranges, or would be once settled.
pub fn check_settle(accounts: &[Supplier]) -> Result<(), Fault>
    ensures { result ≡ scan_one settles AccountRange 0 accounts.now }
{
    check_all(
        accounts,
        |account| account.settled().is_some(),
        |row| Fault::AccountRange { row },
    )
}

impl<'a> Book<'a, Supplier> {
    /// Settles every supplier. One that would leave its ranges keeps what it has.
    pub fn settle(&mut self)
        ensures after { suppliers self.new ≡ map settled_or (suppliers self.old) }
        ensures room { room self.new ≡ room self.old }
        ensures table { table self.new ≡ table self.old }
    {
        self.change(|account| account.settled().unwrap_or(*account))
    }

    /// Forgets the hour in hand of every supplier, whatever its ranges.
    pub fn forget(&mut self)
        ensures after { suppliers self.new ≡ map forget (suppliers self.old) }
        ensures room { room self.new ≡ room self.old }
        ensures table { table self.new ≡ table self.old }
    {
        self.change(Supplier::forgotten)
    }
}
