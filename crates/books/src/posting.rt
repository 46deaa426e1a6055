//! Posting a schedule to the suppliers of a book, in two passes: a check of every row, and the write.
// That the table and its room stay is said of each write: it is between before and after, which no invariant can say.
ghost use Rattle.std.specs.Prelude.{◌≡◌};
ghost use Rattle.accounts.specs.Posting.{stays};
ghost use Rattle.accounts.specs.Terms.{post_by};
ghost use Rattle.faults.specs.declared.fault.Fault.TheVariants.{AccountRange};
ghost use Rattle.sums.specs.Verdict.{scan};
ghost use Rattle.books.specs.Books.{suppliers, room, table};
ghost use Rattle.books.specs.Changes.{change_each, posted_or};

use crate::book::Book;
use crate::rules::check_rows;
use accounts::{ScheduleRow, Supplier, Terms};
use faults::Fault;

/// Refuses the first supplier that is past its ranges, or would be with its row posted.
pub fn check_post(accounts: &[Supplier], rows: &[ScheduleRow], terms: &Terms) -> Result<(), Fault>
    ensures { result ≡ scan (stays (post_by terms.now)) AccountRange 0 accounts.now rows.now }
{
    check_rows(
        accounts,
        rows,
        |account, row| account.posted(terms, row.reserves).is_some(),
        |row| Fault::AccountRange { row },
    )
}

impl<'a> Book<'a, Supplier> {
    /// Posts its row to every supplier. One that would leave its ranges keeps what it has.
    pub fn post(&mut self, terms: &Terms, rows: &[ScheduleRow])
        ensures after { suppliers self.new ≡ change_each (posted_or terms.now) (suppliers self.old) rows.now }
        ensures room { room self.new ≡ room self.old }
        ensures table { table self.new ≡ table self.old }
    {
        self.change_by(
            rows,
            |account, row| account.posted(terms, row.reserves).unwrap_or(*account),
        )
    }
}
