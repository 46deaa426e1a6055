//! Checks of a sheet against its book.
ghost use Rattle.std.specs.Prelude.{◌≡◌};
ghost use Rattle.accounts.specs.Capability.{able};
ghost use Rattle.accounts.specs.Withdrawals.{has_net_lem};
ghost use Rattle.faults.specs.declared.fault.Fault.TheVariants.{BeyondCapability, NegativeNet};
ghost use Rattle.sums.specs.Verdict.{scan, scan_one};
ghost use Rattle.books.specs.Sheets.{sheet_verdict};

use crate::rules::{check_all, check_rows};
use accounts::{Account, Numbered, ScheduleRow, Supplier, WithdrawalRow};
use faults::Fault;

/// Refuses a sheet that has not a row for each account, with its number and in the book's order.
pub fn check_sheet<A: Account>(accounts: &[A], rows: &[A::Row]) -> Result<(), Fault>
    ensures { result ≡ sheet_verdict A.Numbered.numbered A.Row.Numbered.numbered accounts.now rows.now }
{
    if rows.len() != accounts.len() {
        return Err(Fault::SheetLength {
            count: accounts.len(),
        });
    }
    check_rows(
        accounts,
        rows,
        |account, row| account.number() == row.number(),
        |row| Fault::SheetNumber { row },
    )
}

/// Refuses the first row that asks for more than its supplier can do.
pub fn check_capability(accounts: &[Supplier], rows: &[ScheduleRow]) -> Result<(), Fault>
    ensures { result ≡ scan able BeyondCapability 0 accounts.now rows.now }
{
    check_rows(accounts, rows, Supplier::is_able, |row| {
        Fault::BeyondCapability { row }
    })
}

/// Refuses the first row whose gross withdrawal does not cover what is not charged.
pub fn check_nets(rows: &[WithdrawalRow]) -> Result<(), Fault>
    ensures { result ≡ scan_one has_net_lem NegativeNet 0 rows.now }
{
    check_all(
        rows,
        WithdrawalRow::has_net,
        |row| Fault::NegativeNet { row },
    )
}
