//! What a closing is going to charge, or why it is refused.
ghost use Rattle.std.specs.Prelude.{◌≡◌, ◌^◌, ◌<◌, ◌≤◌, length, IfOk, sum};
ghost use Rattle.sums.specs.Verdict.{told};
ghost use Rattle.sharing.specs.SharedOut.{SharedOut};
ghost use Rattle.accounts.specs.Withdrawals.{net};
ghost use Rattle.books.specs.Books.{suppliers as enrolled_suppliers, customers as enrolled_customers};
ghost use Rattle.law.specs.Ledger.{nets};
ghost use Rattle.law.specs.Verdicts.{complete_verdict, total_verdict, withdrawal_verdict, closing_verdict};

use crate::schedule::HOUR_SECONDS;
use accounts::{Customer, Supplier, WithdrawalRow};
use books::{Book, check_charge, check_nets, check_settle, check_sheet};
use faults::Fault;
use sharing::{MOST_PARTS, Shares, SharingRule, share_out};

/// Refuses an hour that its intervals do not make up.
fn check_complete(settled: u32) -> Result<(), Fault>
    ensures { result ≡ complete_verdict settled }
{
    if settled == HOUR_SECONDS {
        Ok(())
    } else {
        Err(Fault::HourIncomplete {
            seconds_missing: HOUR_SECONDS.saturating_sub(settled),
        })
    }
}

/// Refuses a total of 0, or one that no rule shares among.
fn check_total(total: u64) -> Result<(), Fault>
    ensures { result ≡ total_verdict total }
{
    if 0 < total && total <= MOST_PARTS {
        Ok(())
    } else {
        Err(Fault::WithdrawalTotal { total })
    }
}

/// The net withdrawal of one row.
fn net_of(row: WithdrawalRow) -> u64
    ensures value { result ≡ net row }
    ensures bound { result < 2 ^ 32 }
{
    row.net()
}

/// All net withdrawals together.
// Tried over `total_of`: the proof that 64 bits are enough did not close, since only a row that is read shows how small it is.
fn total_net(rows: &[WithdrawalRow]) -> u64
    requires { length rows.now ≤ 256 }
    ensures { result ≡ sum (nets rows.now) }
{
    rows.iter().map(|row| net_of(*row)).sum()
}

/// Checks the sheet of withdrawals.
fn check_withdrawals(
    customers: &[Customer],
    rows: &[WithdrawalRow],
    settled: u32,
) -> Result<(), Fault>
    requires { length customers.now ≤ 256 }
    ensures { result ≡ withdrawal_verdict customers.now settled rows.now }
{
    check_sheet(customers, rows)?;
    check_complete(settled)?;
    check_nets(rows)?;
    check_total(total_net(rows))
}

/// Checks a closing: the withdrawals, every supplier as settled, and every customer with its share
/// charged. The plan is what each customer is charged of the grains, and what is carried on.
pub fn plan_closing<S: SharingRule>(
    suppliers: &Book<'_, Supplier>,
    customers: &Book<'_, Customer>,
    rows: &[WithdrawalRow],
    settled: u32,
    grains: i64,
) -> Result<Shares, Fault>
    ensures reply { told result ≡ closing_verdict S.SharingRule.share (enrolled_suppliers suppliers.now) (enrolled_customers customers.now) settled grains rows.now }
    ensures holds { IfOk result (λ s. SharedOut S.SharingRule.share grains (nets rows.now) s) }
{
    let charged = customers.accounts();
    let paid = suppliers.accounts();
    check_withdrawals(charged, rows, settled)?;
    check_settle(paid)?;
    let shares = share_out::<S, WithdrawalRow>(grains, rows);
    check_charge(charged, shares.cents.as_slice())?;
    Ok(shares)
}
