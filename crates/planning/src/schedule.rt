//! A schedule with its prices.
ghost use Rattle.std.specs.Prelude.{◌≡◌, IfOk};
ghost use Rattle.sums.specs.Verdict.{told};
ghost use Rattle.curves.specs.Book.{curves_of};
ghost use Rattle.law.specs.Verdicts.{schedule_verdict, seconds_verdict};
ghost use Rattle.planning.specs.Plans.{Weighed};

use accounts::{ScheduleSheet, Supplier};
use books::{check_capability, check_sheet};
use curves::CurveBook;
use faults::Fault;
use maps::LocationMap;
use market::{check_prices, quantities};

/// The seconds of an hour.
pub(crate) const HOUR_SECONDS: u32 = 3_600;

/// Checks the rows against the accounts, and the shadow prices against the curves at the quantities
/// that the rows make, which it returns.
pub(crate) fn check_schedule<M: LocationMap>(
    map: &M,
    accounts: &[Supplier],
    curves: &CurveBook,
    sheet: ScheduleSheet<'_>,
) -> Result<[u128; 32], Fault>
    ensures reply { told result ≡ schedule_verdict (M.LocationMap.market map.now) accounts.now sheet.entry.shadow_prices.now sheet.entry.targets.now (curves_of curves.now) sheet.entry.rows.now }
    ensures holds { IfOk result (λ qs. Weighed (M.LocationMap.market map.now) accounts.now sheet.entry.shadow_prices.now sheet.entry.rows.now qs) }
{
    check_sheet(accounts, sheet.rows)?;
    check_capability(accounts, sheet.rows)?;
    let scheduled = quantities(map, accounts, sheet.rows);
    check_prices(map, sheet.shadow_prices, sheet.targets, curves, &scheduled)?;
    Ok(scheduled)
}

/// Refuses an interval that has no second, or more than are left of the hour.
pub(crate) fn check_seconds(settled: u32, seconds: u32) -> Result<(), Fault>
    ensures { result ≡ seconds_verdict settled seconds }
{
    let seconds_left = HOUR_SECONDS.saturating_sub(settled);
    if 0 < seconds && seconds <= seconds_left {
        Ok(())
    } else {
        Err(Fault::IntervalLength { seconds_left })
    }
}
