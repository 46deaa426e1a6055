//! What a clearing or an interval is going to post, or why it is refused.
ghost use Rattle.std.specs.Prelude.{◌≡◌, ◌≤◌, length, pos, IfOk};
ghost use Rattle.sums.specs.Verdict.{told, ◌then◌};
ghost use Rattle.curves.specs.Book.{curves_of};
ghost use Rattle.accounts.specs.declared.posting.Timing.TheVariants.{DayAhead};
ghost use Rattle.books.specs.Books.{suppliers as enrolled};
ghost use Rattle.law.specs.Ledger.{hour_seconds};
ghost use Rattle.law.specs.Verdicts.{clearing_verdict, interval_verdict, posting_verdict, schedule_verdict, seconds_verdict};
ghost use Rattle.planning.specs.Plans.{PlannedClearing, PlannedInterval, Planned, post_at, paid_already, cost_in_second};

use crate::cost::{cost_of, cost_over};
use crate::schedule::{HOUR_SECONDS, check_schedule, check_seconds};
use accounts::{ScheduleSheet, Supplier, Terms, Timing};
use books::{Book, check_post};
use curves::CurveBook;
use faults::Fault;
use maps::LocationMap;
use market::{clearing_prices, quantities};

/// What is posted to every supplier, and what it costs in grains.
#[derive(Clone, Copy, PartialEq, Eq, Debug)]
pub struct Plan {
    pub terms: Terms,
    pub cost: i64,
}

// Map, suppliers and curves are not one value: the ledger writes to the suppliers once it has the plan.

/// Checks a clearing: the schedule, its prices, and every account with its row posted. The plan pays
/// the schedule for the whole hour.
pub fn plan_clearing<M: LocationMap>(
    map: &M,
    suppliers: &Book<'_, Supplier>,
    curves: &CurveBook,
    sheet: ScheduleSheet<'_>,
) -> Result<Plan, Fault>
    ensures reply { told result ≡ clearing_verdict (M.LocationMap.market map.now) (enrolled suppliers.now) sheet.entry.shadow_prices.now sheet.entry.targets.now (curves_of curves.now) sheet.entry.rows.now }
    ensures holds { IfOk result (λ p. PlannedClearing (M.LocationMap.market map.now) (enrolled suppliers.now) sheet.entry.shadow_prices.now sheet.entry.rows.now p) }
{
    plan_for(
        map,
        suppliers,
        curves,
        sheet,
        0,
        HOUR_SECONDS,
        Timing::DayAhead,
    )
}

/// Checks an interval, where `settled` seconds of the hour are settled already: the schedule, its
/// prices, the seconds, and every account with its row posted. The plan pays, for the seconds, by how
/// much the schedule differs from the day-ahead one.
pub fn plan_interval<M: LocationMap>(
    map: &M,
    suppliers: &Book<'_, Supplier>,
    curves: &CurveBook,
    sheet: ScheduleSheet<'_>,
    settled: u32,
    seconds: u32,
) -> Result<Plan, Fault>
    ensures reply { told result ≡ interval_verdict (M.LocationMap.market map.now) (enrolled suppliers.now) settled seconds sheet.entry.shadow_prices.now sheet.entry.targets.now (curves_of curves.now) sheet.entry.rows.now }
    ensures holds { IfOk result (λ p. PlannedInterval (M.LocationMap.market map.now) (enrolled suppliers.now) seconds sheet.entry.shadow_prices.now sheet.entry.rows.now p) }
{
    plan_for(
        map,
        suppliers,
        curves,
        sheet,
        settled,
        seconds,
        Timing::RealTime,
    )
}

/// Checks a schedule, its prices, the seconds that it is paid for, and every account with its row
/// posted. The day-ahead schedule is paid whole, for the hour; another by how much it differs from that.
fn plan_for<M: LocationMap>(
    map: &M,
    suppliers: &Book<'_, Supplier>,
    curves: &CurveBook,
    sheet: ScheduleSheet<'_>,
    settled: u32,
    seconds: u32,
    timing: Timing,
) -> Result<Plan, Fault>
    requires hour { timing ≡ DayAhead → seconds ≡ hour_seconds }
    ensures reply { told result ≡ (schedule_verdict (M.LocationMap.market map.now) (enrolled suppliers.now) sheet.entry.shadow_prices.now sheet.entry.targets.now (curves_of curves.now) sheet.entry.rows.now
        then seconds_verdict settled seconds
        then posting_verdict (post_at (M.LocationMap.market map.now) sheet.entry.shadow_prices.now seconds timing) (enrolled suppliers.now) sheet.entry.rows.now) }
    ensures holds { IfOk result (λ p. Planned (post_at (M.LocationMap.market map.now) sheet.entry.shadow_prices.now seconds timing) (cost_in_second (M.LocationMap.market map.now) (enrolled suppliers.now) sheet.entry.shadow_prices.now sheet.entry.rows.now timing) seconds p) }
{
    let accounts = suppliers.accounts();
    let scheduled = check_schedule(map, accounts, curves, sheet)?;
    check_seconds(settled, seconds)?;
    let terms = Terms {
        prices: clearing_prices(map, sheet.shadow_prices),
        seconds,
        timing,
    };
    check_post(accounts, sheet.rows, &terms)?;
    let real = cost_of(sheet.shadow_prices, &scheduled);
    let paid = paid_in_second(map, accounts, sheet.shadow_prices, timing);
    let cost = cost_over(real, paid, seconds);
    Ok(Plan { terms, cost })
}

/// What is paid already in one second: the day-ahead schedule, but nothing when that is paid itself.
fn paid_in_second<M: LocationMap>(
    map: &M,
    accounts: &[Supplier],
    shadow_prices: &[u32],
    timing: Timing,
) -> u128
    requires few { length accounts.now ≤ 128 }
    requires priced { length shadow_prices.now ≡ (M.LocationMap.market map.now).requirements }
    ensures { pos result ≡ paid_already (M.LocationMap.market map.now) accounts.now shadow_prices.now timing }
{
    match timing {
        Timing::DayAhead => 0,
        Timing::RealTime => cost_of(shadow_prices, &quantities(map, accounts, accounts)),
    }
}
