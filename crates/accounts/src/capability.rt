//! What a supplier can be scheduled for.
ghost use Rattle.std.specs.Prelude.{◌≡◌};
ghost use Rattle.accounts.specs.Capability.{synchronized_able, unsynchronized_able, kind_able, energy_able, sum_able, able};

use crate::schedule::ScheduleRow;
use crate::supplier::{Kind, MOST_TENTHS, Supplier};
use market::Reserves;

impl Supplier {
    /// Within ten minutes' response for spinning and twenty for thirty-minute reserve, and no ten-minute.
    fn able_synchronized(&self, reserves: &Reserves) -> bool
        ensures { result ≡ synchronized_able self.now.upper self.now.response reserves.now }
    {
        let response = u64::from(self.response);
        let upper = u64::from(self.upper);
        reserves.ten == 0
            && u64::from(reserves.spinning) <= (10 * response).min(upper)
            && u64::from(reserves.thirty) <= (20 * response).min(upper)
    }

    /// Within the upper limit for ten-minute or thirty-minute reserve, of which one is 0, and no spinning.
    fn able_unsynchronized(&self, reserves: &Reserves) -> bool
        ensures { result ≡ unsynchronized_able self.now.upper reserves.now }
    {
        reserves.spinning == 0
            && reserves.ten <= self.upper
            && reserves.thirty <= self.upper
            && (reserves.ten == 0 || reserves.thirty == 0)
    }

    /// The rules of the supplier's kind.
    fn able_by_kind(&self, reserves: &Reserves) -> bool
        ensures { result ≡ kind_able self.now.kind self.now.upper self.now.response reserves.now }
    {
        match self.kind {
            Kind::Synchronized => self.able_synchronized(reserves),
            Kind::NotSynchronized => self.able_unsynchronized(reserves),
        }
    }

    /// All that the row asks for together is within the upper limit. Negative energy leaves more room.
    fn able_in_sum(&self, row: &ScheduleRow) -> bool
        ensures { result ≡ sum_able self.now.upper row.now }
    {
        let reserved = i64::from(row.regulation)
            + i64::from(row.reserves.spinning)
            + i64::from(row.reserves.ten)
            + i64::from(row.reserves.thirty);
        i64::from(row.energy) + reserved <= i64::from(self.upper)
    }

    /// Whether the supplier can do what the row asks for.
    pub fn is_able(&self, row: &ScheduleRow) -> bool
        ensures { result ≡ able self.now row.now }
    {
        self.able_by_kind(&row.reserves) && row.has_energy_in_range() && self.able_in_sum(row)
    }
}

impl ScheduleRow {
    /// Energy may be negative, for a unit that withdraws.
    fn has_energy_in_range(&self) -> bool
        ensures { result ≡ energy_able self.now.energy }
    {
        self.energy.unsigned_abs() <= MOST_TENTHS
    }
}
