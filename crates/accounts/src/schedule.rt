//! Rows of a schedule, day-ahead or real-time.
use crate::account::Numbered;
use market::{Reserves, Scheduled};

/// What one supplier is scheduled for, in tenths of a MW.
#[derive(Clone, Copy, PartialEq, Eq, Debug, Default)]
pub struct ScheduleRow {
    pub number: u32,
    pub energy: i32,
    pub regulation: u32,
    pub reserves: Reserves,
}

impl Numbered for ScheduleRow {
    ghost numbered = { λ w. w.number };

    fn number(&self) -> u32 {
        self.number
    }
}

impl Scheduled for ScheduleRow {
    ghost scheduled = { λ w. w.reserves };

    fn reserves(&self) -> Reserves {
        self.reserves
    }
}
