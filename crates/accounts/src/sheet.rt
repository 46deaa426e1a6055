//! Sheets of a clearing and of an interval.
use crate::schedule::ScheduleRow;

/// What a clearing or an interval is asked to settle by: a price and a target for each requirement, and
/// a row for each supplier. None of it is checked yet.
#[derive(Clone, Copy)]
pub struct ScheduleSheet<'a> {
    /// A shadow price for each requirement, in cents per MW and hour.
    pub shadow_prices: &'a [u32],
    /// A target for each requirement, in tenths of a MW.
    pub targets: &'a [u32],
    /// A row for each supplier, in the book's order.
    pub rows: &'a [ScheduleRow],
}
