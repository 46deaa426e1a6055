//! What a ledger and its books can be asked to do.
use accounts::{NewSupplier, ScheduleSheet, WithdrawalRow};

pub mod step;

/// A call with its arguments. The curve book is the house's.
#[derive(Clone, Copy)]
pub enum Call<'a> {
    EnrolSupplier(NewSupplier),
    EnrolCustomer(u32),
    Open(u32),
    /// The day-ahead sheet.
    Clear(ScheduleSheet<'a>),
    /// Seconds, and the real-time sheet.
    Interval(u32, ScheduleSheet<'a>),
    Close(&'a [WithdrawalRow]),
    Void,
}
