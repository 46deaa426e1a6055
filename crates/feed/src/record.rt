//! Records as a reader hands them out. Reading one stands in the module below.
use crate::parts::{Sheet, WithdrawalRows};
use accounts::NewSupplier;

pub(crate) mod body;

/// One record. Its lists are parts of the feed's bytes.
#[derive(Clone, Copy, Debug, PartialEq, Eq)]
pub enum Record<'a> {
    /// Enrols a supplier.
    Supplier(NewSupplier),
    /// Enrols a customer.
    Customer { number: u32 },
    /// Opens an hour.
    Open { hour: u32 },
    /// Clears the hour day-ahead.
    Clear(Sheet<'a>),
    /// Settles an interval of real time.
    Interval { seconds: u32, sheet: Sheet<'a> },
    /// Closes the hour.
    Close(WithdrawalRows<'a>),
    /// Voids the hour.
    Void,
}
