//! Lists as they stand in a feed: parts of its bytes. What is done with them stands in the modules below.
use crate::rows::Row;
use accounts::{ScheduleRow, WithdrawalRow};
use std::marker::PhantomData;

pub(crate) mod cutting;
mod decoding;

/// A list: the numbers of its rows, and behind them what each row has besides its number.
#[derive(Clone, Copy, Debug, PartialEq, Eq)]
pub struct Rows<'a, R: Row> {
    numbers: &'a [u8],
    rest: &'a [u8],
    of: PhantomData<R>,
}

/// Numbers of four bytes each.
pub type Numbers<'a> = Rows<'a, u32>;

/// Schedule rows: their account numbers, and twenty bytes for each row.
pub type ScheduleRows<'a> = Rows<'a, ScheduleRow>;

/// Withdrawal rows: their account numbers, and twelve bytes for each row.
pub type WithdrawalRows<'a> = Rows<'a, WithdrawalRow>;

/// A price and a target for each requirement, and a row for each supplier.
#[derive(Clone, Copy, Debug, PartialEq, Eq)]
pub struct Sheet<'a> {
    pub prices: Numbers<'a>,
    pub targets: Numbers<'a>,
    pub rows: ScheduleRows<'a>,
}
