//! A ledger at whatever stage it is, and one call for every step of a settlement.
//!
//! The contract of `step` has the law of all runs, whole: after any steps that led here, it holds after
//! this one too.
#![tactic(auto)]

mod call;
mod course;
mod house;

pub use crate::call::Call;
pub use crate::call::step::step;
pub use crate::course::Ledger;
pub use crate::house::House;
