//! The ledger and the course of an hour.
//!
//! A ledger at rest, in an opened hour and in a cleared one are three types, so that a call at the wrong
//! stage does not build; an hour once opened is spent by closing or voiding, and cannot be let go.
#![tactic(auto)]

mod stages;

pub use crate::stages::{Cleared, Opened, Refused, Rest};
