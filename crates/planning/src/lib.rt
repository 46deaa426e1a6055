//! Plans: all checks of a clearing, an interval or a closing, and what it is going to post.
//!
//! A plan changes nothing. A call that has one can write it into the books without a further check.
#![tactic(auto)]

mod closing;
mod cost;
mod plan;
mod schedule;

pub use crate::closing::plan_closing;
pub use crate::plan::{Plan, plan_clearing, plan_interval};
