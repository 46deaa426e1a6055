//! A list of at most a fixed number of items, which lie in the value itself: nothing is allocated,
//! and a list of items that can be copied can be copied.
#![tactic(auto)]

mod list;

pub use crate::list::Bounded;
