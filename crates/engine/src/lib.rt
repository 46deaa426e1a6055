//! A feed, settled record by record.
//!
//! A caller sets a reader before the bytes that it has and calls `advance` until there is no whole record
//! left; at the end of the feed, `finish`. After each call the lines that follow from it stand at the end of the
//! caller's buffer, and `lines_from` shows them. There are no files and streams here.
//!
//! The contract of `advance` goes from the bytes of a record to the bytes of its lines, and has the law of all
//! runs.
#![tactic(auto)]

mod advancing;
mod courses;
mod decoding;
mod finishing;
mod noting;
mod outcome;
mod settling;
mod showing;

pub use crate::advancing::advance;
pub use crate::courses::every_feed_keeps_the_law;
pub use crate::finishing::finish;
pub use crate::outcome::{Outcome, Progress};
pub use crate::showing::lines_from;
