//! The lines of a statement, as exact bytes.
//!
//! Lines are written from the end of a buffer toward its front: a number's last digit comes first out
//! of the divisions, and so no length has to be known before a line stands.
#![tactic(auto)]

mod closing;
mod line;
mod tail;
mod text;
mod writing;

pub use crate::closing::write_closing;
pub use crate::line::Line;
pub use crate::text::LINES_ROOM;
pub use crate::writing::{write_line, write_refusal};
