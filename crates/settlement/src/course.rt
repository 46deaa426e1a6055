//! A ledger at any of its stages.
use ledger::{Cleared, Opened, Rest};

pub mod showing;

/// A ledger at any stage. An hour in hand cannot be let go, so neither can this.
pub enum Ledger {
    Rest(Rest),
    Opened(Opened),
    Cleared(Cleared),
}
