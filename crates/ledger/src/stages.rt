//! The three stages of a ledger. The calls stand in the modules below.
ghost use Rattle.std.specs.Prelude.{◌+◌, ◌*◌, ◌≤◌, unsigned_abs};
ghost use Rattle.accounts.specs.Limits.{most_customers};
ghost use Rattle.sharing.specs.Shares.{grains_per_cent};
ghost use Rattle.law.specs.Ledger.{hour_seconds};
ghost use Rattle.planning.specs.Plans.{most_cost};

use faults::Fault;

pub mod at_rest;
pub mod in_cleared_hour;
pub mod in_opened_hour;
pub mod showing;

/// What the closed hours leave to those after them, whatever the stage.
#[derive(Clone, Copy)]
struct ClosedHours {
    /// Grains of theirs not yet charged to customers.
    carry: i64,
    /// The last of them.
    last: Option<u32>,
    ghost small: { unsigned_abs carry ≤ grains_per_cent * most_customers },
}

/// A ledger between hours.
pub struct Rest {
    closed: ClosedHours,
}

/// A ledger in an hour that is not cleared yet. It is spent by clearing or voiding.
pub struct Opened {
    closed: ClosedHours,
    hour: u32,
}

/// A ledger in a cleared hour. It is spent by closing or voiding.
pub struct Cleared {
    closed: ClosedHours,
    hour: u32,
    /// Seconds settled so far.
    seconds: u32,
    /// What the hour costs so far, in grains, counted by requirement.
    cost: i64,
    ghost timed: { seconds ≤ hour_seconds },
    ghost bounded: { unsigned_abs cost ≤ most_cost * (hour_seconds + seconds) },
}

/// A refusal, with the ledger as it was.
pub struct Refused<L> {
    pub ledger: L,
    pub fault: Fault,
}
