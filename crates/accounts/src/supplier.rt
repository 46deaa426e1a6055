//! Suppliers of reserve.
ghost use Rattle.accounts.specs.Kinds.{IsKindNumbered};
ghost use Rattle.accounts.specs.Limits.{most_suppliers};

use crate::account::{Account, Numbered};
use crate::schedule::ScheduleRow;
use market::{Placed, Reserves, Scheduled};

/// The most tenths, or tenths per minute, of a limit, a rate or a scheduled amount.
pub(crate) const MOST_TENTHS: u32 = 30_000;

/// Whether a supplier is synchronized to the grid, which decides what it can be scheduled for.
#[derive(Clone, Copy, PartialEq, Eq, Debug, Default)]
pub enum Kind {
    Synchronized,
    #[default]
    NotSynchronized,
}

/// A number that stands for no kind: of a supplier here, of a record in a feed.
#[derive(Clone, Copy, PartialEq, Eq, Debug)]
pub struct UnknownKind<N>(pub N);

/// Kinds by the numbers that stand for them where a supplier comes in.
impl TryFrom<u16> for Kind {
    type Error = UnknownKind<u16>;

    ghost try_from_gives = { IsKindNumbered };

    fn try_from(number: u16) -> Result<Kind, UnknownKind<u16>> {
        match number {
            1 => Ok(Kind::Synchronized),
            2 => Ok(Kind::NotSynchronized),
            _ => Err(UnknownKind(number)),
        }
    }
}

/// A supplier's account.
#[derive(Clone, Copy, PartialEq, Eq, Debug, Default)]
pub struct Supplier {
    pub number: u32,
    pub location: u16,
    pub kind: Kind,
    /// The upper operating limit, in tenths of a MW.
    pub upper: u32,
    /// The response rate, in tenths of a MW per minute.
    pub response: u32,
    /// Cents paid over the closed hours.
    pub cents: i64,
    /// Grains of the closed hours that do not make a cent yet.
    pub held: u32,
    /// Grains earned in the hour in hand.
    pub hour: i64,
    /// The day-ahead schedule of the hour in hand.
    pub ahead: Reserves,
}

impl Numbered for Supplier {
    ghost numbered = { λ a. a.number };

    fn number(&self) -> u32 {
        self.number
    }
}

impl Account for Supplier {
    type Row = ScheduleRow;

    ghost most = { most_suppliers };

    ghost money = { λ a. a.cents };

    ghost rest = { λ a. a.held };

    fn most() -> usize {
        128
    }

    fn cents(&self) -> i64 {
        self.cents
    }

    fn held(&self) -> u32 {
        self.held
    }
}

impl Placed for Supplier {
    ghost place = { λ a. a.location };

    fn location(&self) -> usize {
        usize::from(self.location)
    }
}

/// A supplier's account stands for its day-ahead schedule.
impl Scheduled for Supplier {
    ghost scheduled = { λ a. a.ahead };

    fn reserves(&self) -> Reserves {
        self.ahead
    }
}
