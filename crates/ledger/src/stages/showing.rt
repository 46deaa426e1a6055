//! What a ledger shows of itself.
// Each stage has its own accessors: one for all stages would be a trait that every caller has to import.
ghost use Rattle.std.specs.Prelude.{◌≡◌};

use crate::stages::{Cleared, Opened, Rest};

impl Rest {
    /// Grains not yet charged to customers.
    pub fn carry(&self) -> i64
        ensures { result ≡ self.now.closed.carry }
    {
        self.closed.carry
    }

    /// The last closed hour.
    pub fn last_closed(&self) -> Option<u32>
        ensures { result ≡ self.now.closed.last }
    {
        self.closed.last
    }

    /// Lets the ledger go. Answers its carry, which is all that it still holds for anybody.
    pub fn into_carry(self) -> i64
        ensures { result ≡ self.closed.carry }
    {
        let Rest { closed } = self;
        closed.carry
    }
}

impl Opened {
    /// Grains not yet charged to customers.
    pub fn carry(&self) -> i64
        ensures { result ≡ self.now.closed.carry }
    {
        self.closed.carry
    }

    /// The hour in hand.
    pub fn hour(&self) -> u32
        ensures { result ≡ self.now.hour }
    {
        self.hour
    }
}

impl Cleared {
    /// Grains of earlier hours not yet charged to customers.
    pub fn carry(&self) -> i64
        ensures { result ≡ self.now.closed.carry }
    {
        self.closed.carry
    }

    /// The hour in hand.
    pub fn hour(&self) -> u32
        ensures { result ≡ self.now.hour }
    {
        self.hour
    }

    /// Seconds of the hour settled so far.
    pub fn seconds(&self) -> u32
        ensures { result ≡ self.now.seconds }
    {
        self.seconds
    }
}
