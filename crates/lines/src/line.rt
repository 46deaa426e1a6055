//! What a statement says.
ghost use Rattle.std.specs.Prelude.{◌≡◌};
ghost use Rattle.lines.specs.Sides.{side_letter};

/// One line of a statement. Amounts are cents of one hour; a carry is in grains.
#[derive(Clone, Copy, PartialEq, Eq, Debug)]
pub enum Line {
    /// What a closing pays a supplier.
    Paid {
        hour: u32,
        supplier: u32,
        cents: i64,
    },
    /// What a closing charges a customer.
    Charged {
        hour: u32,
        customer: u32,
        cents: i64,
    },
    /// What a closing carries on.
    Carried {
        hour: u32,
        carry: i64,
    },
    /// A refusal, with the offset of the record's first byte.
    Refused {
        number: u16,
        offset: u64,
    },
}

/// What an amount of an account is: paid to a supplier, or charged to a customer.
#[derive(Clone, Copy, PartialEq, Eq, Debug)]
pub(crate) enum Side {
    Paid,
    Charged,
}

impl Side {
    /// The letter that a line of this side begins with.
    pub(crate) fn letter(self) -> u8
        ensures { result ≡ side_letter self }
    {
        match self {
            Side::Paid => b'P',
            Side::Charged => b'C',
        }
    }
}
