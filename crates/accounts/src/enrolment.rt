//! New accounts.
ghost use Rattle.std.specs.Prelude.{◌≡◌};
ghost use Rattle.accounts.specs.Enrolment.{out_of_range, fields_verdict, new_supplier, new_customer};

use crate::customer::Customer;
use crate::supplier::{Kind, MOST_TENTHS, Supplier};
use faults::Fault;
use market::Reserves;

/// What is given to enrol a supplier, as it comes in.
#[derive(Clone, Copy, PartialEq, Eq, Debug)]
pub struct NewSupplier {
    pub number: u32,
    pub location: u16,
    /// 1 is synchronized, 2 is not.
    pub kind: u16,
    /// The upper operating limit, in tenths of a MW.
    pub upper: u32,
    /// The response rate, in tenths of a MW per minute.
    pub response: u32,
}

/// The fields of a new supplier that have a range, with the numbers by which a refusal tells them.
#[derive(Clone, Copy, PartialEq, Eq, Debug)]
enum Field {
    Location = 1,
    Kind = 2,
    Upper = 3,
    Response = 4,
}

/// What is told of a field that is out of its range.
impl From<Field> for Fault {
    ghost from_gives = { λ field fault. fault ≡ out_of_range field };

    fn from(field: Field) -> Fault {
        Fault::FieldOutOfRange {
            field: field as usize,
        }
    }
}

impl NewSupplier {
    /// Refuses the first field that is out of its range, where the map has so many locations.
    pub fn check_fields(&self, locations: usize) -> Result<(), Fault>
        ensures { result ≡ fields_verdict locations self.now.location self.now.kind self.now.upper self.now.response }
    {
        if usize::from(self.location) >= locations {
            return Err(Field::Location.into());
        }
        if Kind::try_from(self.kind).is_err() {
            return Err(Field::Kind.into());
        }
        if self.upper > MOST_TENTHS {
            return Err(Field::Upper.into());
        }
        if self.response > MOST_TENTHS {
            return Err(Field::Response.into());
        }
        Ok(())
    }

    /// The account to enrol, with no money and no schedule. A kind that is not 1 is read as 2.
    pub fn account(&self) -> Supplier
        ensures { result ≡ new_supplier self.now.number self.now.location self.now.kind self.now.upper self.now.response }
    {
        Supplier {
            number: self.number,
            location: self.location,
            kind: Kind::try_from(self.kind).unwrap_or(Kind::NotSynchronized),
            upper: self.upper,
            response: self.response,
            cents: 0,
            held: 0,
            hour: 0,
            ahead: Reserves::NONE,
        }
    }
}

impl Customer {
    /// The account to enrol, with no money.
    pub fn new(number: u32) -> Customer
        ensures { result ≡ new_customer number }
    {
        Customer { number, cents: 0 }
    }
}
