//! Calls of a ledger at rest: enrolment and opening.
ghost use Rattle.std.specs.Prelude.{◌≡◌, ℕ, List, [], Ok, Err};
ghost use Rattle.accounts.specs.declared.supplier.Supplier.{Supplier as Supply};
ghost use Rattle.accounts.specs.declared.customer.Customer.{Customer as Custom};
ghost use Rattle.books.specs.Books.{suppliers as enlisted, customers as customed, room};
ghost use Rattle.maps.specs.Market.{Market};
ghost use Rattle.sharing.specs.Rule.{Rule};
ghost use Rattle.law.specs.Ledger.{new as fresh, enrol_supplier, enrol_customer, open_hour};
ghost use Rattle.law.specs.Run.{Step};
ghost use Rattle.ledger.specs.Stages.{rest_state, opened_state};

use crate::stages::{ClosedHours, Opened, Refused, Rest};
use accounts::{Customer, NewSupplier, Supplier};
use books::Book;
use faults::Fault;
use maps::LocationMap;

/// The last hour that there is.
const LAST_HOUR: u32 = 499_999;

impl Rest {
    /// A new ledger: nothing carried, no hour closed. Its books have to be empty.
    pub fn new() -> Rest
        ensures { (p q : ℕ) → rest_state result [] [] p q ≡ fresh p q }
    {
        Rest {
            closed: ClosedHours {
                carry: 0,
                last: None,
            },
        }
    }

    /// Enrols a supplier.
    pub fn enrol_supplier<M: LocationMap>(
        &self,
        map: &M,
        suppliers: &mut Book<'_, Supplier>,
        new: &NewSupplier,
    ) -> Result<(), Fault>
        ensures { (rule : Rule) (ys : List Custom) (q : ℕ) → Step (M.LocationMap.market map.now) rule
            (rest_state self.now (enlisted suppliers.old) ys (room suppliers.old) q)
            (enrol_supplier new.now.number new.now.location new.now.kind new.now.upper new.now.response)
            result
            (rest_state self.now (enlisted suppliers.new) ys (room suppliers.new) q) }
    {
        suppliers.enrol(new, map.locations())
    }

    /// Enrols a customer.
    pub fn enrol_customer(
        &self,
        customers: &mut Book<'_, Customer>,
        number: u32,
    ) -> Result<(), Fault>
        ensures { (m : Market) (rule : Rule) (xs : List Supply) (p : ℕ) → Step m rule
            (rest_state self.now xs (customed customers.old) p (room customers.old))
            (enrol_customer number)
            result
            (rest_state self.now xs (customed customers.new) p (room customers.new)) }
    {
        customers.enrol(number)
    }

    /// Opens an hour, which is above the last closed.
    pub fn open(self, hour: u32) -> Result<Opened, Refused<Rest>>
        ensures { (m : Market) (rule : Rule) (xs : List Supply) (ys : List Custom) (p q : ℕ) → elim result [
          | Ok l ↦ Step m rule (rest_state self xs ys p q) (open_hour hour) (Ok tt) (opened_state l xs ys p q)
          | Err e ↦ Step m rule (rest_state self xs ys p q) (open_hour hour) (Err e.fault) (rest_state e.ledger xs ys p q)
        ] }
    {
        let later = self.closed.last.is_none_or(|last| last < hour);
        if hour <= LAST_HOUR && later {
            let Rest { closed } = self;
            Ok(Opened { closed, hour })
        } else {
            let fault = Fault::HourOutOfOrder {
                last_closed: self.closed.last,
            };
            Err(Refused {
                ledger: self,
                fault,
            })
        }
    }
}
