//! What a ledger shows at any stage, and how it is brought to rest.
ghost use Rattle.std.specs.Prelude.{◌≡◌, List, ℕ};
ghost use Rattle.accounts.specs.declared.customer.Customer.{Customer as Custom};
ghost use Rattle.books.specs.Books.{suppliers as enlisted, room};
ghost use Rattle.maps.specs.Market.{Market};
ghost use Rattle.sharing.specs.Rule.{Rule};
ghost use Rattle.law.specs.Ledger.{void as voiding};
ghost use Rattle.law.specs.Run.{Step};
ghost use Rattle.law.specs.Verdicts.{verdict};
ghost use Rattle.ledger.specs.Stages.{rest_state};
ghost use Rattle.settlement.specs.Course.{state, carry_of_lem, hour_of};

use crate::course::Ledger;
use accounts::Supplier;
use books::Book;
use ledger::Rest;

impl Ledger {
    /// Grains not yet charged to customers.
    pub fn carry(&self) -> i64
        ensures { result ≡ carry_of_lem self.now }
    {
        match self {
            Ledger::Rest(l) => l.carry(),
            Ledger::Opened(l) => l.carry(),
            Ledger::Cleared(l) => l.carry(),
        }
    }

    /// The hour in hand, if there is one.
    pub fn hour(&self) -> Option<u32>
        ensures { result ≡ hour_of self.now }
    {
        match self {
            Ledger::Rest(_) => None,
            Ledger::Opened(l) => Some(l.hour()),
            Ledger::Cleared(l) => Some(l.hour()),
        }
    }

    /// Voids the hour in hand, if there is one.
    pub fn into_rest(self, suppliers: &mut Book<'_, Supplier>) -> Rest
        ensures { (m : Market) (rule : Rule) (ys : List Custom) (q : ℕ) → Step m rule
            (state self (enlisted suppliers.old) ys (room suppliers.old) q)
            voiding
            (verdict m rule (state self (enlisted suppliers.old) ys (room suppliers.old) q) voiding)
            (rest_state result (enlisted suppliers.new) ys (room suppliers.new) q) }
    {
        match self {
            Ledger::Rest(l) => l,
            Ledger::Opened(l) => l.void(suppliers),
            Ledger::Cleared(l) => l.void(suppliers),
        }
    }
}
