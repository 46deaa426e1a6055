//! One call for every step of a settlement, with the law of all runs.
ghost use Rattle.std.specs.Prelude.{List, ◌∷◌};
ghost use Rattle.curves.specs.Book.{curves_of};
ghost use Rattle.law.specs.Law.{Kept};
ghost use Rattle.law.specs.Run.{Fed, Run, Step};
ghost use Rattle.settlement.specs.Calls.{asked};
ghost use Rattle.settlement.specs.Course.{state_of, SameRules, fed};

use crate::call::Call;
use crate::course::Ledger;
use crate::house::House;
use faults::Fault;
use ledger::Refused;
use maps::LocationMap;
use sharing::SharingRule;

/// The refusal of a call at the wrong stage. A ledger knows no feed, so the offset is 0: the layer that
/// reads a record tells the record's.
const WRONG_STAGE: Fault = Fault::WrongStage { offset: 0 };

/// Does what is asked, or refuses and alters nothing. Whatever steps led here from a new ledger and new
/// books under this map and this rule, the law of all runs holds after this step.
pub fn step<M: LocationMap, S: SharingRule>(
    ledger: Ledger,
    house: &mut House<'_, '_, '_, M>,
    call: Call<'_>,
) -> (Ledger, Result<(), Fault>)
    ensures step { Step (M.LocationMap.market house.old.map.now) S.SharingRule.share
        (state_of ledger house.old)
        (asked (curves_of house.old.curves.now) call.entry)
        result.1
        (state_of result.0 house.new) }
    ensures law { (log : List Fed)
        → Run (M.LocationMap.market house.old.map.now) S.SharingRule.share log (state_of ledger house.old)
        → Kept (M.LocationMap.market house.old.map.now) S.SharingRule.share
        (fed (asked (curves_of house.old.curves.now) call.entry) result.1 ∷ log)
        (state_of result.0 house.new) }
    ensures rules { SameRules house.old house.new }
{
    match (ledger, call) {
        (Ledger::Rest(l), Call::EnrolSupplier(new)) => {
            let done = l.enrol_supplier(house.map, &mut house.suppliers, &new);
            (Ledger::Rest(l), done)
        }
        (Ledger::Rest(l), Call::EnrolCustomer(number)) => {
            let done = l.enrol_customer(&mut house.customers, number);
            (Ledger::Rest(l), done)
        }
        // Here and below a helper for both answers would need a conversion from each of three stages.
        (Ledger::Rest(l), Call::Open(hour)) => match l.open(hour) {
            Ok(next) => (Ledger::Opened(next), Ok(())),
            Err(Refused { ledger, fault }) => (Ledger::Rest(ledger), Err(fault)),
        },
        (Ledger::Opened(l), Call::Clear(sheet)) => {
            match l.clear(house.map, house.curves, &mut house.suppliers, sheet) {
                Ok(next) => (Ledger::Cleared(next), Ok(())),
                Err(Refused { ledger, fault }) => (Ledger::Opened(ledger), Err(fault)),
            }
        }
        (Ledger::Cleared(mut l), Call::Interval(seconds, sheet)) => {
            let done = l.interval(
                house.map,
                house.curves,
                &mut house.suppliers,
                seconds,
                sheet,
            );
            (Ledger::Cleared(l), done)
        }
        (Ledger::Cleared(l), Call::Close(rows)) => {
            match l.close::<S>(&mut house.suppliers, &mut house.customers, rows) {
                Ok(next) => (Ledger::Rest(next), Ok(())),
                Err(Refused { ledger, fault }) => (Ledger::Cleared(ledger), Err(fault)),
            }
        }
        (Ledger::Opened(l), Call::Void) => (Ledger::Rest(l.void(&mut house.suppliers)), Ok(())),
        (Ledger::Cleared(l), Call::Void) => (Ledger::Rest(l.void(&mut house.suppliers)), Ok(())),
        (ledger, _) => (ledger, Err(WRONG_STAGE)),
    }
}
