//! Calls of a ledger in a cleared hour.
//!
//! Each that can be refused makes its plan first, with all its checks, and writes only then.
ghost use Rattle.std.specs.Prelude.{ℕ, List, Ok, Err};
ghost use Rattle.accounts.specs.declared.customer.Customer.{Customer as Custom};
ghost use Rattle.books.specs.Books.{suppliers as enlisted, customers as customed, room};
ghost use Rattle.curves.specs.Book.{curves_of};
ghost use Rattle.maps.specs.Market.{Market};
ghost use Rattle.sharing.specs.Rule.{Rule};
ghost use Rattle.law.specs.Ledger.{interval as interval_of, close as closing, void as voiding};
ghost use Rattle.law.specs.Run.{Step};
ghost use Rattle.ledger.specs.Stages.{rest_state, cleared_state};

use crate::stages::{Cleared, ClosedHours, Refused, Rest};
use accounts::{Customer, ScheduleSheet, Supplier, WithdrawalRow};
use books::Book;
use curves::CurveBook;
use faults::Fault;
use maps::LocationMap;
use planning::{plan_closing, plan_interval};
use sharing::SharingRule;

impl Cleared {
    /// Settles an interval: suppliers are paid, for its seconds, by how much real time differs from
    /// their day-ahead schedules.
    pub fn interval<M: LocationMap>(
        &mut self,
        map: &M,
        curves: &CurveBook,
        suppliers: &mut Book<'_, Supplier>,
        seconds: u32,
        sheet: ScheduleSheet<'_>,
    ) -> Result<(), Fault>
        ensures { (rule : Rule) (ys : List Custom) (q : ℕ) → Step (M.LocationMap.market map.now) rule
            (cleared_state self.old (enlisted suppliers.old) ys (room suppliers.old) q)
            (interval_of seconds sheet.entry.shadow_prices.now sheet.entry.targets.now (curves_of curves.now) sheet.entry.rows.now)
            result
            (cleared_state self.new (enlisted suppliers.new) ys (room suppliers.new) q) }
    {
        let plan = plan_interval(map, suppliers, curves, sheet, self.seconds, seconds)?;
        suppliers.post(&plan.terms, sheet.rows);
        self.seconds += seconds;
        self.cost += plan.cost;
        Ok(())
    }

    /// Closes the hour: suppliers are paid in whole cents, customers share the hour's cents by net
    /// withdrawal under the rule, and the rest is carried on.
    pub fn close<S: SharingRule>(
        self,
        suppliers: &mut Book<'_, Supplier>,
        customers: &mut Book<'_, Customer>,
        rows: &[WithdrawalRow],
    ) -> Result<Rest, Refused<Cleared>>
        ensures { (m : Market) → elim result [
          | Ok l ↦ Step m S.SharingRule.share
              (cleared_state self (enlisted suppliers.old) (customed customers.old) (room suppliers.old) (room customers.old))
              (closing rows.now)
              (Ok tt)
              (rest_state l (enlisted suppliers.new) (customed customers.new) (room suppliers.new) (room customers.new))
          | Err e ↦ Step m S.SharingRule.share
              (cleared_state self (enlisted suppliers.old) (customed customers.old) (room suppliers.old) (room customers.old))
              (closing rows.now)
              (Err e.fault)
              (cleared_state e.ledger (enlisted suppliers.new) (customed customers.new) (room suppliers.new) (room customers.new))
        ] }
    {
        let grains = self.cost + self.closed.carry;
        match plan_closing::<S>(suppliers, customers, rows, self.seconds, grains) {
            Ok(shares) => {
                suppliers.settle();
                customers.charge(shares.cents.as_slice());
                let Cleared {
                    closed: _,
                    hour,
                    seconds: _,
                    cost: _,
                } = self;
                Ok(Rest {
                    closed: ClosedHours {
                        carry: shares.carry,
                        last: Some(hour),
                    },
                })
            }
            // Not by `map_err` and `?`: the closure would take the ledger, which is handed on where all is well.
            Err(fault) => Err(Refused {
                ledger: self,
                fault,
            }),
        }
    }

    /// Gives the hour up: what it brought is forgotten.
    // Not one with an opened hour's: each is the step of its own stage, and two lines.
    pub fn void(self, suppliers: &mut Book<'_, Supplier>) -> Rest
        ensures { (m : Market) (rule : Rule) (ys : List Custom) (q : ℕ) → Step m rule
            (cleared_state self (enlisted suppliers.old) ys (room suppliers.old) q)
            voiding
            (Ok tt)
            (rest_state result (enlisted suppliers.new) ys (room suppliers.new) q) }
    {
        suppliers.forget();
        let Cleared {
            closed,
            hour: _,
            seconds: _,
            cost: _,
        } = self;
        Rest { closed }
    }
}
