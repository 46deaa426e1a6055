//! Calls of a ledger in an hour that is not cleared yet.
//!
//! A clearing makes its plan first, with all its checks, and writes only then.
ghost use Rattle.std.specs.Prelude.{ℕ, List, Ok, Err};
ghost use Rattle.accounts.specs.declared.customer.Customer.{Customer as Custom};
ghost use Rattle.books.specs.Books.{suppliers as enlisted, room};
ghost use Rattle.curves.specs.Book.{curves_of};
ghost use Rattle.maps.specs.Market.{Market};
ghost use Rattle.sharing.specs.Rule.{Rule};
ghost use Rattle.law.specs.Ledger.{clear as clearing, void as voiding};
ghost use Rattle.law.specs.Run.{Step};
ghost use Rattle.ledger.specs.Stages.{rest_state, opened_state, cleared_state};

use crate::stages::{Cleared, Opened, Refused, Rest};
use accounts::{ScheduleSheet, Supplier};
use books::Book;
use curves::CurveBook;
use maps::LocationMap;
use planning::plan_clearing;

impl Opened {
    /// Clears the hour: the day-ahead schedules are paid for the whole hour, and kept.
    pub fn clear<M: LocationMap>(
        self,
        map: &M,
        curves: &CurveBook,
        suppliers: &mut Book<'_, Supplier>,
        sheet: ScheduleSheet<'_>,
    ) -> Result<Cleared, Refused<Opened>>
        ensures { (rule : Rule) (ys : List Custom) (q : ℕ) → elim result [
          | Ok l ↦ Step (M.LocationMap.market map.now) rule
              (opened_state self (enlisted suppliers.old) ys (room suppliers.old) q)
              (clearing sheet.entry.shadow_prices.now sheet.entry.targets.now (curves_of curves.now) sheet.entry.rows.now)
              (Ok tt)
              (cleared_state l (enlisted suppliers.new) ys (room suppliers.new) q)
          | Err e ↦ Step (M.LocationMap.market map.now) rule
              (opened_state self (enlisted suppliers.old) ys (room suppliers.old) q)
              (clearing sheet.entry.shadow_prices.now sheet.entry.targets.now (curves_of curves.now) sheet.entry.rows.now)
              (Err e.fault)
              (opened_state e.ledger (enlisted suppliers.new) ys (room suppliers.new) q)
        ] }
    {
        match plan_clearing(map, suppliers, curves, sheet) {
            Ok(plan) => {
                suppliers.post(&plan.terms, sheet.rows);
                let Opened { closed, hour } = self;
                Ok(Cleared {
                    closed,
                    hour,
                    seconds: 0,
                    cost: plan.cost,
                })
            }
            // Not by `map_err` and `?`: the closure would take the ledger, which is handed on where all is well.
            Err(fault) => Err(Refused {
                ledger: self,
                fault,
            }),
        }
    }

    /// Gives the hour up: what it brought is forgotten.
    // Not one with a cleared hour's: each is the step of its own stage, and two lines.
    pub fn void(self, suppliers: &mut Book<'_, Supplier>) -> Rest
        ensures { (m : Market) (rule : Rule) (ys : List Custom) (q : ℕ) → Step m rule
            (opened_state self (enlisted suppliers.old) ys (room suppliers.old) q)
            voiding
            (Ok tt)
            (rest_state result (enlisted suppliers.new) ys (room suppliers.new) q) }
    {
        suppliers.forget();
        let Opened { closed, hour: _ } = self;
        Rest { closed }
    }
}
