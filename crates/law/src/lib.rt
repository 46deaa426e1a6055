//! The model of the ledger (specs/) and the law that every run of it keeps (proofs/). The functions
//! below only name what is proved.
#![tactic(auto)]

ghost use Rattle.std.specs.Prelude.{List};
ghost use Rattle.law.specs.Ledger.{State};
ghost use Rattle.law.specs.Run.{Fed, Run};
ghost use Rattle.law.specs.Law.{Kept};
ghost use Rattle.law.specs.Case.{WorkedCase};

use maps::LocationMap;
use sharing::SharingRule;

/// Every run of the ledger and its books keeps the law, under every map and every sharing rule.
pub fn every_run_keeps_the_law<M: LocationMap, S: SharingRule>() -> u8
    ensures { (x : M) (log : List Fed) (s : State) → Run (M.LocationMap.market x) S.SharingRule.share log s → Kept (M.LocationMap.market x) S.SharingRule.share log s }
{
    0
}

/// The worked hour settles: every call is accepted, and 2,600 cents are paid and charged.
pub fn worked_case_settles() -> u8
    ensures { WorkedCase }
{
    0
}
