//! Checks of accounts and rows in order: the first that breaks a rule is told.
ghost use Rattle.std.specs.Prelude.{◌≡◌, ℕ, Bool};
ghost use Rattle.faults.specs.declared.fault.Fault.{Fault};
ghost use Rattle.sums.specs.Verdict.{scan, scan_one};
ghost use Rattle.books.specs.Rules.{Answers, AnswersByRow, Faults};

use faults::Fault;

/// Refuses the first item that breaks the rule, with the fault of its place.
pub(crate) fn check_all<X, K: Fn(&X) -> bool, E: Fn(usize) -> Fault>(
    items: &[X],
    keeps: K,
    fault: E,
) -> Result<(), Fault>
    requires keeps { K.IsAlwaysCallable keeps }
    requires fault { E.IsAlwaysCallable fault }
    ensures { (rule : X → Bool) (of : ℕ → Fault) → Answers K.Fn keeps rule → Faults E.Fn fault of → result ≡ scan_one rule of 0 items.now }
{
    items
        .iter()
        .position(|item| !keeps(item))
        .map_or(Ok(()), |place| Err(fault(place)))
}

/// Refuses the first row that breaks the rule, as far as the shorter list goes.
// Not one with `check_all`: over pairs both would be longer, as another definition is promised of two lists than of one.
pub(crate) fn check_rows<X, Y, K: Fn(&X, &Y) -> bool, E: Fn(usize) -> Fault>(
    accounts: &[X],
    rows: &[Y],
    keeps: K,
    fault: E,
) -> Result<(), Fault>
    requires keeps { K.IsAlwaysCallable keeps }
    requires fault { E.IsAlwaysCallable fault }
    ensures { (rule : X → Y → Bool) (of : ℕ → Fault) → AnswersByRow K.Fn keeps rule → Faults E.Fn fault of → result ≡ scan rule of 0 accounts.now rows.now }
{
    accounts
        .iter()
        .zip(rows)
        .position(|(account, row)| !keeps(account, row))
        .map_or(Ok(()), |row| Err(fault(row)))
}
