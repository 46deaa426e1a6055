//! Changes of accounts in order.
// That a closure may be called is asked of each function: a bound cannot say it.
ghost use Rattle.std.specs.Prelude.{◌≡◌, map};
ghost use Rattle.books.specs.Changes.{change_each};
ghost use Rattle.books.specs.Rules.{Answers, AnswersByRow};

/// Changes every account.
pub(crate) fn change_all<X: Copy, C: Fn(&X) -> X>(accounts: &mut [X], change: C)
    requires { C.IsAlwaysCallable change }
    ensures { (becomes : X → X) → Answers C.Fn change becomes → accounts.new ≡ map becomes accounts.old }
{
    for account in accounts.iter_mut() {
        *account = change(account);
    }
}

/// Changes every account that has a row.
// Not one with `change_all`: over pairs both would be longer, as another definition is promised of two lists than of one.
pub(crate) fn change_rows<X: Copy, Y, C: Fn(&X, &Y) -> X>(accounts: &mut [X], rows: &[Y], change: C)
    requires { C.IsAlwaysCallable change }
    ensures { (becomes : X → Y → X) → AnswersByRow C.Fn change becomes → accounts.new ≡ change_each becomes accounts.old rows.now }
{
    // Each row is looked up: of what `iter_mut().zip(rows)` writes, a proof knows nothing.
    for (i, account) in accounts.iter_mut().enumerate() {
        if let Some(row) = rows.get(i) {
            *account = change(account, row);
        }
    }
}
