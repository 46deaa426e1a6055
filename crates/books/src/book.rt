//! The caller's table of accounts, of either kind.
ghost use Rattle.std.specs.Prelude.{◌≡◌, ◌<◌, ◌≤◌, min, [], ◌∷◌, ◌++◌, map, length};
ghost use Rattle.books.specs.Books.{accounts, room, table};
ghost use Rattle.books.specs.Changes.{change_each};
ghost use Rattle.books.specs.Rules.{Answers, AnswersByRow};

use crate::changes::{change_all, change_rows};
use accounts::Account;

/// A table of accounts, with how many of its rows are enrolled.
///
/// The count is limited by the kind and by the table wherever it is read, so that no book has more
/// accounts than its kind may have.
// The caller owns the memory, and nothing is allocated: a slice with a count.
#[derive(Drop)]
pub struct Book<'a, A: Account> {
    rows: &'a mut [A],
    count: usize,
}

impl<'a, A: Account> Book<'a, A> {
    /// An empty book over the table.
    pub fn new(rows: &'a mut [A]) -> Self
        ensures empty { accounts A.Account.most result ≡ [] }
        ensures room { room result ≡ length rows.old }
        ensures table { table result ≡ rows.entry.ghost_name }
    {
        Book { rows, count: 0 }
    }

    /// How many accounts are enrolled.
    pub fn count(&self) -> usize
        ensures value { result ≡ length (accounts A.Account.most self.now) }
        ensures few { result ≤ A.Account.most }
        ensures within { result ≤ room self.now }
    {
        A::most().min(self.count.min(self.rows.len()))
    }

    /// How many rows the table has.
    pub fn room(&self) -> usize
        ensures { result ≡ room self.now }
    {
        self.rows.len()
    }

    /// The accounts, in the order of enrolment.
    pub fn accounts(&self) -> &[A]
        ensures all { result.now ≡ accounts A.Account.most self.now }
        ensures few { length (accounts A.Account.most self.now) ≤ A.Account.most }
    {
        let count = self.count();
        &self.rows[0..count]
    }

    // An invariant cannot compare a book with what it was: each write says that room and table stay.

    /// One more account, at the end.
    pub(crate) fn push(&mut self, account: A)
        requires { length (accounts A.Account.most self.old) < min A.Account.most (room self.old) }
        ensures after { accounts A.Account.most self.new ≡ accounts A.Account.most self.old ++ (account ∷ []) }
        ensures room { room self.new ≡ room self.old }
        ensures table { table self.new ≡ table self.old }
    {
        let count = self.count();
        self.rows[count] = account;
        self.count = count + 1;
    }

    // Two, as `change_all` and `change_rows`, which they call: another definition is promised of two lists than of one.

    /// Changes every account.
    pub(crate) fn change<C: Fn(&A) -> A>(&mut self, change: C)
        requires { C.IsAlwaysCallable change }
        ensures after { (becomes : A → A) → Answers C.Fn change becomes → accounts A.Account.most self.new ≡ map becomes (accounts A.Account.most self.old) }
        ensures room { room self.new ≡ room self.old }
        ensures table { table self.new ≡ table self.old }
    {
        let count = self.count();
        change_all(&mut self.rows[0..count], change);
        self.count = count;
    }

    /// Changes every account that has a row.
    pub(crate) fn change_by<Y, C: Fn(&A, &Y) -> A>(&mut self, rows: &[Y], change: C)
        requires { C.IsAlwaysCallable change }
        ensures after { (becomes : A → Y → A) → AnswersByRow C.Fn change becomes → accounts A.Account.most self.new ≡ change_each becomes (accounts A.Account.most self.old) rows.now }
        ensures room { room self.new ≡ room self.old }
        ensures table { table self.new ≡ table self.old }
    {
        let count = self.count();
        change_rows(&mut self.rows[0..count], rows, change);
        self.count = count;
    }
}
