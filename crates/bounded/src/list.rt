//! The list.
ghost use Rattle.std.specs.Prelude.{◌≡◌, ◌<◌, ◌≤◌, ◌↔◌, [], ◌∷◌, ◌++◌, length, take, IsOk, IfErr, OnOk, OnErr};
ghost use Rattle.std.specs.Cmp.{on_equiv, on_per};
ghost use Rattle.std.specs.Cmp.Lexicographic.{pointwise, lists_per, lists_equiv};

use std::fmt;
use std::marker::Model;

/// At most `N` items, in order.
#[derive(Clone, Copy)]
pub struct Bounded<T, const N: usize> {
    count: usize,
    cells: [T; N],
}

impl<T, const N: usize> Model for Bounded<T, N> {
    ghost use Rattle.std.specs.Prelude.{◌≡◌, ◌≤◌, ◌++◌, length, take, drop};
    ghost use Rattle.std.proofs.Common.{arith, take-append-drop, length-take-le};
    ghost use Rattle.bounded.specs.Bounded.{Bounded as Items, bounded_code};

    ghost Value = { Items T };

    ghost coded = { bounded_code T.code };

    ghost view = { λ b. record { items = take b.count b.cells; spare = drop b.count b.cells } };

    ghost invariant = { λ b. (b.count ≤ N) × (length b.cells ≡ N) };

    ghost inverse = { λ b. record { cells = b.items ++ b.spare; count = length b.items } };

    ghost inverse_ok = { λ b h i. record {
      cells = take-append-drop b.count b.cells i;
      count = length-take-le b.count b.cells (omega (arith, h.0, h.1)) i;
    } };
}

impl<T: Copy + Default, const N: usize> Bounded<T, N> {
    /// The list of no items.
    pub fn empty() -> Self
        ensures { result.items ≡ [] }
    {
        Bounded {
            count: 0,
            cells: [T::default(); N],
        }
    }

    /// The first items, as many as there is room for.
    pub fn first_of(items: &[T]) -> Self
        ensures value { result.items ≡ take N items.now }
        ensures all { length items.now ≤ N → result.items ≡ items.now }
    {
        let count = items.len().min(N);
        let mut cells = [T::default(); N];
        cells[..count].copy_from_slice(&items[..count]);
        Bounded { count, cells }
    }
}

impl<T, const N: usize> Bounded<T, N> {
    /// The items.
    pub fn as_slice(&self) -> &[T]
        ensures value { result.now ≡ self.now.items }
        ensures few { length result.now ≤ N }
    {
        &self.cells[..self.count]
    }

    /// How many items there are.
    pub fn len(&self) -> usize
        ensures value { result ≡ length self.now.items }
        ensures few { result ≤ N }
    {
        self.as_slice().len()
    }
}

impl<T: Copy, const N: usize> Bounded<T, N> {
    /// Appends the item; where there is no room, hands it back and leaves the list as it is.
    pub fn push(&mut self, item: T) -> Result<(), T>
        ensures reply { IsOk result ↔ (length self.old.items < N) }
        ensures added { OnOk result (self.new.items ≡ self.old.items ++ item ∷ []) }
        ensures full { OnErr result (self.new ≡ self.old) }
        ensures back { IfErr result (λ x. x ≡ item) }
    {
        if self.count == N {
            return Err(item);
        }
        self.cells[self.count] = item;
        self.count += 1;
        Ok(())
    }
}

impl<T: Copy + Default, const N: usize> Default for Bounded<T, N> {
    ghost is_default = { λ b. b.items ≡ [] };

    fn default() -> Self {
        Self::empty()
    }
}

/// Lists are equal where their items are.
impl<T: PartialEq, const N: usize> PartialEq for Bounded<T, N> {
    ghost eq = { λ a b. pointwise T.eq a.items b.items };

    ghost laws = { on_per (λ b. b.items) (lists_per T.laws) };

    fn eq(&self, other: &Self) -> bool {
        self.as_slice() == other.as_slice()
    }
}

impl<T: Eq, const N: usize> Eq for Bounded<T, N> {
    ghost laws = { on_equiv (λ b. b.items) (lists_equiv T.Eq.laws) };
}

impl<T: fmt::Debug, const N: usize> fmt::Debug for Bounded<T, N> {
    fn fmt<W: fmt::Write>(&self, f: &mut fmt::Formatter<W>) -> fmt::Result {
        f.debug_list().entries(self.as_slice()).finish()
    }
}
