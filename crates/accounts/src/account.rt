//! What every sheet row and every account shows.
ghost use Rattle.std.specs.Prelude.{◌≡◌, ℕ, ℤ};

/// A record with a number, by which sheets and books are matched.
pub trait Numbered: Copy {
    ghost numbered: { Self → ℕ };

    fn number(&self) -> u32
        ensures { result ≡ numbered self.now };
}

/// An account: a numbered record that also has money, and its own kind of sheet row.
pub trait Account: Numbered {
    type Row: Numbered;

    /// The most accounts of this kind that a book takes.
    ghost most: { ℕ };

    ghost money: { Self → ℤ };

    ghost rest: { Self → ℕ };

    fn most() -> usize
        ensures { result ≡ most };

    /// The cents paid, or charged, so far.
    fn cents(&self) -> i64
        ensures { result ≡ money self.now };

    /// The grains that do not make a cent yet.
    fn held(&self) -> u32
        ensures { result ≡ rest self.now };
}
