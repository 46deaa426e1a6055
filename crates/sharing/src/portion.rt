//! Things that have a part of a whole.
ghost use Rattle.std.specs.Prelude.{◌≡◌, ℕ, map as listed, sum};

/// Something that has a part of a whole, such as a row of withdrawals.
pub trait Portion {
    ghost portion: { Self → ℕ };

    /// Its part.
    fn portion(&self) -> u64
        ensures { result ≡ portion self.now };
}

/// A number is a part by itself.
impl Portion for u64 {
    ghost portion = { λ n. n };

    fn portion(&self) -> u64 {
        *self
    }
}

/// The sum of all parts, which a `u128` holds whatever they are.
pub fn total_of<P: Portion>(parts: &[P]) -> u128
    ensures { result ≡ sum (listed P.Portion.portion parts.now) }
{
    let mut total = 0u128;
    for part in parts {
        total += part.portion() as u128;
    }
    total
}
