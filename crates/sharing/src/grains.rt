//! Grains, the smallest amounts of money, and the whole cents in them.
ghost use Rattle.std.specs.Prelude.{◌≡◌};
ghost use Rattle.sharing.specs.Shares.{whole, rest};

/// A grain is a cent divided by this: one cent per MW and hour, times a tenth of a MW, times one second.
pub const GRAINS_PER_CENT: i64 = 36_000;

/// The whole cents of so many grains, rounded toward minus infinity.
pub fn whole_cents(grains: i64) -> i64
    ensures { result ≡ whole grains }
{
    grains.div_euclid(GRAINS_PER_CENT)
}

/// The grains that remain beside the whole cents: 0 to 35,999.
pub fn rest_grains(grains: i64) -> u32
    ensures { result ≡ rest grains }
{
    grains.rem_euclid(GRAINS_PER_CENT) as u32
}
