//! What the requirements cost.
ghost use Rattle.std.specs.Prelude.{◌≡◌, ℕ, ◌*◌, ◌^◌, ◌≤◌, length, pos, ◌-ℤ◌, ◌*ℤ◌, slice_index, unsigned_abs};
ghost use Rattle.planning.specs.Plans.{most_cost, cost_at};

/// What the quantities cost in one second, in grains.
pub(crate) fn cost_of(shadow_prices: &[u32], quantities: &[u128]) -> u128
    requires few { length shadow_prices.now ≤ 32 }
    requires long { length quantities.now ≡ 32 }
    requires low { (k : ℕ) → slice_index quantities.now k ≤ 2 ^ 64 }
    ensures { result ≡ cost_at shadow_prices.now quantities.now }
{
    shadow_prices
        .iter()
        .zip(quantities)
        .map(|(price, quantity)| *price as u128 * *quantity)
        .sum()
}

/// By how much real time costs more than what is paid already, over the seconds.
pub(crate) fn cost_over(real: u128, paid: u128, seconds: u32) -> i64
    requires real { real ≤ most_cost }
    requires paid { paid ≤ most_cost }
    requires time { seconds ≤ 3600 }
    ensures value { result ≡ (pos real -ℤ pos paid) *ℤ pos seconds }
    ensures bound { unsigned_abs result ≤ most_cost * seconds }
{
    (real as i64 - paid as i64) * seconds as i64
}
