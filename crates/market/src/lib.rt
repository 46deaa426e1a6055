//! Clearing prices, quantities and their laws, over any location map.
#![tactic(auto)]

ghost use Rattle.std.specs.Prelude.{ℕ, List};
ghost use Rattle.maps.specs.Market.{Market};
ghost use Rattle.market.specs.Laws.{BetterNeverCheaper, CostIsEarned};

mod claims;
mod per_product;
mod prices;
mod quantity;

pub use crate::claims::{MOST_SHADOW_PRICE, MOST_TARGET, check_prices};
pub use crate::per_product::{PerProduct, ProductPrices, Reserves};
pub use crate::prices::{clearing_price, clearing_prices};
pub use crate::quantity::{Placed, Scheduled, quantities};
use maps::LocationMap;

/// At every location, under every map and all shadow prices, better reserve is priced no lower.
pub fn better_is_never_cheaper<M: LocationMap>() -> u8
    ensures { (x : M) → BetterNeverCheaper (M.LocationMap.market x) }
{
    0
}

/// What the requirements cost is what the suppliers' products earn, under every map.
pub fn cost_is_earned<M: LocationMap>() -> u8
    ensures { (x : M) → CostIsEarned (M.LocationMap.market x) }
{
    0
}
