//! Clearing prices from shadow prices.
ghost use Rattle.std.specs.Prelude.{◌≡◌, ℕ, ◌*◌, ◌^◌, ◌<◌, ◌≤◌, length, get_or, slice_index_or};
ghost use Rattle.maps.specs.Market.{Market};
ghost use Rattle.market.specs.Prices.{price};
ghost use Rattle.market.specs.Tables.{prices_at_lem, no_prices};

use crate::ProductPrices;
use maps::{LocationMap, Product};

/// The clearing price of a product at a location: the sum of the shadow prices of the requirements
/// that it counts toward. A requirement without a shadow price adds nothing.
pub fn clearing_price<M: LocationMap>(
    map: &M,
    shadow_prices: &[u32],
    product: Product,
    location: usize,
) -> u64
    ensures value { result ≡ price (M.LocationMap.market map.now) shadow_prices.now product location }
    ensures bound { result < 2 ^ 37 }
{
    let count = shadow_prices.len().min(map.requirements());
    let mut sum = 0;
    for (requirement, price) in shadow_prices[..count].iter().enumerate() {
        if map.counts(requirement, product, location) {
            sum += *price as u64;
        }
    }
    sum
}

/// The clearing prices of all products at one location.
fn prices_at<M: LocationMap>(map: &M, shadow_prices: &[u32], location: usize) -> ProductPrices
    ensures { result ≡ prices_at_lem (M.LocationMap.market map.now) shadow_prices.now location }
{
    let price = |product| clearing_price(map, shadow_prices, product, location);
    ProductPrices {
        thirty: price(Product::ThirtyMinute),
        ten: price(Product::TenMinute),
        spinning: price(Product::Spinning),
    }
}

/// The clearing prices at every location, asked of the map once; past the map's locations they are 0.
pub fn clearing_prices<M: LocationMap>(map: &M, shadow_prices: &[u32]) -> [ProductPrices; 16]
    ensures value { (l : ℕ) → slice_index_or result l no_prices ≡ prices_at_lem (M.LocationMap.market map.now) shadow_prices.now l }
    ensures law { (l : ℕ) → ((get_or result l no_prices).thirty ≤ (get_or result l no_prices).ten) × ((get_or result l no_prices).ten ≤ (get_or result l no_prices).spinning) }
{
    let mut table = [ProductPrices::default(); 16];
    // Counted by hand: `array::from_fn`, which calls at all 16 places, was tried and takes many times as long; and of what
    // `iter_mut` writes into an array a proof knows nothing.
    for l in 0..map.locations() {
        table[l] = prices_at(map, shadow_prices, l);
    }
    table
}
