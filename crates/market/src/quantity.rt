//! Quantities: the scheduled tenths that count toward each requirement.
ghost use Rattle.std.specs.Prelude.{◌≡◌, ℕ, ◌+◌, ◌*◌, ◌^◌, ◌<◌, ◌≤◌, List, map as listed, length, sum_by, slice_index, slice_index_or};
ghost use Rattle.sums.specs.Sums.{upto};
ghost use Rattle.maps.specs.Market.{Market};
ghost use Rattle.market.specs.Products.{Reserves};
ghost use Rattle.market.specs.Prices.{quantity};
ghost use Rattle.market.specs.Totals.{Totals, no_totals, added, AtMost, counted, Tallies};

use crate::{PerProduct, Reserves};
use maps::{LocationMap, Product};

/// Something at a location, such as a supplier's account.
pub trait Placed {
    ghost place: { Self → ℕ };

    fn location(&self) -> usize
        ensures { result ≡ place self.now };
}

/// Something scheduled to provide reserves, such as a row of a schedule.
pub trait Scheduled {
    ghost scheduled: { Self → Reserves };

    fn reserves(&self) -> Reserves
        ensures { result ≡ scheduled self.now };
}

/// All tenths of each product at one location.
// That no total is over 2^96 is asked of each function: a struct around the table, only for that, would be longer.
type Totals = PerProduct<u128>;

/// Adds reserves to the totals of their location; a location that no map has is left out.
fn add(totals: &mut [Totals], location: usize, reserves: Reserves)
    requires { AtMost (2 ^ 96) totals.old }
    ensures after { totals.new ≡ added totals.old location reserves }
    ensures thirty { reserves.thirty ≤ 2 ^ 32 }
    ensures ten { reserves.ten ≤ 2 ^ 32 }
    ensures spinning { reserves.spinning ≤ 2 ^ 32 }
{
    if location < totals.len() {
        let there = &mut totals[location];
        there.thirty += reserves.thirty as u128;
        there.ten += reserves.ten as u128;
        there.spinning += reserves.spinning as u128;
    }
}

/// The totals at every location, in one pass.
fn totals_of<P: Placed, R: Scheduled>(places: &[P], rows: &[R]) -> [Totals; 16]
    ensures { Tallies (listed P.Placed.place places.now) (listed R.Scheduled.scheduled rows.now) result }
{
    let mut totals = [Totals::default(); 16];
    for (place, row) in places.iter().zip(rows) {
        add(&mut totals, place.location(), row.reserves());
    }
    totals
}

/// The tenths at one location that count toward one requirement.
fn counting_toward<M: LocationMap>(
    map: &M,
    requirement: usize,
    location: usize,
    there: &Totals,
) -> u128
    requires low { (there.now.thirty ≤ 2 ^ 96) × (there.now.ten ≤ 2 ^ 96) × (there.now.spinning ≤ 2 ^ 96) }
    ensures { result ≡ counted (M.LocationMap.market map.now) requirement location there.now }
{
    let mut sum = 0;
    for product in Product::ALL {
        if map.counts(requirement, product, location) {
            sum += there.of(product);
        }
    }
    sum
}

/// The tenths that count toward one requirement.
fn quantity_toward<M: LocationMap>(map: &M, totals: &[Totals; 16], requirement: usize) -> u128
    requires low { AtMost (2 ^ 96) totals.now }
    ensures { result ≡ sum_by (λ l. counted (M.LocationMap.market map.now) requirement l (slice_index_or totals.now l no_totals)) (upto (M.LocationMap.market map.now).locations) }
{
    let mut sum = 0;
    for (location, there) in totals[..map.locations()].iter().enumerate() {
        sum += counting_toward(map, requirement, location, there);
    }
    sum
}

/// The quantity of every requirement, where the suppliers at `places` are scheduled by `rows`, in
/// order and as far as the shorter goes; past the map's requirements it is 0.
pub fn quantities<M: LocationMap, P: Placed, R: Scheduled>(
    map: &M,
    places: &[P],
    rows: &[R],
) -> [u128; 32]
    ensures value { (k : ℕ) → slice_index result k ≡ quantity (M.LocationMap.market map.now) (listed P.Placed.place places.now) (listed R.Scheduled.scheduled rows.now) k }
    ensures bound { (k : ℕ) → slice_index result k ≤ 48 * (2 ^ 32 * length places.now) }
{
    let totals = totals_of(places, rows);
    let mut table = [0; 32];
    // Counted by hand: `array::from_fn` was tried, and what it makes is copied twice for each schedule.
    for requirement in 0..map.requirements() {
        table[requirement] = quantity_toward(map, &totals, requirement);
    }
    table
}
