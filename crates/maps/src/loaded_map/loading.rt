//! Loading a map from its arrays.
ghost use Rattle.std.specs.Prelude.{◌≡◌, ◌≤◌, length, nat_lt, slice_index, EachIndex, MatchResult};
ghost use Rattle.sums.specs.Verdict.{want, every};
ghost use Rattle.faults.specs.declared.fault.Fault.TheVariants.{MapArrays};
ghost use Rattle.maps.specs.Market.{SameMarket};
ghost use Rattle.maps.specs.Tree.{map_verdict, sizes_fit, is_placed_lem, requirement_slots, loaded_market};
ghost use Rattle.maps.specs.Fixed.{fixed_market};
ghost use Rattle.maps.specs.Loaded.{market_of};
ghost use Rattle.maps.specs.Places.{parents_of, masks_of};

use crate::loaded_map::{LoadedMap, MOST_LOCATIONS};
use crate::place::Place;
use bounded::Bounded;
use faults::Fault;

/// The numbers of the fixed map's locations that have others below them.
const WEST: usize = 0;

const EAST: usize = 1;

const SOUTHEAST: usize = 2;

/// There are 1 to 10 locations, and each array has one entry for each.
// The arrays come in as they are, since a refusal has to tell that their lengths differ.
fn check_sizes(locations: usize, parents: usize, masks: usize) -> Result<(), Fault>
    ensures { result ≡ want (sizes_fit locations parents masks) (MapArrays locations) }
{
    let fit = 0 < locations
        && locations <= MOST_LOCATIONS
        && parents == locations
        && masks == locations;
    if fit {
        Ok(())
    } else {
        Err(Fault::MapArrays {
            location: locations,
        })
    }
}

/// The locations with these parents and masks.
fn paired(parents: &[usize], masks: &[u8]) -> Bounded<Place, MOST_LOCATIONS>
    requires few { length parents.now ≤ 10 }
    requires paired { length masks.now ≡ length parents.now }
    ensures parents { parents_of result.items ≡ parents.now }
    ensures masks { masks_of result.items ≡ masks.now }
{
    let mut places = Bounded::empty();
    for (parent, mask) in parents.iter().zip(masks) {
        // There is room for as many locations as the arrays tell of.
        let _ = places.push(Place {
            parent: *parent,
            mask: *mask,
        });
    }
    places
}

/// The first location that may not be as it is, is refused.
fn check_places(parents: &[usize], masks: &[u8]) -> Result<(), Fault>
    requires { length masks.now ≡ length parents.now }
    ensures { result ≡ every (is_placed_lem parents.now masks.now) MapArrays 0 (length parents.now) }
{
    for (location, &parent) in parents.iter().enumerate() {
        let mask = masks[location];
        let place = Place { parent, mask };
        if !place.fits(location) {
            return Err(Fault::MapArrays { location });
        }
    }
    Ok(())
}

/// Whether some mask asks for a product. Each has three bits.
fn some_asked(masks: &[u8]) -> bool
    requires { EachIndex masks.now (λ k. slice_index masks.now k ≤ 7) }
    ensures { result ≡ nat_lt 0 (length (requirement_slots (length masks.now) masks.now)) }
{
    masks.iter().any(|mask| *mask != 0)
}

/// The arrays make a map, or which location is refused.
fn check_arrays(locations: usize, parents: &[usize], masks: &[u8]) -> Result<(), Fault>
    ensures { result ≡ map_verdict locations parents.now masks.now }
{
    check_sizes(locations, parents.len(), masks.len())?;
    check_places(parents, masks)?;
    if !some_asked(masks) {
        return Err(Fault::MapArrays {
            location: locations,
        });
    }
    Ok(())
}

impl LoadedMap {
    /// The tree that replies as the fixed map: West is the root, below it East, below that Southeast,
    /// and below that New York City and Long Island. It also serves to load another map into.
    pub fn fixed_tree() -> LoadedMap
        ensures { SameMarket (market_of result) fixed_market }
    {
        let west = Place::asking_for_all(WEST);
        let east = Place::asking_for_all(WEST);
        let southeast = Place::asking_for_all(EAST);
        let new_york_city = Place::asking_for_all(SOUTHEAST);
        let long_island = Place::asking_for_all(SOUTHEAST);
        let places = [west, east, southeast, new_york_city, long_island];
        LoadedMap {
            places: Bounded::first_of(&places),
        }
    }

    /// Replaces the map by the one that the arrays describe: each location's parent, and each one's
    /// mask of the products that have a requirement there. A refusal leaves the map as it was.
    pub fn load(&mut self, locations: usize, parents: &[usize], masks: &[u8]) -> Result<(), Fault>
        ensures reply { result ≡ map_verdict locations parents.now masks.now }
        ensures holds { MatchResult result (λ _. SameMarket (market_of self.new) (loaded_market locations parents.now masks.now)) (λ _. self.new ≡ self.old) }
    {
        check_arrays(locations, parents, masks)?;
        let places = paired(parents, masks);
        *self = LoadedMap { places };
        Ok(())
    }
}
