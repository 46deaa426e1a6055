//! The loaded map: a tree of locations, each with a mask of the products that have a requirement there.
ghost use Rattle.std.specs.Prelude.{◌≤◌, length};
ghost use Rattle.maps.specs.Tree.{ParentsFall, requirement_slots};
ghost use Rattle.maps.specs.Places.{parents_of, masks_of};

use crate::place::Place;
use bounded::Bounded;

mod loading;
pub mod replies;
mod slots;

/// The most locations that a loaded map has.
pub const MOST_LOCATIONS: usize = 10;

/// A map that was loaded from arrays: its locations, by their numbers.
#[derive(Clone, Copy)]
pub struct LoadedMap {
    places: Bounded<Place, MOST_LOCATIONS>,
    ghost some: { 1 ≤ length places.items },
    ghost few: { length places.items ≤ 10 },
    ghost falls: { ParentsFall (length places.items) (parents_of places.items) },
    ghost asks: { 1 ≤ length (requirement_slots (length places.items) (masks_of places.items)) },
}
