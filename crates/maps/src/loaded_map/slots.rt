//! Slots: product `j % 3` at location `j / 3` is slot `j`, so slots go by location, then by product.
ghost use Rattle.std.specs.Prelude.{◌≡◌, ◌≤◌, length};
ghost use Rattle.std.specs.List.{slice_get};
ghost use Rattle.maps.specs.Tree.{wanted_at, requirement_slots};
ghost use Rattle.maps.specs.Places.{masks_of};

use crate::place::Place;

/// Whether a requirement stands at the slot.
fn is_wanted(places: &[Place], slot: usize) -> bool
    ensures { result ≡ wanted_at (masks_of places.now) slot }
{
    places
        .get(slot / 3)
        .is_some_and(|place| place.asks_for(slot % 3))
}

/// How many requirements the locations have.
pub(crate) fn count_wanted(places: &[Place]) -> usize
    requires { length places.now ≤ 10 }
    ensures { result ≡ length (requirement_slots (length places.now) (masks_of places.now)) }
{
    let mut found = 0;
    for place in places {
        for product in 0..3 {
            if place.asks_for(product) {
                found += 1;
            }
        }
    }
    found
}

/// The slot of a requirement, if there are so many.
// As `(0..3 * places.len()).filter(..).nth(requirement)` it was tried: the proof did not close.
pub(crate) fn slot_of(places: &[Place], requirement: usize) -> Option<usize>
    requires { length places.now ≤ 10 }
    ensures { result ≡ slice_get (requirement_slots (length places.now) (masks_of places.now)) requirement }
{
    let mut left = requirement;
    for slot in 0..3 * places.len() {
        if is_wanted(places, slot) {
            if left == 0 {
                return Some(slot);
            }
            left -= 1;
        }
    }
    None
}
