//! What the loaded map replies.
ghost use Rattle.std.specs.Prelude.{◌≡◌, ℕ, ◌<◌, ◌≤◌, length, slice_index};
ghost use Rattle.maps.specs.Tree.{covers};
ghost use Rattle.maps.specs.Loaded.{market_of};
ghost use Rattle.maps.specs.Places.{parents_of, masks_of};
ghost use Rattle.maps.specs.Trees.{loaded_lawful};

use crate::loaded_map::LoadedMap;
use crate::loaded_map::slots::{count_wanted, slot_of};
use crate::{LocationMap, Product};

/// The location that is its own parent, and an ancestor of all.
const ROOT: usize = 0;

impl LoadedMap {
    /// The parent of the location.
    fn parent_of(&self, location: usize) -> usize
        requires { location < length self.now.places.items }
        ensures { result ≡ slice_index (parents_of self.now.places.items) location }
    {
        self.places.as_slice()[location].parent
    }

    /// Whether `upper` is the location or an ancestor of it. Parents have smaller numbers, so this ends.
    fn is_at_or_above(&self, upper: usize, location: usize) -> bool
        requires { location < length self.now.places.items }
        ensures { (n : ℕ) → location ≤ n → result ≡ covers (parents_of self.now.places.items) n upper location }
    {
        if upper == location {
            true
        } else if location == ROOT {
            false
        } else {
            self.is_at_or_above(upper, self.parent_of(location))
        }
    }
}

impl LocationMap for LoadedMap {
    ghost market = { market_of };

    ghost lawful = { λ x. loaded_lawful (length x.places.items) (parents_of x.places.items) (masks_of x.places.items) x.some x.few x.asks };

    fn requirements(&self) -> usize {
        count_wanted(self.places.as_slice())
    }

    fn locations(&self) -> usize {
        self.places.len()
    }

    fn counts(&self, requirement: usize, product: Product, location: usize) -> bool {
        if location >= self.locations() {
            return false;
        }
        match slot_of(self.places.as_slice(), requirement) {
            Some(slot) => self.is_at_or_above(slot / 3, location) && slot % 3 <= product.quality(),
            None => false,
        }
    }
}
