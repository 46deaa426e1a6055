//! The fixed map: five regions of one control area, three requirements each.
ghost use Rattle.maps.specs.Fixed.{fixed_market};
ghost use Rattle.std.proofs.Common.{rules};

use crate::{LocationMap, Product};

/// The fixed map. Locations are 0 West, 1 East, 2 Southeast, 3 New York City, 4 Long Island; the
/// requirements are the fifteen of the tariff's price formulae, in their order.
#[derive(Clone, Copy)]
pub struct FixedMap;

impl LocationMap for FixedMap {
    ghost market = { λ _. fixed_market };

    ghost lawful = { Prim.search rules };

    fn requirements(&self) -> usize {
        15
    }

    fn locations(&self) -> usize {
        5
    }

    fn counts(&self, requirement: usize, product: Product, location: usize) -> bool {
        if location >= 5 {
            return false;
        }
        // Three requirements a region: for each product, and what is better.
        let region = requirement / 3;
        let least_quality = requirement % 3;
        // East and Southeast take in all that lies beyond them; the last two only themselves.
        let inside = if region <= 2 {
            region <= location
        } else {
            region == location
        };
        inside && least_quality <= product.quality()
    }
}
