//! A location of a loaded map.
ghost use Rattle.std.specs.Prelude.{◌≡◌, ◌<◌, ◌&&◌, nat_le};
ghost use Rattle.maps.specs.Tree.{has_bit_lem, parent_fits};

/// The largest mask: it asks for all three products.
const ALL_PRODUCTS: u8 = 7;

/// A location: its parent, and its mask of the products that have a requirement there.
#[derive(Clone, Copy, Default)]
pub(crate) struct Place {
    pub(crate) parent: usize,
    pub(crate) mask: u8,
}

impl Place {
    /// A location below this parent, with a requirement for each product.
    pub(crate) fn asking_for_all(parent: usize) -> Place
        ensures { result ≡ record { parent = parent; mask = 7 } }
    {
        Place {
            parent,
            mask: ALL_PRODUCTS,
        }
    }

    /// Whether location number `location` may have this parent and this mask.
    pub(crate) fn fits(self, location: usize) -> bool
        ensures { result ≡ (parent_fits self.parent location && nat_le self.mask 7) }
    {
        let below = if location == 0 {
            self.parent == 0
        } else {
            self.parent < location
        };
        below && self.mask <= ALL_PRODUCTS
    }

    /// Whether the mask asks for the product of this number.
    pub(crate) fn asks_for(self, product: usize) -> bool
        requires { product < 3 }
        ensures { result ≡ has_bit_lem self.mask product }
    {
        (self.mask >> product) % 2 == 1
    }
}
