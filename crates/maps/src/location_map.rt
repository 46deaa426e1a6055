//! What every location map tells, and the law it keeps.
ghost use Rattle.std.specs.Prelude.{◌≡◌};
ghost use Rattle.maps.specs.Market.{Market, MapLaw};

use crate::Product;

/// A location map. Its ghost member `market` is all it tells; the replies depend on nothing else, so
/// asking changes nothing and repeats its reply.
pub trait LocationMap {
    ghost market: { Self → Market };

    /// How many requirements there are: 1 to 32.
    fn requirements(&self) -> usize
        ensures { result ≡ (market self.now).requirements };

    /// How many locations there are: 1 to 16.
    fn locations(&self) -> usize
        ensures { result ≡ (market self.now).locations };

    /// Whether the product, supplied at the location, counts toward the requirement. It does not
    /// where requirement or location is past the last.
    fn counts(&self, requirement: usize, product: Product, location: usize) -> bool
        ensures { result ≡ (market self.now).counts requirement product location };

    ghost lawful: { (x : Self) → MapLaw (market x) };
}
