//! The three reserve products.
ghost use Rattle.std.specs.Prelude.{◌≡◌};
ghost use Rattle.maps.specs.Market.{quality_of};

/// A reserve product; each later one is of better quality and may stand in for those before it.
#[derive(Clone, Copy, PartialEq, Eq, Debug)]
pub enum Product {
    ThirtyMinute,
    /// Ten-minute reserve of a resource that is not synchronized.
    TenMinute,
    Spinning,
}

impl Product {
    /// All products, the lowest quality first.
    pub const ALL: [Product; 3] = [Product::ThirtyMinute, Product::TenMinute, Product::Spinning];

    /// Its quality, which is also its number: 0, 1 or 2.
    pub fn quality(self) -> usize
        ensures { result ≡ quality_of self }
    {
        self as usize
    }
}
