//! How much of each product.
ghost use Rattle.std.specs.Prelude.{◌≡◌};
ghost use Rattle.market.specs.Products.{amount_of};

use maps::Product;

/// An amount of each reserve product.
#[derive(Clone, Copy, PartialEq, Eq, Debug, Default)]
pub struct PerProduct<T> {
    pub thirty: T,
    pub ten: T,
    pub spinning: T,
}

/// Reserves of each product, in tenths of a MW.
pub type Reserves = PerProduct<u32>;

/// What each product earns at one location, in cents per MW and hour.
pub type ProductPrices = PerProduct<u64>;

impl Reserves {
    /// No reserve of any product.
    pub const NONE: Reserves = Reserves {
        thirty: 0,
        ten: 0,
        spinning: 0,
    };
}

impl<T: Copy> PerProduct<T> {
    /// The amount of one product.
    pub fn of(&self, product: Product) -> T
        ensures { result ≡ amount_of self.now product }
    {
        match product {
            Product::ThirtyMinute => self.thirty,
            Product::TenMinute => self.ten,
            Product::Spinning => self.spinning,
        }
    }
}
