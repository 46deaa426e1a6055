//! Worked figures, proved through the definitions that the contracts cite, and through the code.
#![tactic(auto)]

ghost use Rattle.std.specs.Prelude.{◌≡◌};
ghost use Rattle.figures.specs.Figures.{Figures};

use maps::{FixedMap, Product};
use market::clearing_price;

/// The figures follow from the definitions.
pub fn figures_hold() -> u8
    ensures { Figures }
{
    0
}

/// Eastern spinning reserve at SP1 300, SP2 200, SP3 100, SP4 50 is priced at 650, by the code.
pub fn eastern_spinning() -> u64
    ensures { result ≡ 650 }
{
    clearing_price(&FixedMap, &[300, 200, 100, 50], Product::Spinning, 1)
}
