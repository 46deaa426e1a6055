//! Holding claimed shadow prices to their demand curves.
ghost use Rattle.std.specs.Prelude.{◌≡◌, ℕ, true, length, OnOk, slice_index, slice_index_or};
ghost use Rattle.sums.specs.Verdict.{every};
ghost use Rattle.faults.specs.declared.fault.Fault.TheVariants.{PriceOrTargetOutOfRange, AboveDemandCurve};
ghost use Rattle.curves.specs.Book.{curves_of};
ghost use Rattle.maps.specs.Market.{Market};
ghost use Rattle.market.specs.Claims.{counts_verdict, claim_in_range, within_curve, price_verdict, WithinCurves};

use curves::CurveBook;
use faults::Fault;
use maps::LocationMap;

/// The highest shadow price, in cents per MW and hour.
pub const MOST_SHADOW_PRICE: u32 = 100_000;
/// The highest target, in tenths of a MW.
pub const MOST_TARGET: u32 = 1_000_000;

/// The item at the place, or the other where there is none.
fn at_or<T: Copy>(items: &[T], place: usize, other: T) -> T
    ensures { result ≡ slice_index_or items.now place other }
{
    items.get(place).copied().unwrap_or(other)
}

/// Claimed shadow prices, with the targets, curves and quantities that they are held to. A price, a
/// target or a quantity that is not given is 0.
#[derive(Clone, Copy)]
struct Claim<'a> {
    shadow_prices: &'a [u32],
    targets: &'a [u32],
    curves: &'a CurveBook,
    quantities: &'a [u128],
}

impl Claim<'_> {
    /// The shadow price of a requirement.
    fn shadow_price(&self, requirement: usize) -> u32
        ensures { result ≡ slice_index self.now.shadow_prices.now requirement }
    {
        at_or(self.shadow_prices, requirement, 0)
    }

    /// The target of a requirement.
    fn target(&self, requirement: usize) -> u32
        ensures { result ≡ slice_index self.now.targets.now requirement }
    {
        at_or(self.targets, requirement, 0)
    }

    /// The quantity of a requirement.
    fn quantity(&self, requirement: usize) -> u128
        ensures { result ≡ slice_index self.now.quantities.now requirement }
    {
        at_or(self.quantities, requirement, 0)
    }

    /// Prices, targets and curves must each number the requirements.
    fn check_counts(&self, requirements: usize) -> Result<(), Fault>
        ensures { result ≡ counts_verdict requirements (length self.now.shadow_prices.now) (length self.now.targets.now) (length (curves_of self.now.curves.now)) }
    {
        let prices = self.shadow_prices.len();
        let targets = self.targets.len();
        let curves = self.curves.count();
        if prices == requirements && targets == requirements && curves == requirements {
            Ok(())
        } else {
            Err(Fault::RequirementCount { requirements })
        }
    }

    /// Whether the price and the target of a requirement are in range.
    fn is_in_range(&self, requirement: usize) -> bool
        ensures { result ≡ claim_in_range self.now.shadow_prices.now self.now.targets.now requirement }
    {
        self.shadow_price(requirement) <= MOST_SHADOW_PRICE
            && self.target(requirement) <= MOST_TARGET
    }

    /// Whether the price of a requirement is at most its curve's value.
    fn is_within_curve(&self, requirement: usize) -> bool
        ensures { result ≡ within_curve self.now.shadow_prices.now self.now.targets.now (curves_of self.now.curves.now) (λ j. slice_index self.now.quantities.now j) requirement }
    {
        let target = self.target(requirement);
        let quantity = self.quantity(requirement);
        let value = self.curves.value(requirement, target, quantity);
        self.shadow_price(requirement) <= value
    }

    /// The first requirement whose price or target is out of range is refused.
    fn check_ranges(&self, requirements: usize) -> Result<(), Fault>
        ensures { result ≡ every (claim_in_range self.now.shadow_prices.now self.now.targets.now) PriceOrTargetOutOfRange 0 requirements }
    {
        match (0..requirements).find(|k| !self.is_in_range(*k)) {
            Some(requirement) => Err(Fault::PriceOrTargetOutOfRange { requirement }),
            None => Ok(()),
        }
    }

    /// The first requirement that is priced above its curve is refused.
    fn check_curves(&self, requirements: usize) -> Result<(), Fault>
        ensures { result ≡ every (within_curve self.now.shadow_prices.now self.now.targets.now (curves_of self.now.curves.now) (λ j. slice_index self.now.quantities.now j)) AboveDemandCurve 0 requirements }
    {
        match (0..requirements).find(|k| !self.is_within_curve(*k)) {
            Some(requirement) => Err(Fault::AboveDemandCurve { requirement }),
            None => Ok(()),
        }
    }
}

/// Holds shadow prices to the demand curves, at the targets and quantities of their requirements. A
/// quantity that is not given is 0.
pub fn check_prices<M: LocationMap>(
    map: &M,
    shadow_prices: &[u32],
    targets: &[u32],
    curves: &CurveBook,
    quantities: &[u128],
) -> Result<(), Fault>
    ensures reply { result ≡ price_verdict (M.LocationMap.market map.now) shadow_prices.now targets.now (curves_of curves.now) (λ k. slice_index quantities.now k) }
    ensures law { OnOk result (WithinCurves (M.LocationMap.market map.now) shadow_prices.now targets.now (curves_of curves.now) (λ k. slice_index quantities.now k)) }
{
    let claim = Claim {
        shadow_prices,
        targets,
        curves,
        quantities,
    };
    let requirements = map.requirements();
    claim.check_counts(requirements)?;
    claim.check_ranges(requirements)?;
    claim.check_curves(requirements)
}
