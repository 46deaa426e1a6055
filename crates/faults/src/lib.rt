//! Why a call is refused.
//!
//! `Fault` has one variant for each cause, with the values that a refusal tells. What each variant
//! tells (its number, its layer, its values) is defined once, in specs/Told.antt, and `told` answers
//! that definition.
#![tactic(auto)]

ghost use Rattle.std.specs.Prelude.{◌≡◌, Some, None};
ghost use Rattle.faults.specs.Told.{tells, told_of};

mod fault;

pub use crate::fault::{Fault, Layer, Told};

/// A refusal that tells one value.
fn tell(number: u16, layer: Layer, value: u64) -> Told
    ensures { result ≡ tells number layer value }
{
    Told {
        number,
        layer,
        value: Some(value),
        step: None,
    }
}

impl Fault {
    /// The number, the layer and the values that the refusal tells.
    pub fn told(self) -> Told
        ensures { result ≡ told_of self }
    {
        match self {
            Fault::Truncated { offset } => tell(1, Layer::Feed, offset),
            Fault::UnknownKind { offset } => tell(2, Layer::Feed, offset),
            Fault::SizeNotAllowed { offset } => tell(3, Layer::Feed, offset),
            Fault::WrongStage { offset } => tell(4, Layer::Feed, offset),
            Fault::BufferTooShort { needed } => tell(5, Layer::Feed, needed as u64),
            Fault::NumberTaken { place } => tell(11, Layer::Book, place as u64),
            Fault::BookFull { count } => tell(12, Layer::Book, count as u64),
            Fault::FieldOutOfRange { field } => tell(13, Layer::Book, field as u64),
            Fault::HourOutOfOrder { last_closed } => Told {
                number: 21,
                layer: Layer::Hour,
                value: last_closed.map(u64::from),
                step: None,
            },
            Fault::SheetLength { count } => tell(31, Layer::Sheet, count as u64),
            Fault::SheetNumber { row } => tell(32, Layer::Sheet, row as u64),
            Fault::BeyondCapability { row } => tell(33, Layer::Sheet, row as u64),
            Fault::RequirementCount { requirements } => tell(34, Layer::Sheet, requirements as u64),
            Fault::PriceOrTargetOutOfRange { requirement } => {
                tell(35, Layer::Sheet, requirement as u64)
            }
            Fault::AboveDemandCurve { requirement } => tell(36, Layer::Sheet, requirement as u64),
            Fault::IntervalLength { seconds_left } => tell(41, Layer::Hour, seconds_left as u64),
            Fault::HourIncomplete { seconds_missing } => {
                tell(42, Layer::Hour, seconds_missing as u64)
            }
            Fault::NegativeNet { row } => tell(43, Layer::Hour, row as u64),
            Fault::WithdrawalTotal { total } => tell(44, Layer::Hour, total),
            Fault::AccountRange { row } => tell(45, Layer::Hour, row as u64),
            Fault::CurveSteps { curve, step } => Told {
                number: 51,
                layer: Layer::Table,
                value: Some(curve as u64),
                step: Some(step as u64),
            },
            Fault::MapArrays { location } => tell(52, Layer::Table, location as u64),
        }
    }

    /// The number of the cause.
    pub fn number(self) -> u16
        ensures { result ≡ (told_of self).number }
    {
        self.told().number
    }

    /// The layer that the cause belongs to.
    pub fn layer(self) -> Layer
        ensures { result ≡ (told_of self).layer }
    {
        self.told().layer
    }
}
