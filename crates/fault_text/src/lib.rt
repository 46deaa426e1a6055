//! Faults in plain words, one line each. A line's words are not proved; the name of a layer is.
#![tactic(auto)]

ghost use Rattle.std.specs.Prelude.{◌≡◌};
ghost use Rattle.fault_text.specs.Names.{name_of};

use faults::{Fault, Layer};
use std::fmt;

/// A fault to be shown in words: `{}` writes one line without its end.
#[derive(Clone, Copy)]
pub struct InWords(pub Fault);

/// The name of a layer.
// A word to be used as it is: a `Display` would only write it out.
pub fn layer_name(layer: Layer) -> &'static str
    ensures { result.now ≡ name_of layer }
{
    match layer {
        Layer::Feed => "feed",
        Layer::Book => "book",
        Layer::Sheet => "sheet",
        Layer::Hour => "hour",
        Layer::Table => "table",
    }
}

impl fmt::Display for InWords {
    fn fmt<W: fmt::Write>(&self, f: &mut fmt::Formatter<W>) -> fmt::Result {
        match self.0 {
            Fault::Truncated { offset } => write!(
                f,
                "the feed ends inside the record at offset {offset}"
            ),
            Fault::UnknownKind { offset } => write!(
                f,
                "the record at offset {offset} is of no known kind"
            ),
            Fault::SizeNotAllowed { offset } => {
                write!(
                    f,
                    "the record at offset {offset} has a size that its kind does not allow"
                )
            }
            Fault::WrongStage { offset } => {
                write!(
                    f,
                    "the record at offset {offset} comes at the wrong stage of the hour"
                )
            }
            Fault::BufferTooShort { needed } => write!(
                f,
                "the output needs a buffer of {needed} bytes"
            ),
            Fault::NumberTaken { place } => write!(
                f,
                "the number is held already, at place {place} of the book"
            ),
            Fault::BookFull { count } => write!(f, "the book is full with {count} accounts"),
            Fault::FieldOutOfRange { field } => {
                write!(
                    f,
                    "field {field} is out of range (1 location, 2 kind, 3 upper limit, 4 response rate)"
                )
            }
            Fault::HourOutOfOrder {
                last_closed: Some(hour),
            } => {
                write!(
                    f,
                    "the hour is past the last one allowed or not above hour {hour}, the last closed"
                )
            }
            Fault::HourOutOfOrder { last_closed: None } => write!(
                f,
                "the hour is past the last one allowed"
            ),
            Fault::SheetLength { count } => write!(
                f,
                "the sheet differs in length from its book of {count} accounts"
            ),
            Fault::SheetNumber { row } => write!(
                f,
                "row {row} of the sheet has not its account's number"
            ),
            Fault::BeyondCapability { row } => write!(
                f,
                "row {row} schedules more than its supplier can do"
            ),
            Fault::RequirementCount { requirements } => {
                write!(
                    f,
                    "prices, targets and curves must each number {requirements}, one for each requirement"
                )
            }
            Fault::PriceOrTargetOutOfRange { requirement } => {
                write!(
                    f,
                    "the price or the target of requirement {requirement} is out of range"
                )
            }
            Fault::AboveDemandCurve { requirement } => {
                write!(
                    f,
                    "the price of requirement {requirement} is above its demand curve"
                )
            }
            Fault::IntervalLength { seconds_left } => {
                write!(
                    f,
                    "the interval must last at least 1 second and at most the {seconds_left} left of the hour"
                )
            }
            Fault::HourIncomplete { seconds_missing } => {
                write!(
                    f,
                    "the hour cannot close, {seconds_missing} seconds are missing"
                )
            }
            Fault::NegativeNet { row } => write!(
                f,
                "row {row} deducts more than its gross withdrawal"
            ),
            Fault::WithdrawalTotal { total } => write!(
                f,
                "the net withdrawals together, {total}, are 0 or too large"
            ),
            Fault::AccountRange { row } => write!(
                f,
                "the account in row {row} is past its ranges, or would be"
            ),
            Fault::CurveSteps { curve, step } => {
                write!(
                    f,
                    "step {step} of curve {curve} is not as a demand curve has it"
                )
            }
            Fault::MapArrays { location } => write!(
                f,
                "the map's arrays are wrong at location {location}"
            ),
        }
    }
}
