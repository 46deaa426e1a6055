//! The causes of refusal and the layers that find them.

/// Where a refusal arises.
#[derive(Clone, Copy, PartialEq, Eq, Debug)]
pub enum Layer {
    Feed,
    Book,
    Sheet,
    Hour,
    Table,
}

/// Why a call is refused. Rows, places, requirements, locations, curves and steps are counted from 0.
#[derive(Clone, Copy, PartialEq, Eq, Debug)]
pub enum Fault {
    /// The feed ends inside the record that begins at the offset.
    Truncated { offset: u64 },
    /// The record's kind is not one of the feed's kinds.
    UnknownKind { offset: u64 },
    /// The record's sizes are not allowed for its kind.
    SizeNotAllowed { offset: u64 },
    /// The ledger is at a stage that does not take this record.
    WrongStage { offset: u64 },
    /// A line or a record is longer than the buffer it is to be written to.
    BufferTooShort { needed: usize },
    /// The number is in the book already, at this place.
    NumberTaken { place: usize },
    /// The table is full, or the book has all the accounts it may have.
    BookFull { count: usize },
    /// A supplier's location (1), kind (2), upper limit (3) or response rate (4) is out of range.
    FieldOutOfRange { field: usize },
    /// The hour is over the last that there is, or not above the last that was closed.
    HourOutOfOrder { last_closed: Option<u32> },
    /// Sheet and book differ in length; the book has so many accounts.
    SheetLength { count: usize },
    /// The row's number is not its account's.
    SheetNumber { row: usize },
    /// The schedule row asks for more than its supplier can do.
    BeyondCapability { row: usize },
    /// Prices, targets or curves are not as many as the map's requirements.
    RequirementCount { requirements: usize },
    /// A shadow price or a target is out of range.
    PriceOrTargetOutOfRange { requirement: usize },
    /// A shadow price is above its demand curve.
    AboveDemandCurve { requirement: usize },
    /// The interval has no second, or more than are left of the hour.
    IntervalLength { seconds_left: u32 },
    /// The hour's intervals do not make up the whole hour.
    HourIncomplete { seconds_missing: u32 },
    /// Station power and excluded exports exceed the gross withdrawal.
    NegativeNet { row: usize },
    /// The net withdrawals together are 0 or over the limit.
    WithdrawalTotal { total: u64 },
    /// An account is past its ranges, or the call would take it past them.
    AccountRange { row: usize },
    /// The steps are not as a demand curve has them.
    CurveSteps { curve: usize, step: usize },
    /// The arrays of a location map are not as a map has them.
    MapArrays { location: usize },
}

/// What a refusal tells: its number, its layer, its value if it has one (an hour that was never
/// closed is none), and for the steps of a curve the step as a second value.
#[derive(Clone, Copy, PartialEq, Eq, Debug)]
pub struct Told {
    pub number: u16,
    pub layer: Layer,
    pub value: Option<u64>,
    pub step: Option<u64>,
}
