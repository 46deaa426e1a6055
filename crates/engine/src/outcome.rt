//! What became of a record.
use faults::Fault;

/// The answer to a record, and where its lines begin in the buffer that they end.
#[derive(Clone, Copy, PartialEq, Eq, Debug)]
pub struct Outcome {
    pub answer: Result<(), Fault>,
    // A place and not the bytes: those would lend the buffer for as long as the outcome is kept.
    pub lines: usize,
}

/// What became of the next bytes of a feed.
#[derive(Clone, Copy, PartialEq, Eq, Debug)]
pub enum Progress {
    /// No whole record is there: more bytes have to come, or the feed has ended.
    Waiting,
    /// A record was settled, be it accepted or refused.
    Settled(Outcome),
    /// There is no record, whatever bytes follow.
    Stopped(Outcome),
}
