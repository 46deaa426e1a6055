//! Whole feeds.
ghost use Rattle.feed.specs.Runs.{Surveyed, Counted, LaterBytesLaw, PiecesLaw, TruncatedLaw, EndingLaw, OneReadingLaw};

use crate::reader::Reader;
use faults::Fault;

/// How far a feed reads: how many of its records are read whole, and the refusal that ends the
/// reading, none at the end of the feed.
#[derive(Clone, Copy, PartialEq, Eq, Debug)]
pub struct Survey {
    pub records: usize,
    pub refusal: Option<Fault>,
}

/// How far a whole feed reads.
pub fn survey_feed(feed: &[u8]) -> Survey
    ensures { Surveyed feed.now result.records result.refusal }
{
    let mut reader = Reader::new(feed, 0);
    let mut records = 0;
    let refusal = loop {
        match reader.next() {
            Ok(Some(_record)) => records += 1,
            Ok(None) => break None,
            Err(fault) => break Some(fault),
        }
    };
    Survey { records, refusal }
}

/// How many records a whole feed has, or the refusal of the first that is none.
pub fn count_records(feed: &[u8]) -> Result<usize, Fault>
    ensures { Counted feed.now result }
{
    let found = survey_feed(feed);
    if let Some(fault) = found.refusal {
        return Err(fault);
    }
    Ok(found.records)
}

/// Bytes that follow a record, or a record of an unknown kind or a size that is not allowed, do
/// not change how it reads.
pub fn later_bytes_change_nothing() -> u8
    ensures { LaterBytesLaw }
{
    0
}

/// A feed that is read in pieces gives the same records.
pub fn pieces_give_the_same_records() -> u8
    ensures { PiecesLaw }
{
    0
}

/// A feed ends inside a record only where bytes are missing.
pub fn truncated_only_where_bytes_are_missing() -> u8
    ensures { TruncatedLaw }
{
    0
}

/// Each record takes at least five bytes, so no feed is endless.
pub fn no_feed_is_endless() -> u8
    ensures { EndingLaw }
{
    0
}

/// There is one way only to read a number of records.
pub fn records_read_one_way_only() -> u8
    ensures { OneReadingLaw }
{
    0
}
