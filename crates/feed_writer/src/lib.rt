//! Writing what a feed and a curve book file hold as bytes.
#![tactic(auto)]

ghost use Rattle.feed_writer.specs.Laws.{RecordBackLaw, FeedBackLaw};

mod curve_file;
mod put;
mod records;

pub use crate::curve_file::write_curve_book;
pub use crate::records::{
    write_clear, write_close, write_customer, write_interval, write_open, write_supplier,
    write_void,
};

/// What is written reads back as the record that it was written from, whatever follows it.
pub fn records_read_back() -> u8
    ensures { RecordBackLaw }
{
    0
}

/// Records written one after another, however many, read back one by one.
pub fn feeds_read_back() -> u8
    ensures { FeedBackLaw }
{
    0
}
