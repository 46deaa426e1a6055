//! Reading what comes in as bytes.
#![tactic(auto)]

ghost use Rattle.feed.specs.CurveFile.{FileLaw};

mod curve_file;
mod kind;
mod numbers;
mod parts;
mod reader;
mod record;
mod rows;
mod runs;

pub use crate::curve_file::read_curve_book;
pub use crate::kind::Kind;
pub use crate::parts::{Numbers, Rows, ScheduleRows, Sheet, WithdrawalRows};
pub use crate::reader::Reader;
pub use crate::record::Record;
pub use crate::rows::Row;
pub use crate::runs::{
    Survey, count_records, later_bytes_change_nothing, no_feed_is_endless,
    pieces_give_the_same_records, records_read_one_way_only, survey_feed,
    truncated_only_where_bytes_are_missing,
};
pub use accounts::{NewSupplier, UnknownKind};

/// Exactly the curve book files are accepted: of 1 to 32 curves, as long as their counts ask for,
/// and with the steps of a curve for each.
pub fn exactly_curve_files_are_accepted() -> u8
    ensures { FileLaw }
{
    0
}
