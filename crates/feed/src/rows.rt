//! Rows of the lists of a feed, in bytes.
ghost use Rattle.std.specs.Prelude.{◌≡◌, ℕ, List};
ghost use Rattle.feed.specs.Numbers.{number_in};
ghost use Rattle.feed.specs.Entries.{row_count, row_in, schedule_row, withdrawal_row};

use crate::numbers::read_u32;
use accounts::{ScheduleRow, WithdrawalRow};
use market::Reserves;

/// A row of a list. Its number, of four bytes, stands among the numbers of all rows, and the rest
/// of it behind them, among what the other rows have besides a number.
pub trait Row: Copy {
    ghost WIDTH: { ℕ };

    /// Row `i`, of the bytes of all numbers and the bytes that follow them.
    ghost row_at: { List ℕ → List ℕ → ℕ → Self };

    /// How many bytes a row has besides its number.
    const WIDTH: usize;

    /// Row `i`, of the bytes of all numbers and the bytes that follow them, if its bytes are all there.
    fn read(numbers: &[u8], rest: &[u8], i: usize) -> Option<Self>
        ensures { result ≡ row_in WIDTH row_at numbers.now rest.now i };
}

/// How many rows have all their bytes, those of their number and `width` besides.
// This and what reads a row are made in place, so that a loop over rows need not count them anew for each.
#[inline(always)]
pub(crate) fn count_rows(width: usize, numbers: &[u8], rest: &[u8]) -> usize
    ensures { result ≡ row_count width numbers.now rest.now }
{
    let count = numbers.len() / 4;
    if width == 0 {
        return count;
    }
    count.min(rest.len() / width)
}

/// The number of row `i`, if the row has all its bytes, those of its number and `width` besides.
#[inline(always)]
fn number_of_row(width: usize, numbers: &[u8], rest: &[u8], i: usize) -> Option<u32>
    ensures { result ≡ row_in width (λ ns rs i. number_in ns i) numbers.now rest.now i }
{
    if i < count_rows(width, numbers, rest) {
        Some(read_u32(numbers, 4 * i))
    } else {
        None
    }
}

/// A number is a row that has nothing besides it.
impl Row for u32 {
    ghost WIDTH = { 0 };

    ghost row_at = { λ ns rs i. number_in ns i };

    const WIDTH: usize = 0;

    #[inline(always)]
    fn read(numbers: &[u8], rest: &[u8], i: usize) -> Option<u32> {
        number_of_row(0, numbers, rest, i)
    }
}

/// The number is the supplier's, and twenty bytes follow.
impl Row for ScheduleRow {
    ghost WIDTH = { 20 };

    ghost row_at = { schedule_row };

    const WIDTH: usize = 20;

    #[inline(always)]
    fn read(numbers: &[u8], rest: &[u8], i: usize) -> Option<ScheduleRow> {
        let number = number_of_row(20, numbers, rest, i)?;
        let at = 20 * i;
        Some(ScheduleRow {
            number,
            energy: read_u32(rest, at).cast_signed(),
            regulation: read_u32(rest, at + 4),
            reserves: Reserves {
                thirty: read_u32(rest, at + 16),
                ten: read_u32(rest, at + 12),
                spinning: read_u32(rest, at + 8),
            },
        })
    }
}

/// The number is the customer's, and twelve bytes follow.
impl Row for WithdrawalRow {
    ghost WIDTH = { 12 };

    ghost row_at = { withdrawal_row };

    const WIDTH: usize = 12;

    #[inline(always)]
    fn read(numbers: &[u8], rest: &[u8], i: usize) -> Option<WithdrawalRow> {
        let number = number_of_row(12, numbers, rest, i)?;
        let at = 12 * i;
        Some(WithdrawalRow {
            number,
            gross: read_u32(rest, at),
            station: read_u32(rest, at + 4),
            exports: read_u32(rest, at + 8),
        })
    }
}
