//! Numbers and rows written into a buffer, lowest byte first.
ghost use Rattle.std.specs.Prelude.{◌≡◌, ℕ, ◌+◌, ◌*◌, ◌≤◌, List, length};
ghost use Rattle.std.specs.List.{flat_map, AllByRecursion};
ghost use Rattle.feed_writer.specs.Bytes.{bytes16, bytes32, schedule_bytes, withdrawal_bytes, written};
ghost use Rattle.feed_writer.specs.Fitting.{Word, ScheduleFits, WithdrawalFits};
ghost use Rattle.feed_writer.specs.Lengths.{length_bytes32, length_schedule_bytes, length_withdrawal_bytes};

use accounts::{Numbered, ScheduleRow, WithdrawalRow};

/// A number, and its bytes.
pub(crate) trait Number: Copy {
    ghost SIZE: { ℕ };

    ghost bytes: { Self → List ℕ };

    /// Writes the number from `at` on.
    fn put(self, out: &mut [u8], at: usize)
        requires { at + SIZE ≤ length out.old }
        ensures { out.new ≡ written at (bytes self) out.old };
}

impl Number for u16 {
    ghost SIZE = { 2 };

    ghost bytes = { bytes16 };

    fn put(self, out: &mut [u8], at: usize) {
        out[at..at + 2].copy_from_slice(&self.to_le_bytes());
    }
}

impl Number for u32 {
    ghost SIZE = { 4 };

    ghost bytes = { bytes32 };

    fn put(self, out: &mut [u8], at: usize) {
        out[at..at + 4].copy_from_slice(&self.to_le_bytes());
    }
}

/// What is written of an item of a list, in as many bytes as of any other item.
pub(crate) trait Part<T> {
    ghost SIZE: { ℕ };

    ghost bytes: { T → List ℕ };

    /// That the numbers which are written fit their bytes.
    ghost fitting: { T → Type 0 };

    const SIZE: usize;

    /// Writes this part of the item from `at` on.
    fn put(out: &mut [u8], at: usize, item: &T)
        requires { at + SIZE ≤ length out.old }
        ensures holds { out.new ≡ written at (bytes item.now) out.old }
        ensures fits { fitting item.now };

    ghost sized: { (item : T) → length (bytes item) ≡ SIZE };
}

/// The item, or a row but for its account number.
pub(crate) struct Whole;

/// The account number of a row.
pub(crate) struct AccountNumber;

impl Part<u32> for Whole {
    ghost SIZE = { 4 };

    ghost bytes = { bytes32 };

    ghost fitting = { Word };

    const SIZE: usize = 4;

    fn put(out: &mut [u8], at: usize, number: &u32) {
        number.put(out, at);
    }

    ghost sized = { length_bytes32 };
}

impl<R: Numbered> Part<R> for AccountNumber {
    ghost SIZE = { 4 };

    ghost bytes = { λ row. bytes32 (R.numbered row) };

    ghost fitting = { λ row. Word (R.numbered row) };

    const SIZE: usize = 4;

    fn put(out: &mut [u8], at: usize, row: &R) {
        row.number().put(out, at);
    }

    ghost sized = { λ row. length_bytes32 (R.numbered row) };
}

impl Part<ScheduleRow> for Whole {
    ghost SIZE = { 20 };

    ghost bytes = { schedule_bytes };

    ghost fitting = { ScheduleFits };

    const SIZE: usize = 20;

    fn put(out: &mut [u8], at: usize, row: &ScheduleRow) {
        row.energy.cast_unsigned().put(out, at);
        row.regulation.put(out, at + 4);
        row.reserves.spinning.put(out, at + 8);
        row.reserves.ten.put(out, at + 12);
        row.reserves.thirty.put(out, at + 16);
    }

    ghost sized = { length_schedule_bytes };
}

impl Part<WithdrawalRow> for Whole {
    ghost SIZE = { 12 };

    ghost bytes = { withdrawal_bytes };

    ghost fitting = { WithdrawalFits };

    const SIZE: usize = 12;

    fn put(out: &mut [u8], at: usize, row: &WithdrawalRow) {
        row.gross.put(out, at);
        row.station.put(out, at + 4);
        row.exports.put(out, at + 8);
    }

    ghost sized = { length_withdrawal_bytes };
}

/// A part of each item, one after another from `at` on. Answers where they end.
pub(crate) fn put_each<P: Part<T>, T>(out: &mut [u8], at: usize, items: &[T]) -> usize
    requires { at + P.SIZE * length items.now ≤ length out.old }
    ensures holds { out.new ≡ written at (flat_map P.bytes items.now) out.old }
    ensures fits { AllByRecursion P.fitting items.now }
    ensures end { result ≡ at + P.SIZE * length items.now }
{
    let mut next = at;
    for item in items {
        P::put(out, next, item);
        next += P::SIZE;
    }
    next
}
