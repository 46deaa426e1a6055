//! Records written into a buffer.
ghost use Rattle.std.specs.Prelude.{◌≡◌, ◌+◌, ◌*◌, ◌≤◌, ◌==◌, ◌&&◌, ◌++◌, length, IfOk, OnOk};
ghost use Rattle.feed.specs.Kinds.{code_of, allowed, body_length_lem};
ghost use Rattle.feed.specs.Entries.{supplier, customer, opening, clearing, interval, closing, voiding};
ghost use Rattle.feed_writer.specs.Bytes.{bytes32, header, sheet_bytes, written};
ghost use Rattle.feed_writer.specs.Writing.{write_answer, after, sheet_values, Started, Wrote};
ghost use Rattle.feed_writer.specs.Fitting.{SheetFits};

use crate::put::{AccountNumber, Number, Part, Whole, put_each};
use accounts::{ScheduleRow, ScheduleSheet, WithdrawalRow};
use faults::Fault;
use feed::{Kind, NewSupplier};

/// Writes the header of a record whose sizes are allowed and that fits, and answers its length.
// Kind and sizes as a struct would be taken apart at once: `allowed` and `header` take them so.
fn start(kind: Kind, n: usize, m: usize, buffer: &mut [u8]) -> Result<usize, Fault>
    ensures reply { result ≡ write_answer (allowed kind n m) (5 + body_length_lem kind n m) (length buffer.old) }
    ensures holds { buffer.new ≡ after result (header (code_of kind) n m) buffer.old }
    ensures fits { IfOk result (λ k. Started kind n m k (length buffer.old)) }
{
    let Some(length) = kind.body_length(n, m) else {
        return Err(Fault::SizeNotAllowed { offset: 0 });
    };
    let needed = 5 + length;
    if buffer.len() < needed {
        return Err(Fault::BufferTooShort { needed });
    }
    let [n0, n1] = (n as u16).to_le_bytes();
    let [m0, m1] = (m as u16).to_le_bytes();
    buffer[0..5].copy_from_slice(&[kind.code(), n0, n1, m0, m1]);
    Ok(needed)
}

/// Writes a record of which the body is one number.
fn write_number(kind: Kind, number: u32, buffer: &mut [u8]) -> Result<usize, Fault>
    requires { body_length_lem kind 0 0 ≡ 4 }
    ensures reply { result ≡ write_answer (allowed kind 0 0) (5 + body_length_lem kind 0 0) (length buffer.old) }
    ensures holds { buffer.new ≡ after result (header (code_of kind) 0 0 ++ bytes32 number) buffer.old }
    ensures fits { IfOk result (λ k. Started kind 0 0 k (length buffer.old)) }
{
    let length = start(kind, 0, 0, buffer)?;
    number.put(buffer, 5);
    Ok(length)
}

/// Writes the header of a record that has a sheet. As many targets as prices are wanted.
fn start_sheet(kind: Kind, sheet: ScheduleSheet<'_>, buffer: &mut [u8]) -> Result<usize, Fault>
    ensures reply { result
        ≡ write_answer (length sheet.entry.shadow_prices.now == length sheet.entry.targets.now
        && allowed kind (length sheet.entry.shadow_prices.now) (length sheet.entry.rows.now))
        (5 + body_length_lem kind (length sheet.entry.shadow_prices.now) (length sheet.entry.rows.now)) (length buffer.old) }
    ensures holds { buffer.new
        ≡ after result (header (code_of kind) (length sheet.entry.shadow_prices.now) (length sheet.entry.rows.now)) buffer.old }
    ensures fits { IfOk result (λ k. Started kind (length sheet.entry.shadow_prices.now) (length sheet.entry.rows.now) k (length buffer.old)) }
    ensures paired { OnOk result (length sheet.entry.shadow_prices.now ≡ length sheet.entry.targets.now) }
{
    if sheet.shadow_prices.len() != sheet.targets.len() {
        return Err(Fault::SizeNotAllowed { offset: 0 });
    }
    start(kind, sheet.shadow_prices.len(), sheet.rows.len(), buffer)
}

/// Writes prices, targets and rows from `at` on.
fn put_sheet(buffer: &mut [u8], at: usize, sheet: ScheduleSheet<'_>)
    requires { (length sheet.shadow_prices.now ≡ length sheet.targets.now)
        × (at + 8 * length sheet.shadow_prices.now + 24 * length sheet.rows.now ≤ length buffer.old) }
    ensures holds { buffer.new
        ≡ written at (sheet_bytes (sheet_values sheet.entry.shadow_prices.now sheet.entry.targets.now sheet.entry.rows.now)) buffer.old }
    ensures fits { SheetFits (sheet_values sheet.entry.shadow_prices.now sheet.entry.targets.now sheet.entry.rows.now) }
{
    let at = put_each::<Whole, u32>(buffer, at, sheet.shadow_prices);
    let at = put_each::<Whole, u32>(buffer, at, sheet.targets);
    let at = put_each::<AccountNumber, ScheduleRow>(buffer, at, sheet.rows);
    put_each::<Whole, ScheduleRow>(buffer, at, sheet.rows);
}

/// Writes the record that enrols a supplier.
pub fn write_supplier(new: &NewSupplier, buffer: &mut [u8]) -> Result<usize, Fault>
    ensures { Wrote (supplier new.now) result buffer.old buffer.new }
{
    let length = start(Kind::Supplier, 0, 0, buffer)?;
    new.number.put(buffer, 5);
    new.location.put(buffer, 9);
    new.kind.put(buffer, 11);
    new.upper.put(buffer, 13);
    new.response.put(buffer, 17);
    Ok(length)
}

/// Writes the record that enrols a customer.
pub fn write_customer(number: u32, buffer: &mut [u8]) -> Result<usize, Fault>
    ensures { Wrote (customer number) result buffer.old buffer.new }
{
    write_number(Kind::Customer, number, buffer)
}

/// Writes the record that opens an hour.
pub fn write_open(hour: u32, buffer: &mut [u8]) -> Result<usize, Fault>
    ensures { Wrote (opening hour) result buffer.old buffer.new }
{
    write_number(Kind::Open, hour, buffer)
}

/// Writes the record that clears the hour day-ahead.
pub fn write_clear(sheet: ScheduleSheet<'_>, buffer: &mut [u8]) -> Result<usize, Fault>
    ensures { Wrote (clearing (sheet_values sheet.entry.shadow_prices.now sheet.entry.targets.now sheet.entry.rows.now)) result buffer.old buffer.new }
{
    let length = start_sheet(Kind::Clear, sheet, buffer)?;
    put_sheet(buffer, 5, sheet);
    Ok(length)
}

/// Writes the record that settles an interval of real time.
pub fn write_interval(
    seconds: u32,
    sheet: ScheduleSheet<'_>,
    buffer: &mut [u8],
) -> Result<usize, Fault>
    ensures { Wrote (interval seconds (sheet_values sheet.entry.shadow_prices.now sheet.entry.targets.now sheet.entry.rows.now)) result buffer.old buffer.new }
{
    let length = start_sheet(Kind::Interval, sheet, buffer)?;
    seconds.put(buffer, 5);
    put_sheet(buffer, 9, sheet);
    Ok(length)
}

/// Writes the record that closes the hour.
pub fn write_close(rows: &[WithdrawalRow], buffer: &mut [u8]) -> Result<usize, Fault>
    ensures { Wrote (closing rows.now) result buffer.old buffer.new }
{
    let length = start(Kind::Close, 0, rows.len(), buffer)?;
    let at = put_each::<AccountNumber, WithdrawalRow>(buffer, 5, rows);
    put_each::<Whole, WithdrawalRow>(buffer, at, rows);
    Ok(length)
}

/// Writes the record that voids the hour.
pub fn write_void(buffer: &mut [u8]) -> Result<usize, Fault>
    ensures { Wrote (voiding) result buffer.old buffer.new }
{
    start(Kind::Void, 0, 0, buffer)
}
