//! A record as a step of the ledger.
ghost use Rattle.std.specs.Prelude.{◌≡◌, ◌≤◌, length, replicate};
ghost use Rattle.curves.specs.Book.{curves_of};
ghost use Rattle.feed.specs.Entries.{Sized, SheetSized, closing};
ghost use Rattle.feed.specs.Reading.{says, rows_of, sheet_of, withdrawals_of};
ghost use Rattle.law.specs.Run.{Step};
ghost use Rattle.settlement.specs.Course.{state_of, SameRules};
ghost use Rattle.engine.specs.Asking.{asks};

use accounts::{ScheduleRow, ScheduleSheet, WithdrawalRow};
use faults::Fault;
use feed::{Record, Row, Rows, Sheet, WithdrawalRows};
use maps::LocationMap;
use settlement::{Call, House, Ledger, step};
use sharing::SharingRule;

/// The rows of a list of the feed, decoded to the front of the room.
fn decode<'b, R: Row>(rows: &Rows<'_, R>, room: &'b mut [R]) -> &'b [R]
    requires { length (rows_of R.WIDTH R.row_at rows.now) ≤ length room.old }
    ensures { result.now ≡ rows_of R.WIDTH R.row_at rows.now }
{
    let count = rows.fill(room);
    &room[..count]
}

/// Room for the lists of a sheet, as long as a record may have them. Nothing is allocated; what is decoded is a slice of it.
#[derive(Drop)]
struct SheetRoom {
    prices: [u32; 32],
    targets: [u32; 32],
    rows: [ScheduleRow; 128],
}

impl SheetRoom {
    /// Room that holds zeros.
    fn new() -> SheetRoom
        ensures { (result.prices ≡ replicate 32 0) × (result.targets ≡ replicate 32 0) }
    {
        SheetRoom {
            prices: [0; 32],
            targets: [0; 32],
            rows: [ScheduleRow::default(); 128],
        }
    }

    /// The lists of a sheet of the feed, decoded into this room.
    fn decode(&mut self, sheet: &Sheet<'_>) -> ScheduleSheet<'_>
        requires { SheetSized (sheet_of sheet.now) }
        ensures prices { result.shadow_prices.now ≡ (sheet_of sheet.now).prices }
        ensures targets { result.targets.now ≡ (sheet_of sheet.now).targets }
        ensures rows { result.rows.now ≡ (sheet_of sheet.now).rows }
    {
        let SheetRoom {
            prices,
            targets,
            rows,
        } = self;
        ScheduleSheet {
            shadow_prices: decode(&sheet.prices, prices),
            targets: decode(&sheet.targets, targets),
            rows: decode(&sheet.rows, rows),
        }
    }
}

/// Closes the hour by rows of the feed.
// A function of its own: in an arm of `apply` its room would be blanked for every record.
fn close<M: LocationMap, S: SharingRule>(
    ledger: Ledger,
    house: &mut House<'_, '_, '_, M>,
    rows: &WithdrawalRows<'_>,
) -> (Ledger, Result<(), Fault>)
    requires { Sized (closing (withdrawals_of rows.now)) }
    ensures step { Step (M.LocationMap.market house.old.map.now) S.SharingRule.share
        (state_of ledger house.old)
        (asks (curves_of house.old.curves.now) (closing (withdrawals_of rows.now)))
        result.1
        (state_of result.0 house.new) }
    ensures rules { SameRules house.old house.new }
{
    let mut room = [WithdrawalRow::default(); 256];
    step::<M, S>(ledger, house, Call::Close(decode(rows, &mut room)))
}

/// Does what the record asks for, or refuses and alters nothing.
pub(crate) fn apply<M: LocationMap, S: SharingRule>(
    ledger: Ledger,
    house: &mut House<'_, '_, '_, M>,
    request: Record<'_>,
) -> (Ledger, Result<(), Fault>)
    requires { Sized (says request) }
    ensures step { Step (M.LocationMap.market house.old.map.now) S.SharingRule.share
        (state_of ledger house.old)
        (asks (curves_of house.old.curves.now) (says request.entry))
        result.1
        (state_of result.0 house.new) }
    ensures rules { SameRules house.old house.new }
{
    match request {
        Record::Supplier(new) => step::<M, S>(ledger, house, Call::EnrolSupplier(new)),
        Record::Customer { number } => step::<M, S>(ledger, house, Call::EnrolCustomer(number)),
        Record::Open { hour } => step::<M, S>(ledger, house, Call::Open(hour)),
        Record::Clear(sheet) => {
            let mut room = SheetRoom::new();
            step::<M, S>(ledger, house, Call::Clear(room.decode(&sheet)))
        }
        Record::Interval { seconds, sheet } => {
            let mut room = SheetRoom::new();
            step::<M, S>(ledger, house, Call::Interval(seconds, room.decode(&sheet)))
        }
        Record::Close(rows) => close::<M, S>(ledger, house, &rows),
        Record::Void => step::<M, S>(ledger, house, Call::Void),
    }
}
