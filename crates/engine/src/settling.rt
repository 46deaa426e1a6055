//! A record settled, and its lines.
// Each function asks that the record's sizes are allowed, as the reader says of what it hands out: an enum has no
// place for a fact. That map and curves stay is between before and after, which no fact of the house can say.
ghost use Rattle.std.specs.Prelude.{◌≡◌, option_map, drop, Some, Err};
ghost use Rattle.curves.specs.Book.{curves_of};
ghost use Rattle.faults.specs.Told.{told_of};
ghost use Rattle.feed.specs.Entries.{Sized, closing};
ghost use Rattle.feed.specs.Reading.{says, withdrawals_of};
ghost use Rattle.lines.specs.Texts.{text};
ghost use Rattle.lines.specs.declared.line.Line.TheVariants.{Refused as refusal};
ghost use Rattle.settlement.specs.Course.{state_of, hour_of, SameRules};
ghost use Rattle.engine.specs.Asking.{asks};
ghost use Rattle.engine.specs.Telling.{fault_at, Foretold, Settles};

use crate::decoding::apply;
use crate::noting::{Noted, tell_accepted};
use crate::outcome::Outcome;
use faults::Fault;
use feed::{Record, WithdrawalRows};
use lines::{LINES_ROOM, write_refusal};
use maps::LocationMap;
use settlement::{House, Ledger};
use sharing::SharingRule;

/// The fault of a record at the offset: a ledger knows no feed, so it leaves the offset of a record at the
/// wrong stage to be told here.
fn locate(fault: Fault, offset: u64) -> Fault
    ensures { result ≡ fault_at offset fault }
{
    match fault {
        Fault::WrongStage { .. } => Fault::WrongStage { offset },
        other => other,
    }
}

/// The outcome of a refusal, with its line at the end of the buffer.
pub(crate) fn refuse(fault: Fault, offset: u64, out: &mut [u8; LINES_ROOM]) -> Outcome
    ensures answer { result.answer ≡ Err (fault_at offset fault) }
    ensures lines { drop result.lines out.new ≡ text (refusal (told_of (fault_at offset fault)).number offset) }
{
    let fault = locate(fault, offset);
    let lines = write_refusal(out, fault.number(), offset);
    Outcome {
        answer: Err(fault),
        lines,
    }
}

/// Settles a record, of which it is noted before what its lines will tell if it is accepted.
fn settle_noted<M: LocationMap, S: SharingRule>(
    ledger: Ledger,
    house: &mut House<'_, '_, '_, M>,
    request: Record<'_>,
    noted: Option<&Noted<'_>>,
    offset: u64,
    out: &mut [u8; LINES_ROOM],
) -> (Ledger, Outcome)
    requires sized { Sized (says request) }
    requires noted { Foretold (state_of ledger house.old) (asks (curves_of house.old.curves.now) (says request)) (option_map (λ n. n.now) noted) }
    ensures settled { Settles (M.LocationMap.market house.old.map.now) S.SharingRule.share (curves_of house.old.curves.now) offset
        (state_of ledger house.old)
        (says request.entry)
        result.1.answer
        (state_of result.0 house.new)
        (drop result.1.lines out.new) }
    ensures rules { SameRules house.old house.new }
{
    let (next, done) = apply::<M, S>(ledger, house, request);
    let outcome = match done {
        Ok(()) => Outcome {
            answer: Ok(()),
            lines: tell_accepted(noted, &next, house, out),
        },
        Err(fault) => refuse(fault, offset, out),
    };
    (next, outcome)
}

/// Settles a closing, of which hour and cents are noted before.
// A function of its own: its room is not laid out for other records.
fn settle_closing<M: LocationMap, S: SharingRule>(
    ledger: Ledger,
    house: &mut House<'_, '_, '_, M>,
    rows: WithdrawalRows<'_>,
    hour: u32,
    offset: u64,
    out: &mut [u8; LINES_ROOM],
) -> (Ledger, Outcome)
    requires sized { Sized (closing (withdrawals_of rows)) }
    requires hour { hour_of ledger ≡ Some hour }
    ensures settled { Settles (M.LocationMap.market house.old.map.now) S.SharingRule.share (curves_of house.old.curves.now) offset
        (state_of ledger house.old)
        (closing (withdrawals_of rows.entry))
        result.1.answer
        (state_of result.0 house.new)
        (drop result.1.lines out.new) }
    ensures rules { SameRules house.old house.new }
{
    let mut paid = [0; 128];
    let mut charged = [0; 256];
    let noted = Noted::before(hour, house, &mut paid, &mut charged);
    settle_noted::<M, S>(
        ledger,
        house,
        Record::Close(rows),
        Some(&noted),
        offset,
        out,
    )
}

/// Settles a record of the feed that stands at the offset. A closing is told with what it added to each
/// account.
pub(crate) fn settle<M: LocationMap, S: SharingRule>(
    ledger: Ledger,
    house: &mut House<'_, '_, '_, M>,
    request: Record<'_>,
    offset: u64,
    out: &mut [u8; LINES_ROOM],
) -> (Ledger, Outcome)
    requires { Sized (says request) }
    ensures settled { Settles (M.LocationMap.market house.old.map.now) S.SharingRule.share (curves_of house.old.curves.now) offset
        (state_of ledger house.old)
        (says request.entry)
        result.1.answer
        (state_of result.0 house.new)
        (drop result.1.lines out.new) }
    ensures rules { SameRules house.old house.new }
{
    match (request, ledger.hour()) {
        (Record::Close(rows), Some(hour)) => {
            settle_closing::<M, S>(ledger, house, rows, hour, offset, out)
        }
        _ => settle_noted::<M, S>(ledger, house, request, None, offset, out),
    }
}
