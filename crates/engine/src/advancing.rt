//! The next record of a feed.
ghost use Rattle.std.specs.Prelude.{◌≡◌, ◌+◌, List, drop};
ghost use Rattle.curves.specs.Book.{curves_of};
ghost use Rattle.feed.specs.Front.{front, size};
ghost use Rattle.law.specs.Run.{Fed, Run};
ghost use Rattle.settlement.specs.Course.{state_of, SameRules};
ghost use Rattle.engine.specs.Advancing.{Advances, log_with, LawfulRun};

use crate::outcome::Progress;
use crate::settling::{refuse, settle};
use faults::Fault;
use feed::Reader;
use lines::LINES_ROOM;
use maps::LocationMap;
use settlement::{House, Ledger};
use sharing::SharingRule;

/// Settles the record that the reader stands at, if a whole one is there, and moves the reader past it. The
/// lines that follow end the buffer.
///
/// Whatever records led here from a new ledger and new books under this map and this rule, the law of all
/// runs holds after this one.
pub fn advance<M: LocationMap, S: SharingRule>(
    ledger: Ledger,
    house: &mut House<'_, '_, '_, M>,
    reader: &mut Reader<'_>,
    out: &mut [u8; LINES_ROOM],
) -> (Ledger, Progress)
    ensures step { Advances (M.LocationMap.market house.old.map.now) S.SharingRule.share (curves_of house.old.curves.now)
        reader.old.offset
        (front reader.old.rest.now)
        (state_of ledger house.old)
        result.1
        (state_of result.0 house.new)
        out.new }
    ensures moved { reader.new.offset ≡ reader.old.offset + size (front reader.old.rest.now) }
    ensures left { reader.new.rest.now ≡ drop (size (front reader.old.rest.now)) reader.old.rest.now }
    ensures law { (log : List Fed)
        → Run (M.LocationMap.market house.old.map.now) S.SharingRule.share log (state_of ledger house.old)
        → LawfulRun (M.LocationMap.market house.old.map.now) S.SharingRule.share
        (log_with (M.LocationMap.market house.old.map.now) S.SharingRule.share (curves_of house.old.curves.now) (front reader.old.rest.now)
        (state_of ledger house.old) log)
        (state_of result.0 house.new) }
    ensures rules { SameRules house.old house.new }
{
    let offset = reader.offset();
    match reader.next() {
        Ok(Some(request)) => {
            let (next, outcome) = settle::<M, S>(ledger, house, request, offset, out);
            (next, Progress::Settled(outcome))
        }
        Ok(None) => (ledger, Progress::Waiting),
        Err(Fault::Truncated { .. }) => (ledger, Progress::Waiting),
        Err(fault) => (ledger, Progress::Stopped(refuse(fault, offset, out))),
    }
}
