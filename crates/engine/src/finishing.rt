//! The end of a feed.
ghost use Rattle.std.specs.Prelude.{◌≡◌, ℕ, List, ◌∷◌, drop};
ghost use Rattle.accounts.specs.declared.customer.Customer.{Customer as Custom};
ghost use Rattle.books.specs.Books.{suppliers as enlisted, room};
ghost use Rattle.feed.specs.Front.{front};
ghost use Rattle.maps.specs.Market.{Market, MapLaw};
ghost use Rattle.sharing.specs.Rule.{Rule, Fair};
ghost use Rattle.law.specs.Ledger.{void as voiding};
ghost use Rattle.law.specs.Run.{Fed, Run, Step};
ghost use Rattle.law.specs.Verdicts.{verdict};
ghost use Rattle.ledger.specs.Stages.{rest_state};
ghost use Rattle.lines.specs.Texts.{texts};
ghost use Rattle.settlement.specs.Course.{state, fed};
ghost use Rattle.engine.specs.Advancing.{LawfulRun, end_lines};

use crate::settling::refuse;
use accounts::Supplier;
use books::Book;
use feed::Reader;
use ledger::Rest;
use lines::LINES_ROOM;
use settlement::Ledger;

/// The line of bytes at the end of a feed that are no whole record, at the end of the buffer. Answers where it
/// begins.
fn tell_end(reader: &Reader<'_>, out: &mut [u8; LINES_ROOM]) -> usize
    ensures { drop result out.new ≡ texts (end_lines reader.now.offset (front reader.now.rest.now)) }
{
    let mut last = *reader;
    let offset = last.offset();
    match last.next() {
        Ok(_found) => LINES_ROOM,
        Err(fault) => refuse(fault, offset, out).lines,
    }
}

/// Ends a feed after the reader's bytes: those that are no whole record are refused by a line at the end of
/// the buffer, and an hour in hand is voided. Answers the ledger at rest, and where the line begins.
pub fn finish(
    ledger: Ledger,
    suppliers: &mut Book<'_, Supplier>,
    reader: &Reader<'_>,
    out: &mut [u8; LINES_ROOM],
) -> (Rest, usize)
    ensures step { (m : Market) (rule : Rule) (ys : List Custom) (q : ℕ) → Step m rule
        (state ledger (enlisted suppliers.old) ys (room suppliers.old) q)
        voiding
        (verdict m rule (state ledger (enlisted suppliers.old) ys (room suppliers.old) q) voiding)
        (rest_state result.0 (enlisted suppliers.new) ys (room suppliers.new) q) }
    ensures lines { drop result.1 out.new ≡ texts (end_lines reader.now.offset (front reader.now.rest.now)) }
    ensures law { (m : Market) → MapLaw m → (rule : Rule) → Fair rule → (ys : List Custom) (q : ℕ) (log : List Fed)
        → Run m rule log (state ledger (enlisted suppliers.old) ys (room suppliers.old) q)
        → LawfulRun m rule
        (fed voiding (verdict m rule (state ledger (enlisted suppliers.old) ys (room suppliers.old) q) voiding) ∷ log)
        (rest_state result.0 (enlisted suppliers.new) ys (room suppliers.new) q) }
{
    let lines = tell_end(reader, out);
    (ledger.into_rest(suppliers), lines)
}
