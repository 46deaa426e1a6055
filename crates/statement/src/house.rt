//! The house: its ledger and books, and the feed that it settles.
ghost use Rattle.std.specs.Prelude.{◌≡◌, ◌-◌, ◌^◌, ◌≤◌, min, [], length, drop, IfOk, IfSome};
ghost use Rattle.books.specs.Books.{suppliers as enlisted, customers as customed};
ghost use Rattle.engine.specs.Advancing.{end_lines};
ghost use Rattle.feed.specs.Front.{front};
ghost use Rattle.lines.specs.Texts.{texts};
ghost use Rattle.statement.specs.Windows.{at_hand_lem};

use crate::problem::Problem;
use crate::window::Window;
use accounts::{Customer, Supplier};
use books::Book;
use curves::CurveBook;
use engine::{Progress, advance, finish, lines_from};
use feed::Reader;
use ledger::Rest;
use lines::LINES_ROOM;
use maps::FixedMap;
use settlement::{House, Ledger};
use sharing::RunningRule;
use std::io;
use std::io::{Read, Write};

/// The rows of the books' tables.
const MOST_SUPPLIERS: usize = 128;

const MOST_CUSTOMERS: usize = 256;

/// How the bytes at hand were left: so many were settled, and the next stands at this offset of the feed.
#[derive(Clone, Copy, PartialEq, Eq, Debug)]
struct Passed {
    bytes: usize,
    offset: u64,
}

/// How a feed ended.
#[derive(Clone, Copy, PartialEq, Eq, Debug)]
enum Ending {
    /// With its last byte.
    Whole,
    /// With a refusal after which nothing is read, and whose line is written.
    Stopped,
}

/// Where a feed is settled: the house, and where the lines of its records go.
#[derive(Drop)]
struct Desk<'a, W> {
    house: House<'a, 'a, 'a, FixedMap>,
    lines: [u8; LINES_ROOM],
    output: &'a mut W,
}

impl<'a, W: Write> Desk<'a, W> {
    /// The desk of a new house, whose books are over these tables.
    fn new(
        curves: &'a CurveBook,
        suppliers: &'a mut [Supplier],
        customers: &'a mut [Customer],
        output: &'a mut W,
    ) -> Desk<'a, W>
        ensures suppliers { enlisted result.house.suppliers ≡ [] }
        ensures customers { customed result.house.customers ≡ [] }
        ensures curves { result.house.curves.now ≡ curves.now }
    {
        let suppliers = Book::new(suppliers);
        let customers = Book::new(customers);
        let house = House {
            map: &FixedMap,
            curves,
            suppliers,
            customers,
        };
        Desk {
            house,
            lines: [0; LINES_ROOM],
            output,
        }
    }

    /// Writes the lines that begin at this place of their room; none begin at its end.
    fn write_lines(&mut self, start: usize) -> io::Result<()>
        ensures { self.new.house ≡ self.old.house }
    {
        self.output.write_all(lines_from(&self.lines, start))
    }

    /// Settles every whole record of the bytes, which stand at the offset of the feed, and writes the lines
    /// that follow. Answers none where the feed has stopped.
    fn settle_bytes(
        &mut self,
        ledger: Ledger,
        bytes: &[u8],
        offset: u64,
    ) -> (Ledger, io::Result<Option<Passed>>)
        ensures { IfOk result.1 (λ passed. IfSome passed (λ p. p.bytes ≤ length bytes.now)) }
    {
        let mut reader = Reader::new(bytes, offset);
        let mut ledger = ledger;
        // A record has a byte at least.
        for _ in 0..bytes.len() {
            let (next, progress) = advance::<FixedMap, RunningRule>(
                ledger,
                &mut self.house,
                &mut reader,
                &mut self.lines,
            );
            ledger = next;
            match progress {
                Progress::Waiting => break,
                Progress::Settled(outcome) => {
                    if let Err(e) = self.write_lines(outcome.lines) {
                        return (ledger, Err(e));
                    }
                }
                Progress::Stopped(outcome) => {
                    return (ledger, self.write_lines(outcome.lines).map(|()| None));
                }
            }
        }
        let passed = Passed {
            bytes: bytes.len().saturating_sub(reader.rest().len()),
            offset: reader.offset(),
        };
        (ledger, Ok(Some(passed)))
    }

    /// Settles the feed as it comes in, until it ends or stops; the window then has what is left of it.
    fn settle_stream<R: Read>(
        &mut self,
        ledger: Ledger,
        window: &mut Window<'_>,
        input: &mut R,
    ) -> (Ledger, Result<Ending, Problem>) {
        let mut ledger = ledger;
        // A count that is never reached stands for a loop that waits on input.
        for _ in 0..u64::MAX {
            match window.refill(input) {
                Ok(0) => break,
                Ok(_) => {}
                Err(e) => return (ledger, Err(Problem::Input(e))),
            }
            let (next, passed) = self.settle_bytes(ledger, window.at_hand(), window.offset());
            ledger = next;
            match passed {
                Ok(Some(passed)) => window.pass(passed.bytes, passed.offset),
                Ok(None) => return (ledger, Ok(Ending::Stopped)),
                Err(e) => return (ledger, Err(Problem::Output(e))),
            }
        }
        (ledger, Ok(Ending::Whole))
    }

    /// Ends the feed after the bytes of the window, and answers where its last line begins. An hour that is open
    /// is voided.
    fn finish(&mut self, ledger: Ledger, window: &Window<'_>) -> usize
        ensures { let bytes = at_hand_lem window.now in
            drop result self.new.lines ≡ texts (end_lines (min window.now.offset (2 ^ 64 - 1 - length bytes)) (front bytes)) }
    {
        let reader = Reader::new(window.at_hand(), window.offset());
        let (rest, lines) = finish(ledger, &mut self.house.suppliers, &reader, &mut self.lines);
        // A statement ends without a line of what is still carried.
        let _carry = rest.into_carry();
        lines
    }
}

/// Settles the feed of a new house from its first byte to its last. An hour that is open at the end is voided.
pub(crate) fn settle_feed<R: Read, W: Write>(
    input: &mut R,
    output: &mut W,
    curves: &CurveBook,
    buffer: &mut [u8],
) -> Result<(), Problem> {
    let mut supplier_table = [Supplier::default(); MOST_SUPPLIERS];
    let mut customer_table = [Customer::default(); MOST_CUSTOMERS];
    let mut desk = Desk::new(curves, &mut supplier_table, &mut customer_table, output);
    let mut window = Window::new(buffer);
    let (ledger, ending) = desk.settle_stream(Ledger::Rest(Rest::new()), &mut window, input);
    let lines = desk.finish(ledger, &window);
    match ending? {
        Ending::Stopped => Ok(()),
        Ending::Whole => desk.write_lines(lines).map_err(Problem::Output),
    }
}
