//! Lines, each written right before the text so far.
ghost use Rattle.std.specs.Prelude.{◌≡◌, ◌+◌, ◌≤◌, ◌-ℤ◌};

use crate::line::{Line, Side};
use crate::tail::Tail;

/// The most suppliers and customers that a closing tells of.
const MOST_SUPPLIERS: usize = 128;

const MOST_CUSTOMERS: usize = 256;

/// Room for the lines of a closing: one for each account, and one for the carry.
pub const LINES_ROOM: usize = MOST_LINE * (MOST_SUPPLIERS + MOST_CUSTOMERS + 1);

/// The most bytes that a line has.
pub(crate) const MOST_LINE: usize = 46;

/// The byte that ends a line.
const NEWLINE: u8 = b'\n';

// Each line asks for the room that it takes: as the room is used up, no fact of the tail can promise it.
impl Tail<'_> {
    ghost use Rattle.lines.specs.Sides.{side_letter};
    ghost use Rattle.lines.specs.Tails.{Grown};
    ghost use Rattle.lines.specs.Texts.{amount_text, most_line, text};
    ghost use Rattle.lines.specs.declared.line.Line.TheVariants.{Carried as carried, Refused as refused};

    /// The line of an account whose cents were `before` and are `after`.
    // This and `line` are made in place, so that where the text begins need not be kept in memory for each byte.
    #[inline(always)]
    pub(crate) fn amount(&mut self, side: Side, hour: u32, number: u32, before: i64, after: i64)
        requires { most_line ≤ self.old.start }
        ensures grown { Grown (amount_text (side_letter side) hour number (after -ℤ before)) self.old self.new }
        ensures short { self.old.start ≤ self.new.start + most_line }
    {
        self.byte(NEWLINE);
        self.difference(before, after);
        self.field(number as u64);
        self.field(hour as u64);
        self.byte(side.letter());
    }

    /// The line of a carry.
    fn carry(&mut self, hour: u32, carry: i64)
        requires { most_line ≤ self.old.start }
        ensures grown { Grown (text (carried hour carry)) self.old self.new }
        ensures short { self.old.start ≤ self.new.start + most_line }
    {
        self.byte(NEWLINE);
        self.difference(0, carry);
        self.field(hour as u64);
        self.byte(b'K');
    }

    /// The line of a refusal.
    fn refusal(&mut self, number: u16, offset: u64)
        requires { most_line ≤ self.old.start }
        ensures grown { Grown (text (refused number offset)) self.old self.new }
        ensures short { self.old.start ≤ self.new.start + most_line }
    {
        self.byte(NEWLINE);
        self.field(offset);
        self.field(number as u64);
        self.byte(b'R');
    }

    /// A line of any kind.
    #[inline(always)]
    pub(crate) fn line(&mut self, line: Line)
        requires { most_line ≤ self.old.start }
        ensures grown { Grown (text line) self.old self.new }
        ensures short { self.old.start ≤ self.new.start + most_line }
    {
        match line {
            Line::Paid {
                hour,
                supplier,
                cents,
            } => self.amount(Side::Paid, hour, supplier, 0, cents),
            Line::Charged {
                hour,
                customer,
                cents,
            } => self.amount(Side::Charged, hour, customer, 0, cents),
            Line::Carried { hour, carry } => self.carry(hour, carry),
            Line::Refused { number, offset } => self.refusal(number, offset),
        }
    }
}
