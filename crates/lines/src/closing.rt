//! The lines of a closing.
ghost use Rattle.std.specs.Prelude.{◌+◌, ◌*◌, ◌≤◌, length};
ghost use Rattle.books.specs.Books.{suppliers as enlisted, customers as customed};
ghost use Rattle.lines.specs.Putting.{Closes};
ghost use Rattle.lines.specs.Texts.{texts};
ghost use Rattle.lines.specs.Closings.{closing_lines};

use crate::line::{Line, Side};
use crate::tail::Tail;
use crate::text::LINES_ROOM;
use accounts::{Account, Customer, Supplier};
use books::Book;

impl Tail<'_> {
    ghost use Rattle.lines.specs.Sides.{side_letter};
    ghost use Rattle.lines.specs.Tails.{Grown};
    ghost use Rattle.lines.specs.Texts.{most_line};
    ghost use Rattle.lines.specs.Closings.{account_texts};

    /// The lines of accounts: what the cents of each have grown by.
    fn accounts<A: Account>(&mut self, side: Side, hour: u32, before: &[i64], accounts: &[A])
        requires { most_line * length accounts.now ≤ self.old.start }
        ensures grown { Grown (account_texts A.Numbered.numbered A.Account.money (side_letter side) hour before.now accounts.now) self.old self.new }
        ensures short { self.old.start ≤ self.new.start + most_line * length accounts.now }
    {
        // Both from the back, so the longer is cut to the other's length first.
        let count = accounts.len().min(before.len());
        let pairs = accounts[..count]
            .iter()
            .rev()
            .zip(before[..count].iter().rev());
        for (account, cents) in pairs {
            self.amount(side, hour, account.number(), *cents, account.cents());
        }
    }
}

/// The lines of a closing, at the end of the buffer: what each supplier is paid and each customer is
/// charged, given their cents before, and what is carried on. Answers where they begin.
pub fn write_closing(
    out: &mut [u8; LINES_ROOM],
    hour: u32,
    paid: &[i64],
    suppliers: &Book<'_, Supplier>,
    charged: &[i64],
    customers: &Book<'_, Customer>,
    carry: i64,
) -> usize
    ensures { Closes (texts (closing_lines hour paid.now (enlisted suppliers.now) charged.now (customed customers.now) carry)) out.old out.new result }
{
    let mut tail = Tail::new(out);
    tail.line(Line::Carried { hour, carry });
    tail.accounts(Side::Charged, hour, charged, customers.accounts());
    tail.accounts(Side::Paid, hour, paid, suppliers.accounts());
    tail.start()
}
