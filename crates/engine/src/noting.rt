//! What is noted before a closing, so that its lines can tell what it added.
ghost use Rattle.std.specs.Prelude.{◌≡◌, ◌≤◌, option_map, length, map, take, drop};
ghost use Rattle.books.specs.Books.{suppliers as enlisted, customers as customed};
ghost use Rattle.lines.specs.Texts.{texts};
ghost use Rattle.settlement.specs.Course.{state_of};
ghost use Rattle.engine.specs.Telling.{supplier_cents, customer_cents, noted_lines};

use accounts::Account;
use lines::{LINES_ROOM, write_closing};
use settlement::{House, Ledger};

/// What the lines of a closing tell besides what it leaves: the hour, and the cents that each account had
/// before.
// The cents lie in room that is lent: lists of so many by value would be copied for every closing.
#[derive(Clone, Copy)]
pub(crate) struct Noted<'n> {
    hour: u32,
    paid: &'n [i64],
    charged: &'n [i64],
}

/// Writes the cents of each account to the front of the room.
// Counted by hand: of what `iter_mut` writes beside another list a proof knows nothing.
fn write_cents<A: Account>(accounts: &[A], room: &mut [i64])
    requires { length accounts.now ≤ length room.old }
    ensures { take (length accounts.now) room.new ≡ map A.Account.money accounts.now }
{
    for i in 0..accounts.len() {
        room[i] = accounts[i].cents();
    }
}

/// The cents of each account, noted at the front of the room.
fn note<'n, A: Account>(accounts: &[A], room: &'n mut [i64]) -> &'n [i64]
    requires { length accounts.now ≤ length room.old }
    ensures { result.now ≡ map A.Account.money accounts.now }
{
    write_cents(accounts, room);
    &room[..accounts.len()]
}

impl<'n> Noted<'n> {
    /// What has to be noted before the hour in hand is closed.
    pub(crate) fn before<M>(
        hour: u32,
        house: &House<'_, '_, '_, M>,
        paid: &'n mut [i64; 128],
        charged: &'n mut [i64; 256],
    ) -> Noted<'n>
        ensures hour { result.hour ≡ hour }
        ensures paid { result.paid.now ≡ supplier_cents (enlisted house.now.suppliers) }
        ensures charged { result.charged.now ≡ customer_cents (customed house.now.customers) }
    {
        Noted {
            hour,
            paid: note(house.suppliers.accounts(), paid),
            charged: note(house.customers.accounts(), charged),
        }
    }

    /// The lines of what the closing left, at the end of the buffer. Answers where they begin.
    fn tell<M>(
        &self,
        ledger: &Ledger,
        house: &House<'_, '_, '_, M>,
        out: &mut [u8; LINES_ROOM],
    ) -> usize
        ensures { drop result out.new ≡ texts (noted_lines (Some self.now) (state_of ledger.now house.now)) }
    {
        write_closing(
            out,
            self.hour,
            self.paid,
            &house.suppliers,
            self.charged,
            &house.customers,
            ledger.carry(),
        )
    }
}

/// The lines of an accepted record, by what was noted before it if it is a closing. Answers where they begin.
pub(crate) fn tell_accepted<M>(
    noted: Option<&Noted<'_>>,
    ledger: &Ledger,
    house: &House<'_, '_, '_, M>,
    out: &mut [u8; LINES_ROOM],
) -> usize
    ensures { drop result out.new ≡ texts (noted_lines (option_map (λ n. n.now) noted.entry) (state_of ledger.now house.now)) }
{
    match noted {
        Some(noted) => noted.tell(ledger, house, out),
        None => LINES_ROOM,
    }
}
