//! New accounts of a book.
ghost use Rattle.std.specs.Prelude.{◌≡◌, ◌<◌, min, length, OnOk};
ghost use Rattle.accounts.specs.Enrolment.{new_customer};
ghost use Rattle.books.specs.Books.{accounts, suppliers, customers, room, table};
ghost use Rattle.books.specs.Enrolling.{room_verdict, new_verdict, supplier_verdict, customer_verdict, account_of, enrolled};

use crate::book::Book;
use crate::numbers::check_new;
use accounts::{Account, Customer, NewSupplier, Supplier};
use faults::Fault;

impl<'a, A: Account> Book<'a, A> {
    /// Refuses one more account where the table is full, or the kind has all that a book takes.
    fn check_room(&self) -> Result<(), Fault>
        ensures verdict { result ≡ room_verdict A.Account.most (room self.now) (length (accounts A.Account.most self.now)) }
        ensures free { OnOk result (length (accounts A.Account.most self.now) < min A.Account.most (room self.now)) }
    {
        let count = self.count();
        if count < A::most().min(self.room()) {
            Ok(())
        } else {
            Err(Fault::BookFull { count })
        }
    }

    /// Refuses a number that is in the book, and then a book that is full.
    fn check_place(&self, number: u32) -> Result<(), Fault>
        ensures verdict { result ≡ new_verdict A.Numbered.numbered A.Account.most (room self.now) number (accounts A.Account.most self.now) }
        ensures free { OnOk result (length (accounts A.Account.most self.now) < min A.Account.most (room self.now)) }
    {
        check_new(self.accounts(), number)?;
        self.check_room()
    }
}

impl<'a> Book<'a, Supplier> {
    /// Enrols a supplier where the map has so many locations.
    pub fn enrol(&mut self, new: &NewSupplier, locations: usize) -> Result<(), Fault>
        ensures verdict { result ≡ supplier_verdict locations (room self.old) new.now (suppliers self.old) }
        ensures after { suppliers self.new ≡ enrolled result (suppliers self.old) (account_of new.now) }
        ensures room { room self.new ≡ room self.old }
        ensures table { table self.new ≡ table self.old }
    {
        self.check_place(new.number)?;
        new.check_fields(locations)?;
        self.push(new.account());
        Ok(())
    }
}

impl<'a> Book<'a, Customer> {
    /// Enrols a customer.
    pub fn enrol(&mut self, number: u32) -> Result<(), Fault>
        ensures verdict { result ≡ customer_verdict (room self.old) number (customers self.old) }
        ensures after { customers self.new ≡ enrolled result (customers self.old) (new_customer number) }
        ensures room { room self.new ≡ room self.old }
        ensures table { table self.new ≡ table self.old }
    {
        self.check_place(number)?;
        self.push(Customer::new(number));
        Ok(())
    }
}
