//! What a settlement house has besides its ledger.
use accounts::{Customer, Supplier};
use books::Book;
use curves::CurveBook;

/// What a settlement house has besides its ledger: the map of its locations, its demand curves, and the
/// books of its accounts.
// The ledger is not in it: it is moved from stage to stage, and nothing can be moved out of what is borrowed.
// Map and curves are lent apart from the tables of the books, so that books outlive a curve book: other curves are
// taken by a house made anew of the same books.
#[derive(Drop)]
pub struct House<'r, 's, 'c, M> {
    pub map: &'r M,
    pub curves: &'r CurveBook,
    pub suppliers: Book<'s, Supplier>,
    pub customers: Book<'c, Customer>,
}
