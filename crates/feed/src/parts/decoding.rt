//! What the lists of a feed hold.
ghost use Rattle.std.specs.Prelude.{◌≡◌, length};
ghost use Rattle.std.specs.List.{slice_get};
ghost use Rattle.feed.specs.Entries.{row_count};
ghost use Rattle.feed.specs.Reading.{rows_of};
ghost use Rattle.feed.specs.Filling.{Filled};

use crate::parts::Rows;
use crate::rows::{Row, count_rows};
use std::marker::PhantomData;

impl<'a, R: Row> Rows<'a, R> {
    /// The rows that have these numbers, and these bytes besides.
    pub(crate) fn new(numbers: &'a [u8], rest: &'a [u8]) -> Rows<'a, R>
        ensures numbers { result.numbers.now ≡ numbers.now }
        ensures rest { result.rest.now ≡ rest.now }
    {
        Rows {
            numbers,
            rest,
            of: PhantomData,
        }
    }

    /// How many rows there are.
    pub fn count(&self) -> usize
        ensures listed { result ≡ length (rows_of R.WIDTH R.row_at self.now) }
        ensures room { result ≡ row_count R.WIDTH self.now.numbers.now self.now.rest.now }
    {
        count_rows(R::WIDTH, self.numbers, self.rest)
    }

    /// Row `i`, if there is one.
    pub fn at(&self, i: usize) -> Option<R>
        ensures { result ≡ slice_get (rows_of R.WIDTH R.row_at self.now) i }
    {
        R::read(self.numbers, self.rest, i)
    }

    /// Writes the rows into the front of an array, as many as fit, and answers how many.
    pub fn fill(&self, out: &mut [R]) -> usize
        ensures { Filled result (rows_of R.WIDTH R.row_at self.now) out.old out.new }
    {
        // A copy of the list, and `unwrap` of a row that is known to be there: no row is tested for.
        let rows = *self;
        let count = rows.count().min(out.len());
        let places = &mut out[..count];
        for (i, place) in places.iter_mut().enumerate() {
            *place = rows.at(i).unwrap();
        }
        count
    }
}
