//! Reading the body of a record.
ghost use Rattle.std.specs.Prelude.{◌≡◌, length};
ghost use Rattle.feed.specs.Kinds.{body_length_lem};
ghost use Rattle.feed.specs.Entries.{body_says};
ghost use Rattle.feed.specs.Reading.{says};

use crate::kind::Kind;
use crate::numbers::{read_u16, read_u32};
use crate::parts::cutting::{cut_sheet, cut_withdrawals};
use crate::record::Record;
use accounts::NewSupplier;

/// The record whose body is `body`.
pub(crate) fn read_body<'a>(kind: Kind, n: usize, m: usize, body: &'a [u8]) -> Record<'a>
    requires { length body.now ≡ body_length_lem kind n m }
    ensures { says result ≡ body_says kind n m body.now }
{
    match kind {
        Kind::Supplier => Record::Supplier(NewSupplier {
            number: read_u32(body, 0),
            location: read_u16(body, 4),
            kind: read_u16(body, 6),
            upper: read_u32(body, 8),
            response: read_u32(body, 12),
        }),
        Kind::Customer => Record::Customer {
            number: read_u32(body, 0),
        },
        Kind::Open => Record::Open {
            hour: read_u32(body, 0),
        },
        Kind::Clear => Record::Clear(cut_sheet(body, n, m)),
        Kind::Interval => {
            let (_, lists) = body.split_at(4);
            Record::Interval {
                seconds: read_u32(body, 0),
                sheet: cut_sheet(lists, n, m),
            }
        }
        Kind::Close => Record::Close(cut_withdrawals(body, m)),
        Kind::Void => Record::Void,
    }
}
