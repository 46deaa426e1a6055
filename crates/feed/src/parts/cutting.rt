//! Cutting a body into its parts.
ghost use Rattle.std.specs.Prelude.{◌≡◌, ◌+◌, ◌*◌, length, drop};
ghost use Rattle.feed.specs.Entries.{sheet_in, withdrawal_rows};
ghost use Rattle.feed.specs.Reading.{sheet_of, withdrawals_of};

use crate::parts::{Rows, Sheet, WithdrawalRows};

/// A sheet of `n` prices and targets and `m` rows.
pub(crate) fn cut_sheet<'a>(bytes: &'a [u8], n: usize, m: usize) -> Sheet<'a>
    requires { length bytes.now ≡ 8 * n + 24 * m }
    ensures { sheet_of result ≡ sheet_in bytes.now n m }
{
    let (prices, rest) = bytes.split_at(4 * n);
    let (targets, rest) = rest.split_at(4 * n);
    let (numbers, rest) = rest.split_at(4 * m);
    Sheet {
        prices: Rows::new(prices, &[]),
        targets: Rows::new(targets, &[]),
        rows: Rows::new(numbers, rest),
    }
}

/// The `m` withdrawal rows.
pub(crate) fn cut_withdrawals<'a>(bytes: &'a [u8], m: usize) -> WithdrawalRows<'a>
    requires { length bytes.now ≡ 16 * m }
    ensures { withdrawals_of result ≡ withdrawal_rows bytes.now (drop (4 * m) bytes.now) m }
{
    let (numbers, rest) = bytes.split_at(4 * m);
    Rows::new(numbers, rest)
}
