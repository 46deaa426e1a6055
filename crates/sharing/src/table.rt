//! The shares of parts, in their order.
// That the parts are few is asked of each function: a struct around a slice, only for that, would be longer.
ghost use Rattle.std.specs.Prelude.{◌≡◌, ◌≤◌, [], map as listed, length, pos, replicate, sum};
ghost use Rattle.sharing.specs.Shares.{shares};
ghost use Rattle.sharing.specs.SharedOut.{most_shares};

use crate::portion::total_of;
use crate::rule::MOST_PARTS;
use crate::shares::MOST_SHARES;
use crate::{Portion, SharingRule};
use bounded::Bounded;

/// Gives every part its share, in their order. All are 0 where the parts are too much together.
// Into a list that is lent: one that is handed out is copied on the way, of a size that is worth a few shares.
pub(crate) fn give_shares<S: SharingRule, P: Portion>(
    cents: i64,
    parts: &[P],
    given: &mut Bounded<i64, MOST_SHARES>,
)
    requires few { length parts.now ≤ most_shares }
    requires none { given.old.items ≡ [] }
    ensures { given.new.items ≡ shares S.SharingRule.share cents 0 (sum (listed P.Portion.portion parts.now)) (listed P.Portion.portion parts.now) }
{
    let total = total_of(parts);
    if total <= MOST_PARTS as u128 {
        give_in_order::<S, P>(cents, total as u64, parts, given);
    } else {
        *given = no_shares(parts.len());
    }
}

/// A share of 0 for each of so many parts.
fn no_shares(count: usize) -> Bounded<i64, MOST_SHARES>
    requires { count ≤ most_shares }
    ensures { result.items ≡ replicate count (pos 0) }
{
    let zeros = [0; MOST_SHARES];
    let none = &zeros[..count];
    Bounded::first_of(none)
}

/// Gives every part its share, where `total` is the sum of all.
fn give_in_order<S: SharingRule, P: Portion>(
    cents: i64,
    total: u64,
    parts: &[P],
    given: &mut Bounded<i64, MOST_SHARES>,
)
    requires few { length parts.now ≤ most_shares }
    requires whole { total ≡ sum (listed P.Portion.portion parts.now) }
    requires none { given.old.items ≡ [] }
    ensures { given.new.items ≡ shares S.SharingRule.share cents 0 total (listed P.Portion.portion parts.now) }
{
    let mut before = 0;
    for item in parts {
        let part = item.portion();
        // There is room for the share of every part.
        let _ = given.push(S::share_of(cents, before, part, total));
        before += part;
    }
}
