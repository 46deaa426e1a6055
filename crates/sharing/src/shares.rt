//! Sharing grains out: whole cents among parts, and what is left carried on.
ghost use Rattle.std.specs.Prelude.{◌≡◌, ◌≤◌, map as listed, length, take};
ghost use Rattle.sharing.specs.SharedOut.{most_shares, SharedOut};

use crate::carry::carry_of;
use crate::grains::whole_cents;
use crate::table::give_shares;
use crate::{Portion, SharingRule};
use bounded::Bounded;

/// The most parts that are shared among.
pub const MOST_SHARES: usize = 256;

/// The shares of parts in their order, in whole cents, and the grains that are carried on.
#[derive(Clone, Copy, PartialEq, Eq, Debug)]
pub struct Shares {
    pub cents: Bounded<i64, MOST_SHARES>,
    pub carry: i64,
}

/// Shares the whole cents of `grains` among the first 256 parts by the rule `S`, and carries on the
/// grains that are left. Further parts are not looked at.
pub fn share_out<S: SharingRule, P: Portion>(grains: i64, parts: &[P]) -> Shares
    ensures { SharedOut S.SharingRule.share grains (listed P.Portion.portion (take most_shares parts.now)) result }
{
    share_among::<S, P>(grains, first_of(parts))
}

/// The first parts, as many as there is room for.
fn first_of<P>(parts: &[P]) -> &[P]
    ensures value { result.now ≡ take most_shares parts.now }
    ensures few { length result.now ≤ most_shares }
{
    &parts[0..parts.len().min(MOST_SHARES)]
}

/// Shares among all the parts, which are few enough.
fn share_among<S: SharingRule, P: Portion>(grains: i64, parts: &[P]) -> Shares
    requires { length parts.now ≤ most_shares }
    ensures { SharedOut S.SharingRule.share grains (listed P.Portion.portion parts.now) result }
{
    let mut cents = Bounded::empty();
    give_shares::<S, P>(whole_cents(grains), parts, &mut cents);
    let carry = carry_of(grains, cents.as_slice()) as i64;
    Shares { cents, carry }
}
