//! The running rule: shares differ by rounding so that together they make up all the cents.
ghost use Rattle.std.specs.Prelude.{◌≡◌, ◌+◌, pos, ◌-ℤ◌, ◌*ℤ◌};
ghost use Rattle.sums.specs.Floor.{floor};
ghost use Rattle.sharing.specs.Rule.{Shareable, running};
ghost use Rattle.sharing.specs.Rules.{running_fair};

use crate::SharingRule;
use crate::rule::{is_shareable, rounded_down};

/// The rule whose shares are what each part adds to the rounded share of all the parts up to it.
#[derive(Clone, Copy)]
pub struct RunningRule;

// As the down rule it shares inside the ranges alone: each is proved by its own definition, the test in it.
impl SharingRule for RunningRule {
    ghost share = { running };

    ghost fair = { running_fair };

    fn share_of(cents: i64, before: u64, part: u64, total: u64) -> i64 {
        if is_shareable(cents, before, part, total) {
            added_by(cents, before, part, total)
        } else {
            0
        }
    }
}

/// What `part` adds to the rounded share of the parts before it.
fn added_by(cents: i64, before: u64, part: u64, total: u64) -> i64
    requires { Shareable cents before part total }
    ensures { result ≡ floor (cents *ℤ pos (before + part)) total -ℤ floor (cents *ℤ pos before) total }
{
    let with_part = rounded_down(cents, before + part, total);
    let without = rounded_down(cents, before, total);
    with_part - without
}
