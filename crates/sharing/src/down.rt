//! The down rule: every share is rounded down, and the cents that are left over are carried on.
ghost use Rattle.sharing.specs.Rule.{down};
ghost use Rattle.sharing.specs.Rules.{down_fair};

use crate::SharingRule;
use crate::rule::{is_shareable, rounded_down};

/// The rule whose shares are the exact shares, rounded down.
#[derive(Clone, Copy)]
pub struct DownRule;

impl SharingRule for DownRule {
    ghost share = { down };

    ghost fair = { down_fair };

    fn share_of(cents: i64, before: u64, part: u64, total: u64) -> i64 {
        if is_shareable(cents, before, part, total) {
            rounded_down(cents, part, total)
        } else {
            0
        }
    }
}
