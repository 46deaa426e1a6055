//! Sharing an hour's cost: rules that share whole cents among parts, and the grains carried on.
#![tactic(auto)]

ghost use Rattle.sharing.specs.Shares.{SharingLaw};
ghost use Rattle.sharing.specs.Ends.{BetweenTheEnds, RunningSharesAll};
ghost use Rattle.sharing.specs.Figures.{SharingFigures};

mod carry;
mod down;
mod grains;
mod portion;
mod rule;
mod running;
mod shares;
mod table;

pub use crate::down::DownRule;
pub use crate::grains::{GRAINS_PER_CENT, rest_grains, whole_cents};
pub use crate::portion::{Portion, total_of};
pub use crate::rule::{MOST_CENTS, MOST_PARTS, SharingRule};
pub use crate::running::RunningRule;
pub use crate::shares::{MOST_SHARES, Shares, share_out};

/// Every rule shares all whole cents but less than one for each part, by exact shares rounded down or
/// up, and keeps the carry from 0 to below a cent for each part. No grain is lost or made.
pub fn every_rule_shares_lawfully<S: SharingRule>() -> u8
    ensures { SharingLaw S.SharingRule.share }
{
    0
}

/// The down rule and the running rule are the ends of what the law allows.
pub fn every_rule_lies_between_the_ends<S: SharingRule>() -> u8
    ensures { BetweenTheEnds S.SharingRule.share }
{
    0
}

/// The running rule leaves only the rest to be carried on.
pub fn running_rule_shares_all() -> u8
    ensures { RunningSharesAll }
{
    0
}

/// The figures of worked cases.
pub fn sharing_figures() -> u8
    ensures { SharingFigures }
{
    0
}
