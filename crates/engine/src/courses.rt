//! Whole feeds.
ghost use Rattle.engine.specs.Courses.{FeedsKeep};

use maps::LocationMap;
use sharing::SharingRule;

/// Whatever bytes a feed has, the law of all runs holds wherever the records read off its front have led a
/// new ledger, under every map, every rule and every curve book.
pub fn every_feed_keeps_the_law<M: LocationMap, S: SharingRule>() -> u8
    ensures { (map : M) → FeedsKeep (M.LocationMap.market map) S.SharingRule.share }
{
    0
}
