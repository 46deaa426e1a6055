//! Location maps: which reserve product at which location counts toward which requirement.
#![tactic(auto)]

ghost use Rattle.maps.specs.Tree.{TreeRepliesAsFixed, TenStepsFindAncestors};

mod fixed_map;
mod loaded_map;
mod location_map;
mod place;
mod product;

pub use crate::fixed_map::FixedMap;
pub use crate::loaded_map::LoadedMap;
pub use crate::location_map::LocationMap;
pub use crate::product::Product;

/// Parents 0, 0, 1, 2, 2 with all masks 7 make a map that replies as the fixed map.
pub fn tree_replies_as_fixed() -> u8
    ensures { TreeRepliesAsFixed }
{
    0
}

/// The loaded map's ancestor test, which the definition counts in steps, is the ancestor relation.
pub fn ten_steps_find_ancestors() -> u8
    ensures { TenStepsFindAncestors }
{
    0
}
