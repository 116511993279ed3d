//! Where a category stands.
use shop_defs::List;

/// Where a category stands among the others.
#[derive(Drop)]
pub struct Standing {
    /// The ids of its ancestors, from the root to its parent.
    pub path: List<u128>,
    /// 1 where it has no parent, and else one more than its parent's: at most 32.
    pub level: u32,
    /// How many categories have it as their parent.
    pub children: u32,
}
