//! Where a row stands.
ghost use Rattle.std.specs.Prelude.{◌≡◌};
ghost use Rattle.shop_defs.specs.Keys.{key_cmp};

use crate::copied::{Copied, NoMemory};
use crate::entity::Entity;
use std::alloc::Global;
use std::cmp::Ordering;

/// What one row is filed under.
///
/// Keys are ordered by the number of the entity, then by version, by id and by second part. `Ord`
/// and `order` give this order.
#[derive(Drop, Clone, Copy, PartialEq, Eq, PartialOrd, Ord)]
pub struct Key {
    /// The kind of row.
    pub entity: Entity,
    /// The version that the row belongs to: 0 is the live version.
    pub version: u128,
    /// The id of the row, a 128-bit number other than 0.
    pub id: u128,
    /// The second part of the key of a row that has one, as the language of a translation. 0 means
    /// that there is none.
    pub second: u128,
}

impl Copied for Key {
    fn copy(&self, _alloc: Global) -> Result<Key, NoMemory> {
        Ok(*self)
    }
}

impl Key {
    /// How two keys stand to each other.
    pub fn order(&self, other: &Key) -> Ordering
        ensures { result ≡ key_cmp self.now other.now }
    {
        self.cmp(other)
    }
}
