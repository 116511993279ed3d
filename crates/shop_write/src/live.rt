//! The live rows, as an operation sees them.
ghost use Rattle.std.specs.Prelude.{◌≡◌, IfOk, []};
ghost use Rattle.shop_write.specs.Growth.{at_live};

use crate::view::View;
use shop_defs::{Copied, Entity, Key, List, NoMemory, OwnerLimit, Row};
use shop_rows::Rows;
use std::alloc::Global;

/// The key of the live version at the key's place.
pub(crate) fn live_key(key: &Key) -> Key
    ensures { result ≡ at_live key.now }
{
    Key { version: 0, ..*key }
}

impl View for Rows {
    ghost use Rattle.shop_operations.specs.Views.{live_view};

    ghost seen = { λ rows. live_view rows.list };

    fn version(&self) -> u128 {
        0
    }

    fn get<'a>(&'a self, key: &Key) -> Option<&'a Row> {
        let _order = self.len();
        Rows::get(self, &live_key(key))
    }

    fn child_keys(
        &self,
        alloc: Global,
        entity: Entity,
        parent: u128,
    ) -> Result<List<Key>, NoMemory> {
        Rows::child_keys(self, alloc, entity, 0, parent)
    }

    fn referrers_of(&self, alloc: Global, key: &Key) -> Result<List<Key>, NoMemory> {
        Rows::referrers_of(self, alloc, key)
    }

    fn twins(&self, alloc: Global, row: &Row) -> Result<List<Key>, NoMemory> {
        if row.key.version == 0 {
            return Rows::twins(self, alloc, row);
        }
        let live = live_copy(alloc, row)?;
        let keys = Rows::twins(self, alloc, &live)?;
        Ok(keys)
    }

    fn count(&self, entity: Entity) -> usize {
        Rows::count(self, entity)
    }

    fn count_owned(&self, limit: &OwnerLimit, owner: u128) -> usize {
        Rows::count_owned(self, limit, owner)
    }
}

/// A row with the same fields at the same place of the live version.
fn live_copy(alloc: Global, row: &Row) -> Result<Row, NoMemory>
    ensures { IfOk result (λ copy. copy ≡ record { key = at_live row.now.key; fields = row.now.fields; ops = [] }) }
{
    Ok(Row {
        key: live_key(&row.key),
        fields: row.fields.copy(alloc)?,
        ops: List::new(alloc),
    })
}
