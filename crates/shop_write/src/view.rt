//! Rows as an operation sees them.
ghost use Rattle.std.specs.Prelude.{◌≡◌, IfOk, find, map};
ghost use Rattle.std.specs.Option.{option_copied};
ghost use Rattle.shop_defs.specs.Entities.{entity_number};
ghost use Rattle.shop_defs.specs.declared.table.TheConstants.{REFERENCES};
ghost use Rattle.shop_operations.specs.Parents.{children};
ghost use Rattle.shop_operations.specs.References.{referrers};
ghost use Rattle.shop_operations.specs.Upserts.{row_in, is_twin, count_of};
ghost use Rattle.shop_operations.specs.Views.{IsInPlaceOrder};
ghost use Rattle.shop_rows.specs.Owners.{count_owned};
ghost use Rattle.shop_write.specs.Seen.{child_keys, twin_keys};

use shop_defs::{Entity, Key, List, NoMemory, OwnerLimit, Row};
use std::alloc::Global;

/// The rows that a version shows, each place once.
///
/// Contracts see the version, the list of the rows in the order of their places, and of each entity
/// how many rows of all versions aren't shown. No look-up walks over all rows.
pub trait View {
    ghost use Rattle.shop_operations.specs.Views.{View};

    ghost seen: { Self → View };

    /// The version that is shown: 0 is the live one.
    fn version(&self) -> u128
        ensures { result ≡ (seen self.now).version };

    /// The row at the key's place, whatever version the key has: `None` where none stands there.
    fn get<'a>(&'a self, key: &Key) -> Option<&'a Row>
        ensures row { option_copied result ≡ row_in (seen self.entry.now).rows key.now }
        ensures order { IsInPlaceOrder (seen self.entry.now).rows };

    /// The ids, ascending, of the rows of the entity whose parent has that id. Want of memory is the
    /// only error, here and below.
    fn children_of(
        &self,
        alloc: Global,
        entity: Entity,
        parent: u128,
    ) -> Result<List<u128>, NoMemory>
        ensures { IfOk result (λ ids. ids ≡ children REFERENCES (seen self.now).rows entity parent) }
    {
        let keys = self.child_keys(alloc, entity, parent)?;
        let ids = ids_of(alloc, keys.as_slice())?;
        Ok(ids)
    }

    /// The keys, in the order of places, of the rows that `children_of` gives the ids of.
    fn child_keys(&self, alloc: Global, entity: Entity, parent: u128) -> Result<List<Key>, NoMemory>
        ensures { IfOk result (λ keys. keys ≡ child_keys (seen self.now).rows entity parent) };

    /// The keys, in the order of places, of the rows that refer to the one at the key's place.
    fn referrers_of(&self, alloc: Global, key: &Key) -> Result<List<Key>, NoMemory>
        ensures { IfOk result (λ keys. keys ≡ referrers REFERENCES (seen self.now).rows (entity_number key.now.entity) key.now.id) };

    /// The first row of the same entity at another place with the same unique fields, none of them
    /// null: `None` where there is none, and where the entity has no unique fields.
    fn twin<'a>(&'a self, alloc: Global, row: &Row) -> Result<Option<&'a Row>, NoMemory>
        ensures { IfOk result (λ twin. option_copied twin ≡ find (is_twin row.now) (seen self.entry.now).rows) }
    {
        match self.twins(alloc, row)?.get(0) {
            Some(key) => Ok(self.get(key)),
            None => Ok(None),
        }
    }

    /// The keys, in the order of places, of all rows that `twin` looks for.
    fn twins(&self, alloc: Global, row: &Row) -> Result<List<Key>, NoMemory>
        ensures { IfOk result (λ keys. keys ≡ twin_keys (seen self.now).rows row.now) };

    /// How many rows of the entity there are, in all versions.
    fn count(&self, entity: Entity) -> usize
        ensures { result ≡ count_of (seen self.now).hidden (seen self.now).rows entity };

    /// How many rows of the limit's entity belong to the owner with that id.
    fn count_owned(&self, limit: &OwnerLimit, owner: u128) -> usize
        ensures { result ≡ count_owned limit.now (seen self.now).rows owner };
}

/// The ids of the keys.
fn ids_of(alloc: Global, keys: &[Key]) -> Result<List<u128>, NoMemory>
    ensures { IfOk result (λ ids. ids ≡ map (λ key. key.id) keys.now) }
{
    let ids = keys.iter().map(|key| key.id);
    Ok(List::from_vec(ids.collect(alloc)?))
}
