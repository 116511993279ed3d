//! What is looked up in rows, beside the row at a key. No look-up walks over all rows.
ghost use Rattle.std.specs.Prelude.{◌≡◌, ◌<◌, IfOk, OnErr, filter, length};
ghost use Rattle.std.specs.Option.{option_copied};
ghost use Rattle.std.specs.Ordering.{is_gt};
ghost use Rattle.shop_defs.specs.Entities.{entity_number};
ghost use Rattle.shop_defs.specs.Keys.{key_cmp};
ghost use Rattle.shop_defs.specs.Rows.{row_key};
ghost use Rattle.shop_defs.specs.declared.table.TheConstants.{REFERENCES};
ghost use Rattle.shop_operations.specs.Parents.{children};
ghost use Rattle.shop_operations.specs.References.{referrers, live, of_version};
ghost use Rattle.shop_rows.specs.Lookups as spec;
ghost use Rattle.shop_rows.specs.Owners.{count_owned};
ghost use Rattle.shop_rows.specs.Paging.{rows_in, AreFound};

use crate::finding::{
    count_of, count_of_rows, count_owned_in, count_owned_of, first_twin, ids_of, keys_of,
    keys_of_rows, keys_of_twins, reference_from,
};
use crate::pages::Pages;
use crate::prints::print_in;
use crate::rows::Rows;
use crate::searches::{live_rows_of, mentions_at, mentions_at_of, rows_of};
use crate::topic::Topic;
use crate::walk::Walk;
use shop_defs::{Entity, Key, List, NoMemory, OwnerLimit, Part, Row};
use std::alloc::Global;

impl Rows {
    /// The ids, ascending, of the rows of the version and the entity whose parent has that id. Want
    /// of memory is the only error, here and below.
    pub fn children_of(
        &self,
        alloc: Global,
        entity: Entity,
        version: u128,
        parent: u128,
    ) -> Result<List<u128>, NoMemory>
        ensures ids { IfOk result (λ ids. ids ≡ children REFERENCES (of_version version self.now.list) entity parent) }
        ensures wanted { OnErr result (0 < length (children REFERENCES (of_version version self.now.list) entity parent)) }
    {
        let found = mentions_at_of(
            &self.pages.mentions,
            referring(entity, version, parent),
            entity,
        );
        let ids = ids_of(alloc, found)?;
        Ok(List::from_vec(ids))
    }

    /// The keys, ascending, of the rows that `children_of` gives the ids of.
    pub fn child_keys(
        &self,
        alloc: Global,
        entity: Entity,
        version: u128,
        parent: u128,
    ) -> Result<List<Key>, NoMemory>
        ensures keys { IfOk result (λ keys. keys ≡ spec.child_keys (of_version version self.now.list) entity parent) }
        ensures wanted { OnErr result (0 < length (spec.child_keys (of_version version self.now.list) entity parent)) }
    {
        let found = mentions_at_of(
            &self.pages.mentions,
            referring(entity, version, parent),
            entity,
        );
        let keys = keys_of(alloc, found)?;
        Ok(List::from_vec(keys))
    }

    /// How many rows `children_of` gives the ids of. It takes no memory.
    pub fn count_children(&self, entity: Entity, version: u128, parent: u128) -> usize
        ensures { result ≡ spec.count_children (of_version version self.now.list) entity parent }
    {
        let topic = referring(entity, version, parent);
        count_of(mentions_at_of(&self.pages.mentions, topic, entity))
    }

    /// The first row with a greater key: `None` where no key is greater. It takes no memory.
    pub fn after<'a>(&'a self, key: &Key) -> Option<&'a Row>
        ensures { option_copied result ≡ spec.first_above self.entry.now.list key.now }
    {
        match self.pages.rows.after(key) {
            Some((_, row)) => Some(row),
            None => None,
        }
    }

    /// A walk over the rows with greater keys. It takes no memory.
    pub fn behind(&self, key: &Key) -> Walk<'_>
        ensures { result ≡ filter (λ row. is_gt (key_cmp row.key key.now)) self.now.list }
    {
        let walk = Walk::over(self.pages.rows.runs_from(key));
        match self.pages.get(key) {
            Some(_) => walk.without_first(),
            None => walk,
        }
    }

    /// How many rows of the entity there are, in all versions. It takes no memory.
    pub fn count(&self, entity: Entity) -> usize
        ensures { result ≡ spec.count_rows self.now.list entity }
    {
        self.pages.counts.at(entity)
    }

    /// The keys, ascending, of the rows of the entity and the version.
    pub fn keys_of(
        &self,
        alloc: Global,
        entity: Entity,
        version: u128,
    ) -> Result<List<Key>, NoMemory>
        ensures keys { IfOk result (λ keys. keys ≡ spec.keys_of (of_version version self.now.list) entity) }
        ensures wanted { OnErr result (0 < length (spec.keys_of (of_version version self.now.list) entity)) }
    {
        let keys = keys_of_rows(alloc, rows_of(&self.pages, entity, version))?;
        Ok(List::from_vec(keys))
    }

    /// The first row of the same entity and version at another place with the same unique fields,
    /// none of them null: `None` where there is none, and where the entity has no unique fields. It
    /// takes no memory.
    pub fn twin<'a>(&'a self, row: &Row) -> Option<&'a Row>
        ensures { option_copied result ≡ spec.first_twin self.entry.now.list row.now }
    {
        self.twin_in(row.key.version, row)
    }

    /// The first such row of that version, whichever version the row is of. It takes no memory.
    pub fn twin_in<'a>(&'a self, version: u128, row: &Row) -> Option<&'a Row>
        ensures { option_copied result ≡ spec.first_twin_in version self.entry.now.list row.now }
    {
        match print_in(version, row) {
            Some(print) => {
                let found = mentions_at(&self.pages.mentions, Topic::HasPrint(print));
                first_twin(&self.pages, found, version, row)
            }
            None => None,
        }
    }

    /// The keys, ascending, of all rows that `twin` looks for.
    pub fn twins(&self, alloc: Global, row: &Row) -> Result<List<Key>, NoMemory>
        ensures keys { IfOk result (λ keys. keys ≡ spec.twins self.now.list row.now) }
        ensures wanted { OnErr result (0 < length (spec.twins self.now.list row.now)) }
    {
        self.twins_in(alloc, row.key.version, row)
    }

    /// The keys, ascending, of all rows that `twin_in` looks for.
    pub fn twins_in(&self, alloc: Global, version: u128, row: &Row) -> Result<List<Key>, NoMemory>
        ensures keys { IfOk result (λ keys. keys ≡ spec.twins_in version self.now.list row.now) }
        ensures wanted { OnErr result (0 < length (spec.twins_in version self.now.list row.now)) }
    {
        match print_in(version, row) {
            Some(print) => {
                let found = mentions_at(&self.pages.mentions, Topic::HasPrint(print));
                let keys = keys_of_twins(alloc, &self.pages, found, version, row)?;
                Ok(List::from_vec(keys))
            }
            None => Ok(List::new(alloc)),
        }
    }

    /// The keys, ascending, of the live rows that refer to the one at the key, whatever version the
    /// key has, by a reference that a delete looks at.
    pub fn referrers_of(&self, alloc: Global, key: &Key) -> Result<List<Key>, NoMemory>
        ensures keys { IfOk result (λ keys. keys ≡ referrers REFERENCES (live self.now.list) (entity_number key.now.entity) key.now.id) }
        ensures wanted { OnErr result (0 < length (referrers REFERENCES (live self.now.list) (entity_number key.now.entity) key.now.id)) }
    {
        self.referrers_in(alloc, 0, key)
    }

    /// The keys, ascending, of the rows of the version that refer so.
    pub fn referrers_in(
        &self,
        alloc: Global,
        version: u128,
        key: &Key,
    ) -> Result<List<Key>, NoMemory>
        ensures keys { IfOk result (λ keys. keys ≡ referrers REFERENCES (of_version version self.now.list) (entity_number key.now.entity) key.now.id) }
        ensures wanted { OnErr result (0 < length (referrers REFERENCES (of_version version self.now.list) (entity_number key.now.entity) key.now.id)) }
    {
        let topic = referring(key.entity, version, key.id);
        let keys = keys_of(alloc, mentions_at(&self.pages.mentions, topic))?;
        Ok(List::from_vec(keys))
    }

    /// The keys, ascending, of the rows of the version and the entity that refer so.
    pub fn referrers_by(
        &self,
        alloc: Global,
        entity: Entity,
        version: u128,
        key: &Key,
    ) -> Result<List<Key>, NoMemory>
        ensures keys { IfOk result (λ keys. keys ≡ spec.referrers_by entity (of_version version self.now.list) (entity_number key.now.entity) key.now.id) }
        ensures wanted { OnErr result (0 < length (spec.referrers_by entity (of_version version self.now.list) (entity_number key.now.entity) key.now.id)) }
    {
        let topic = referring(key.entity, version, key.id);
        let keys = keys_of(alloc, mentions_at_of(&self.pages.mentions, topic, entity))?;
        Ok(List::from_vec(keys))
    }

    /// How many live rows of the limit's entity belong to the owner with that id. It costs a search,
    /// and one for each row that is counted, where a row says by its own id which row it belongs to,
    /// or by a reference that a delete looks at, as the rows of all limits of the table do. For
    /// another limit it is a walk over all rows. It takes no memory.
    pub fn count_owned(&self, limit: &OwnerLimit, owner: u128) -> usize
        ensures { result ≡ count_owned limit.now (live self.now.list) owner }
    {
        match limit.owner {
            Part::Id => count_of_rows(live_rows_of(&self.pages, limit.entity, owner)),
            _ => count_referring(&self.pages, limit, owner),
        }
    }
}

/// What rows of the version are found by that refer to the row of the entity with the id.
fn referring(of: Entity, version: u128, id: u128) -> Topic
    ensures { result ≡ Topic.RefersTo version of id }
{
    Topic::RefersTo { version, of, id }
}

/// How many live rows of the limit's entity belong to the owner: by a reference, if there is one.
fn count_referring(pages: &Pages, limit: &OwnerLimit, owner: u128) -> usize
    requires { AreFound pages.now.rows pages.now.mentions pages.now.counts }
    ensures { result ≡ count_owned limit.now (live (rows_in pages.now.rows)) owner }
{
    match reference_from(limit.entity, limit.owner) {
        Some(reference) => {
            let topic = referring(reference.of, 0, owner);
            let found = mentions_at_of(&pages.mentions, topic, limit.entity);
            count_owned_of(pages, found, limit, owner)
        }
        None => count_owned_in(Walk::over(pages.rows.runs()), limit, owner),
    }
}
