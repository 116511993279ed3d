//! Rows in the order of their keys, in which searches find what is looked up.
ghost use Rattle.std.specs.Prelude.{◌≡◌, ◌<◌, ◌^◌, ◌&&◌, count_by, length};
ghost use Rattle.std.specs.List.{list_all};
ghost use Rattle.std.specs.Ordering.{is_le};
ghost use Rattle.shop_defs.specs.Keys.{key_cmp};
ghost use Rattle.shop_operations.specs.References.{is_entity, is_live};
ghost use Rattle.shop_operations.specs.Upserts.{is_of_owner};
ghost use Rattle.shop_defs.specs.declared.table.TheConstants.{OWNER_LIMITS, REFERENCES};
ghost use Rattle.shop_rows.specs.Searches.{same_part};
ghost use Rattle.shop_check.specs.Found as spec;

use crate::others::{Others, agree_within, is_owned_up_to, is_up_to};
use shop_defs::{Entity, Key, OWNER_LIMITS, OwnerLimit, Part, REFERENCES, Reference, Row};
use shop_operations::{named, part_of};
use shop_rows::{Rows, Walk};

impl Others for Rows {
    ghost rows = { λ rows. rows.list };

    fn one<'a>(&'a self, entity: Entity, id: u128) -> Option<&'a Row> {
        let _order = self.len();
        self.get(&Key {
            entity,
            version: 0,
            id,
            second: 0,
        })
    }

    fn is_of_tree(&self, reference: &Reference, row: &Row) -> bool {
        let _order = self.len();
        match named(reference, row) {
            None => true,
            Some(id) => match self.one(reference.of, id) {
                None => true,
                Some(other) => agree_within(reference.within, row, other),
            },
        }
    }

    fn has_lower_twin(&self, row: &Row) -> bool {
        let _order = self.len();
        match self.twin(row) {
            Some(other) => other.key.order(&row.key).is_lt(),
            None => false,
        }
    }

    fn are_more_up_to(&self, row: &Row, most: usize) -> bool {
        let _few = self.len();
        self.count(row.key.entity) > most && count_up_to(self.iter(), row) > most
    }

    fn is_owner_full(&self, limit: &OwnerLimit, row: &Row) -> bool {
        if limit.entity != row.key.entity {
            return false;
        }
        match part_of(limit.owner, row) {
            Some(owner) => {
                let _few = self.len();
                self.count_owned(limit, owner) > limit.most as usize
                    && count_owned_up_to(self.iter(), limit, row) > limit.most as usize
            }
            None => false,
        }
    }
}

/// How many rows of the row's entity there are up to the row: a walk over all rows.
fn count_up_to(rows: Walk<'_>, row: &Row) -> usize
    requires { length rows < 2 ^ 63 }
    ensures { result ≡ count_by (λ other. is_le (key_cmp other.key row.now.key) && is_entity row.now.key.entity other.key.entity) rows.entry }
{
    rows.filter(|other| is_up_to(row, other) && row.key.entity == other.key.entity)
        .count()
}

/// How many live rows belong to the row's owner, up to the row: a walk over all rows.
fn count_owned_up_to(rows: Walk<'_>, limit: &OwnerLimit, row: &Row) -> usize
    requires { length rows < 2 ^ 63 }
    ensures { result ≡ count_by (λ other. is_le (key_cmp other.key row.now.key) && (is_live other && is_of_owner limit.now row.now other)) rows.entry }
{
    rows.filter(|other| is_owned_up_to(limit, row, other))
        .count()
}

/// Whether none of the rows owns more of them than a limit allows: each row of a limit is counted
/// once, with its owner.
pub(crate) fn owners_are_within(rows: &Rows) -> bool
    ensures { result ≡ spec.owners_are_within rows.now.list }
{
    are_all_within(rows, rows.iter())
}

fn are_all_within(rows: &Rows, owners: Walk<'_>) -> bool
    ensures { result ≡ list_all (λ owner. list_all (spec.is_within rows.now.list owner) OWNER_LIMITS) owners.entry }
{
    let mut owners = owners;
    owners.all(|owner| owns_few(rows, owner))
}

fn owns_few(rows: &Rows, owner: &Row) -> bool
    ensures { result ≡ list_all (spec.is_within rows.now.list owner.now) OWNER_LIMITS }
{
    OWNER_LIMITS
        .iter()
        .all(|limit| is_within(rows, owner, limit))
}

fn is_within(rows: &Rows, owner: &Row, limit: &OwnerLimit) -> bool
    ensures { result ≡ spec.is_within rows.now.list owner.now limit.now }
{
    !is_owner_of(&REFERENCES, limit, owner.key.entity)
        || rows.count_owned(limit, owner.key.id) <= limit.most as usize
}

/// Whether by a reference rows of the limit's entity belong to rows of that entity.
fn is_owner_of(table: &[Reference], limit: &OwnerLimit, entity: Entity) -> bool
    ensures { result ≡ spec.is_owner_of table.now limit.now entity }
{
    table.iter().any(|reference| {
        reference.entity == limit.entity
            && is_same_part(reference.part, limit.owner)
            && reference.of == entity
    })
}

fn is_same_part(part: Part, other: Part) -> bool
    ensures { result ≡ same_part part other }
{
    match (part, other) {
        (Part::Id, Part::Id) => true,
        (Part::Second, Part::Second) => true,
        (Part::Field(a), Part::Field(b)) => a == b,
        _ => false,
    }
}
