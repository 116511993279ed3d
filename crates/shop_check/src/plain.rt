//! Rows in any order, in which each look-up walks over all of them.
ghost use Rattle.std.specs.Prelude.{◌≡◌, ◌&&◌, count_by};
ghost use Rattle.std.specs.Ordering.{is_le};
ghost use Rattle.shop_defs.specs.Keys.{key_cmp};
ghost use Rattle.shop_operations.specs.References.{is_entity, is_live, is_one};
ghost use Rattle.shop_operations.specs.Upserts.{is_of_owner};

use crate::others::{Others, agree_within, is_live, is_owned_up_to, is_up_to};
use shop_defs::{Entity, OwnerLimit, Reference, Row};
use shop_operations::{is_twin, ties};

impl Others for Vec<Row> {
    ghost rows = { λ rows. rows.items };

    fn one<'a>(&'a self, entity: Entity, id: u128) -> Option<&'a Row> {
        self.as_slice()
            .iter()
            .filter(|row| is_live(row))
            .find(|row| is_one(entity, id, row))
    }

    fn is_of_tree(&self, reference: &Reference, row: &Row) -> bool {
        self.as_slice().iter().filter(|other| is_live(other)).all(|other| {
            !ties(reference, row, other) || agree_within(reference.within, row, other)
        })
    }

    fn has_lower_twin(&self, row: &Row) -> bool {
        self.as_slice().iter().filter(|other| is_live(other)).any(|other| other
            .key
            .order(&row.key)
            .is_lt()
            && is_twin(row, other))
    }

    fn are_more_up_to(&self, row: &Row, most: usize) -> bool {
        count_up_to(self.as_slice(), row) > most
    }

    fn is_owner_full(&self, limit: &OwnerLimit, row: &Row) -> bool {
        limit.entity == row.key.entity
            && count_owned_up_to(self.as_slice(), limit, row) > limit.most as usize
    }
}

fn is_one(entity: Entity, id: u128, row: &Row) -> bool
    ensures { result ≡ is_one entity id row.now }
{
    entity == row.key.entity && id == row.key.id
}

/// How many rows of the row's entity there are, up to the row in the order of keys.
fn count_up_to(rows: &[Row], row: &Row) -> usize
    ensures { result ≡ count_by (λ other. is_le (key_cmp other.key row.now.key) && is_entity row.now.key.entity other.key.entity) rows.now }
{
    rows.iter()
        .filter(|other| is_up_to(row, other) && row.key.entity == other.key.entity)
        .count()
}

/// How many live rows belong to the row's owner, up to the row in the order of keys: a walk over
/// all rows.
fn count_owned_up_to(rows: &[Row], limit: &OwnerLimit, row: &Row) -> usize
    ensures { result ≡ count_by (λ other. is_le (key_cmp other.key row.now.key) && (is_live other && is_of_owner limit.now row.now other)) rows.now }
{
    rows.iter()
        .filter(|other| is_owned_up_to(limit, row, other))
        .count()
}
