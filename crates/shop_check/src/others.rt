//! The rows that a row stands among, and what is looked up in them.
ghost use Rattle.std.specs.Prelude.{◌≡◌, ◌&&◌, true, find, nat_lt};
ghost use Rattle.std.specs.List.{list_any};
ghost use Rattle.std.specs.Option.{option_copied};
ghost use Rattle.std.specs.Ordering.{is_lt, is_le};
ghost use Rattle.shop_defs.specs.Keys.{key_cmp};
ghost use Rattle.shop_operations.specs.References.{is_live, is_one, live};
ghost use Rattle.shop_operations.specs.Upserts as upserts;
ghost use Rattle.shop_rows.specs.Lookups.{count_rows};
ghost use Rattle.shop_check.specs.Found.{are_formed, has_one_part};
ghost use Rattle.shop_check.specs.Standing.{up_to};

use shop_defs::{Entity, OwnerLimit, Reference, Row};
use shop_operations::{agree_in, is_id, part_of};

/// The rows that a row stands among.
pub(crate) trait Others {
    ghost use Rattle.std.specs.Prelude.{List};
    ghost use Rattle.shop_defs.specs.declared.row.Row.{Row};

    ghost rows: { Self → List Row };

    /// The live row with that id, of an entity whose keys have one part.
    fn one<'a>(&'a self, entity: Entity, id: u128) -> Option<&'a Row>
        requires formed { are_formed (rows self.now) ≡ true }
        requires one { has_one_part entity ≡ true }
        ensures { option_copied result ≡ find (is_one entity id) (live (rows self.entry.now)) };

    /// Whether no live row that the row names by the reference is a node of another tree.
    fn is_of_tree(&self, reference: &Reference, row: &Row) -> bool
        requires formed { are_formed (rows self.now) ≡ true }
        requires one { has_one_part reference.now.of ≡ true }
        ensures { result ≡ upserts.is_of_tree reference.now (live (rows self.now)) row.now };

    /// Whether a live row with a lower key has the same unique fields as the live row.
    fn has_lower_twin(&self, row: &Row) -> bool
        requires { is_live row.now ≡ true }
        ensures { result ≡ list_any (λ other. is_lt (key_cmp other.key row.now.key) && upserts.is_twin row.now other) (live (rows self.now)) };

    /// Whether there are more rows of the row's entity than so many up to the row, in the order of
    /// keys.
    fn are_more_up_to(&self, row: &Row, most: usize) -> bool
        ensures { result ≡ nat_lt most (count_rows (up_to (rows self.now) row.now) row.now.key.entity) };

    /// Whether up to the row its owner has more live rows than the limit allows.
    fn is_owner_full(&self, limit: &OwnerLimit, row: &Row) -> bool
        ensures { result ≡ upserts.owner_is_full (live (up_to (rows self.now) row.now)) row.now limit.now };
}

pub(crate) fn is_live(row: &Row) -> bool
    ensures { result ≡ is_live row.now }
{
    row.key.version == 0
}

/// Whether the rows are nodes of one tree, where the reference is one between nodes.
pub(crate) fn agree_within(within: Option<u8>, row: &Row, other: &Row) -> bool
    ensures { result ≡ upserts.agree_within within row.now other.now }
{
    match within {
        None => true,
        Some(number) => agree_in(number, row, other),
    }
}

/// Whether the other row is of the limit's entity, and belongs to the same owner as the row.
pub(crate) fn is_of_owner(limit: &OwnerLimit, row: &Row, other: &Row) -> bool
    ensures { result ≡ upserts.is_of_owner limit.now row.now other.now }
{
    limit.entity == other.key.entity
        && is_same_id(part_of(limit.owner, row), part_of(limit.owner, other))
}

fn is_same_id(id: Option<u128>, other: Option<u128>) -> bool
    ensures { result ≡ upserts.same_id id other }
{
    match id {
        Some(id) => is_id(other, id),
        None => false,
    }
}

/// Whether the other is live, belongs to the row's owner, and isn't above the row.
pub(crate) fn is_owned_up_to(limit: &OwnerLimit, row: &Row, other: &Row) -> bool
    ensures { result ≡ (is_le (key_cmp other.now.key row.now.key) && (is_live other.now && upserts.is_of_owner limit.now row.now other.now)) }
{
    is_up_to(row, other) && is_live(other) && is_of_owner(limit, row, other)
}

/// Whether the other's key isn't above the row's.
pub(crate) fn is_up_to(row: &Row, other: &Row) -> bool
    ensures { result ≡ is_le (key_cmp other.now.key row.now.key) }
{
    other.key.order(&row.key).is_le()
}
