//! How many rows there may be, of an entity and of an owner.
ghost use Rattle.std.specs.Prelude.{◌≡◌, ◌+◌, false, nat_lt, find, is_none, if◌then◌else◌};
ghost use Rattle.std.specs.Option.{option_copied, option_map_or};
ghost use Rattle.shop_operations.specs.Upserts as spec;
ghost use Rattle.shop_rows.specs.Owners.{belongs};

use crate::view::View;
use shop_defs::{Broken, MOST_ROWS, OWNER_LIMITS, OwnerLimit, Row};
use shop_operations::{is_id, part_of};

/// The refusal of a written row that is one too many, of its entity or of its owner. It takes no
/// memory.
pub(crate) fn too_many<V: View>(view: &V, row: &Row) -> Option<Broken>
    ensures { result ≡ spec.too_many (V.seen view.now).hidden (spec.with_row (V.seen view.now).rows row.now) row.now }
{
    if is_entity_full(view, row) {
        return Some(Broken::TooMany {
            entity: row.key.entity,
            limit: MOST_ROWS,
        });
    }
    match full_limit(view, row, &OWNER_LIMITS) {
        Some(limit) => Some(Broken::TooMany {
            entity: row.key.entity,
            limit: limit.most,
        }),
        None => None,
    }
}

/// Whether the written row's entity has more rows than it may.
fn is_entity_full<V: View>(view: &V, row: &Row) -> bool
    ensures { result ≡ nat_lt MOST_ROWS (spec.count_of (V.seen view.now).hidden (spec.with_row (V.seen view.now).rows row.now) row.now.key.entity) }
{
    let is_new = view.get(&row.key).is_none();
    is_above(MOST_ROWS, view.count(row.key.entity), is_new)
}

/// The first of the limits than which the written row's owner has more rows.
fn full_limit<'a, V: View>(view: &V, row: &Row, limits: &'a [OwnerLimit]) -> Option<&'a OwnerLimit>
    ensures { option_copied result ≡ find (spec.owner_is_full (spec.with_row (V.seen view.now).rows row.now) row.now) limits.entry.now }
{
    let mut rest = limits;
    while let [limit, more @ ..] = rest {
        if is_owner_full(view, row, limit) {
            return Some(limit);
        }
        rest = more;
    }
    None
}

/// Whether the written row's owner has more rows than the limit allows.
fn is_owner_full<V: View>(view: &V, row: &Row, limit: &OwnerLimit) -> bool
    ensures { result ≡ spec.owner_is_full (spec.with_row (V.seen view.now).rows row.now) row.now limit.now }
{
    if limit.entity != row.key.entity {
        return false;
    }
    match part_of(limit.owner, row) {
        Some(owner) => {
            let is_new = !is_owned(limit, owner, view.get(&row.key));
            is_above(limit.most, view.count_owned(limit, owner), is_new)
        }
        None => false,
    }
}

/// Whether the row that was there before counts to the owner.
fn is_owned(limit: &OwnerLimit, owner: u128, before: Option<&Row>) -> bool
    ensures { result ≡ option_map_or (belongs limit.now owner) (option_copied before.entry) false }
{
    match before {
        Some(row) => limit.entity == row.key.entity && is_id(part_of(limit.owner, row), owner),
        None => false,
    }
}

/// Whether so many, or one more of them, are more than the most that there may be.
fn is_above(most: u32, count: usize, is_one_more: bool) -> bool
    ensures { result ≡ nat_lt most (count + (if is_one_more then 1 else 0)) }
{
    if is_one_more {
        most as usize <= count
    } else {
        (most as usize) < count
    }
}
