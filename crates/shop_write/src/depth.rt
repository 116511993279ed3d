//! How deep a written row and those below it stand.
ghost use Rattle.std.specs.Prelude.{◌≡◌, ◌==◌, ◌&&◌, ◌++◌, ◌≤◌, false, true, not, filter, find, length, Some, OnOk, IfOk, if◌then◌else◌};
ghost use Rattle.std.specs.Option.{option_copied, option_map};
ghost use Rattle.shop_defs.specs.declared.table.TheConstants.{REFERENCES};
ghost use Rattle.shop_operations.specs.Parents as spec;
ghost use Rattle.shop_operations.specs.References.{is_entity};
ghost use Rattle.shop_operations.specs.Upserts.{with_row, sinks};
ghost use Rattle.shop_write.specs.Steps.{AreIdsOf, other_children, next_ids, least_id, lesser_id, keeps_parent, is_same_id};
ghost use Rattle.shop_write.specs.Writes.{IsWrite, are_shallow, limit_of};

use crate::cycle::parent_of;
use crate::view::View;
use shop_defs::{Entity, LEVEL_LIMITS, LevelLimit, List, NoMemory, Row};
use shop_operations::parent_id;
use std::alloc::Global;

/// The greatest level that rows of the entity may have: `None` where they have no parents.
#[tactic(auto, unfolding(crate::specs::Writes::limit_of))]
fn level_limit(entity: Entity) -> Option<u32>
    ensures { result ≡ limit_of entity }
{
    match limit_in(&LEVEL_LIMITS, entity) {
        Some(limit) => Some(limit.most),
        None => None,
    }
}

fn limit_in(limits: &[LevelLimit], entity: Entity) -> Option<&LevelLimit>
    ensures { option_copied result ≡ find (λ limit. is_entity limit.entity entity) limits.entry.now }
{
    let mut rest = limits;
    while let [limit, more @ ..] = rest {
        if limit.entity == entity {
            return Some(limit);
        }
        rest = more;
    }
    None
}

/// The least id of the rows, of the written one and those below it, that stand too low. Want of
/// memory is the only error.
pub(crate) fn too_deep<V: View>(
    alloc: Global,
    view: &V,
    row: &Row,
) -> Result<Option<u128>, NoMemory>
    requires write { IsWrite (V.seen view.now) row.now }
    requires live { (V.seen view.now).version ≡ 0 → are_shallow (V.seen view.now).rows ≡ true }
    requires free { spec.is_below REFERENCES (with_row (V.seen view.now).rows row.now) row.now row.now ≡ false }
    ensures { let rows = with_row (V.seen view.now).rows row.now in IfOk result (λ id. id ≡ option_map (λ other. other.key.id) (find (sinks rows row.now) rows)) }
{
    match level_limit(row.key.entity) {
        None => Ok(None),
        Some(_) if is_live_and_kept(view, row) => Ok(None),
        Some(most) => least_too_deep(alloc, view, row, most),
    }
}

/// Whether a live row is written that has the parent that it had: then no row comes to stand lower than
/// before, and none is to be looked at. A draft's own row may stand under a parent that has sunk since it
/// was given.
fn is_live_and_kept<V: View>(view: &V, row: &Row) -> bool
    ensures { result ≡ (((V.seen view.now).version == 0) && keeps_parent (V.seen view.now).rows row.now) }
{
    view.version() == 0 && keeps_parent(view, row)
}

/// Whether the row that stands at the written one's place before has the same parent.
fn keeps_parent<V: View>(view: &V, row: &Row) -> bool
    ensures { result ≡ keeps_parent (V.seen view.now).rows row.now }
{
    match view.get(&row.key) {
        Some(before) => is_same_id(parent_id(before), parent_id(row)),
        None => false,
    }
}

fn is_same_id(id: Option<u128>, other: Option<u128>) -> bool
    ensures { result ≡ is_same_id id other }
{
    match (id, other) {
        (None, None) => true,
        (Some(id), Some(other)) => id == other,
        _ => false,
    }
}

fn least_too_deep<V: View>(
    alloc: Global,
    view: &V,
    row: &Row,
    most: u32,
) -> Result<Option<u128>, NoMemory>
    requires write { IsWrite (V.seen view.now) row.now }
    requires limited { limit_of row.now.key.entity ≡ Some most }
    requires free { spec.is_below REFERENCES (with_row (V.seen view.now).rows row.now) row.now row.now ≡ false }
    ensures { let rows = with_row (V.seen view.now).rows row.now in IfOk result (λ id. id ≡ option_map (λ other. other.key.id) (find (sinks rows row.now) rows)) }
{
    let ids = sinking_ids(alloc, view, row, most)?;
    Ok(least_of(ids.as_slice()))
}

/// The ids of the rows, of the written one and those below it, that stand too low: level by level, each
/// row once. There are no more levels than rows of the entity.
fn sinking_ids<V: View>(
    alloc: Global,
    view: &V,
    row: &Row,
    most: u32,
) -> Result<List<u128>, NoMemory>
    requires write { IsWrite (V.seen view.now) row.now }
    requires limited { limit_of row.now.key.entity ≡ Some most }
    requires free { spec.is_below REFERENCES (with_row (V.seen view.now).rows row.now) row.now row.now ≡ false }
    ensures { let rows = with_row (V.seen view.now).rows row.now in IfOk result (AreIdsOf rows (λ other. sinks rows row.now other ≡ true)) }
{
    let room = most - rows_above(view, row, most);
    let end = view.count(row.key.entity) as u128 + 3;
    let mut level = List::new(alloc);
    level.push(row.key.id)?;
    let mut sinking = List::new(alloc);
    let mut steps = 0;
    'levels: while steps < end && !level.is_empty() {
        add_low(&mut sinking, &level, room as u128 <= steps)?;
        level = next_level(alloc, view, row, &level)?;
        steps += 1;
    }
    Ok(sinking)
}

/// How many rows stand above the written one, as far as the limit goes.
fn rows_above<V: View>(view: &V, row: &Row, most: u32) -> u32
    requires { IsWrite (V.seen view.now) row.now }
    ensures value { let rows = with_row (V.seen view.now).rows row.now in result ≡ length (spec.walk REFERENCES rows most (spec.parent_row REFERENCES rows row.now)) }
    ensures few { result ≤ most }
{
    let mut at = parent_of(view, row, row);
    for count in 0..most {
        match at {
            Some(above) => at = parent_of(view, row, above),
            None => return count,
        }
    }
    most
}

/// The ids of the rows one level further down, the written row not among them.
fn next_level<V: View>(
    alloc: Global,
    view: &V,
    row: &Row,
    level: &List<u128>,
) -> Result<List<u128>, NoMemory>
    ensures { IfOk result (λ ids. ids ≡ next_ids (V.seen view.now).rows row.now level.now) }
{
    let mut next = List::new(alloc);
    let mut rest = level.as_slice();
    while let [id, more @ ..] = rest {
        add_children(alloc, view, row, *id, &mut next)?;
        rest = more;
    }
    Ok(next)
}

/// Adds the ids of the rows below the one with that id, the written row not among them.
fn add_children<V: View>(
    alloc: Global,
    view: &V,
    row: &Row,
    id: u128,
    ids: &mut List<u128>,
) -> Result<(), NoMemory>
    ensures { OnOk result (ids.new ≡ ids.old ++ other_children (V.seen view.now).rows row.now id) }
{
    let children = view.children_of(alloc, row.key.entity, id)?;
    add_others(ids, children.as_slice(), row.key.id)
}

/// Adds the ids that aren't the row's own.
fn add_others(ids: &mut List<u128>, children: &[u128], own: u128) -> Result<(), NoMemory>
    ensures { OnOk result (ids.new ≡ ids.old ++ filter (λ child. not (child == own)) children.now) }
{
    let mut rest = children;
    while let [child, more @ ..] = rest {
        if *child != own {
            ids.push(*child)?;
        }
        rest = more;
    }
    Ok(())
}

/// Adds the ids of a level, where it is a low one.
fn add_low(ids: &mut List<u128>, level: &List<u128>, is_low: bool) -> Result<(), NoMemory>
    ensures { OnOk result (ids.new ≡ (if is_low then ids.old ++ level.now else ids.old)) }
{
    if is_low {
        return add_all(ids, level.as_slice());
    }
    Ok(())
}

fn add_all(ids: &mut List<u128>, level: &[u128]) -> Result<(), NoMemory>
    ensures { OnOk result (ids.new ≡ ids.old ++ level.now) }
{
    let mut rest = level;
    while let [id, more @ ..] = rest {
        ids.push(*id)?;
        rest = more;
    }
    Ok(())
}

/// The least of the ids.
fn least_of(ids: &[u128]) -> Option<u128>
    ensures { result ≡ least_id ids.now }
{
    let mut least = None;
    let mut rest = ids;
    while let [id, more @ ..] = rest {
        least = lesser(least, *id);
        rest = more;
    }
    least
}

fn lesser(least: Option<u128>, id: u128) -> Option<u128>
    ensures { result ≡ lesser_id least id }
{
    match least {
        Some(least) => Some(least.min(id)),
        None => Some(id),
    }
}
