//! Of which products a delta may change the price.
ghost use Rattle.std.specs.Prelude.{◌≡◌, ◌++◌, IfOk, OnOk};
ghost use Rattle.std.specs.Option.{option_copied};
ghost use Rattle.idx_category.specs.Touching.{parent_ids};
ghost use Rattle.idx_listing.specs.Repricing as spec;

use product_rows::{all_variants, is_live_of};
use shop_defs::{Delta, Entity, Key, List, NoMemory, Row};
use shop_operations::parent_id;
use shop_rows::Rows;
use std::alloc::Global;

/// The products whose own row came, went or changed, their variants, and their parents before and
/// after.
pub(crate) fn touched_ids(
    alloc: Global,
    before: &Rows,
    after: &Rows,
    delta: &Delta,
) -> Result<List<u128>, NoMemory>
    ensures { IfOk result (λ ids. ids ≡ spec.repriced before.now.list after.now.list delta.now.changes) }
{
    let mut ids = changed_ids(alloc, delta.changes.as_slice())?;
    let variants = all_variants(alloc, after, ids.as_slice())?;
    let parents = parent_list(alloc, before, after, delta.changes.as_slice())?;
    ids.extend_from_slice(variants.as_slice())?;
    ids.extend_from_slice(parents.as_slice())?;
    Ok(List::from_vec(ids))
}

fn changed_ids(alloc: Global, changes: &[(Key, Option<Row>)]) -> Result<Vec<u128>, NoMemory>
    ensures { IfOk result (λ ids. ids.items ≡ spec.changed changes.now) }
{
    let mut ids = Vec::new(alloc);
    for change in changes {
        if is_live_of(Entity::Product, &change.0) {
            ids.push(change.0.id)?;
        }
    }
    Ok(ids)
}

fn parent_list(
    alloc: Global,
    before: &Rows,
    after: &Rows,
    changes: &[(Key, Option<Row>)],
) -> Result<Vec<u128>, NoMemory>
    ensures { IfOk result (λ ids. ids.items ≡ spec.parents before.now.list after.now.list changes.now) }
{
    let mut ids = Vec::new(alloc);
    for change in changes {
        if is_live_of(Entity::Product, &change.0) {
            add_parent(&mut ids, before.get(&change.0))?;
            add_parent(&mut ids, after.get(&change.0))?;
        }
    }
    Ok(ids)
}

/// Puts the parent that the row names at the end, if there is one.
fn add_parent(ids: &mut Vec<u128>, row: Option<&Row>) -> Result<(), NoMemory>
    ensures { OnOk result (ids.new.items ≡ ids.old.items ++ parent_ids (option_copied row.entry)) }
{
    if let Some(row) = row {
        if let Some(id) = parent_id(row) {
            ids.push(id)?;
        }
    }
    Ok(())
}
