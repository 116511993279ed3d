//! The products that are linked to a category or to one below it.
ghost use Rattle.std.specs.Prelude.{◌≡◌, ◌++◌, ℕ, IfOk, OnOk, map};
ghost use Rattle.std.specs.List.{flat_map};
ghost use Rattle.id_sets.specs.Sets.{has};
ghost use Rattle.idx_category.specs.Touching.{layers};
ghost use Rattle.shop_meanings.specs.Categories.{children_of};
ghost use Rattle.product_rows.specs.Affecting.{linked_to as the_linked};
ghost use Rattle.idx_listing.specs.Relisting as spec;

use crate::lists::category_key;
use id_sets::Ids;
use product_rows::ids_of;
use shop_defs::{Entity, NoMemory};
use shop_rows::Rows;
use std::alloc::Global;

/// A category has at most so many levels.
const MOST_LEVELS: u32 = 32;

/// The products with a link of their own to the category or to one below it.
pub(crate) fn linked_below(alloc: Global, rows: &Rows, category: u128) -> Result<Ids, NoMemory>
    ensures { IfOk result (λ ids. (id : ℕ) → has ids id ≡ has (spec.linked_below rows.now.list category) id) }
{
    let mut ids = Vec::new(alloc);
    add_linked(alloc, rows, &[category], MOST_LEVELS, &mut ids)?;
    Ok(Ids::from_vec(ids))
}

/// Puts the products that are linked to the categories, or to those below them, behind the ids: so many
/// levels down.
#[tactic(auto, using(crate::proofs::Ways::linked_zero, crate::proofs::Ways::linked_step, std::proofs::Common::append_assoc))]
fn add_linked(
    alloc: Global,
    rows: &Rows,
    level: &[u128],
    steps: u32,
    ids: &mut Vec<u128>,
) -> Result<(), NoMemory>
    ensures { OnOk result (ids.new.items ≡ ids.old.items ++ flat_map (the_linked rows.now.list) (layers (children_of rows.now.list) steps level.now)) }
{
    let linked = all_linked(alloc, rows, level)?;
    ids.extend_from_slice(linked.as_slice())?;
    if steps == 0 {
        return Ok(());
    }
    let below = next_level(alloc, rows, level)?;
    add_linked(alloc, rows, below.as_slice(), steps - 1, ids)
}

/// The products that are linked to the categories.
fn all_linked(alloc: Global, rows: &Rows, categories: &[u128]) -> Result<Vec<u128>, NoMemory>
    ensures { IfOk result (λ ids. ids.items ≡ flat_map (the_linked rows.now.list) categories.now) }
{
    let mut ids = Vec::new(alloc);
    for category in categories {
        let linked = linked_to(alloc, rows, *category)?;
        ids.extend_from_slice(linked.as_slice())?;
    }
    Ok(ids)
}

/// The products that are linked to the category itself.
#[tactic(auto, using(product_rows::proofs::Referring::linked_found))]
fn linked_to(alloc: Global, rows: &Rows, category: u128) -> Result<Vec<u128>, NoMemory>
    ensures { IfOk result (λ ids. ids.items ≡ the_linked rows.now.list category) }
{
    let keys = rows.referrers_by(alloc, Entity::ProductCategory, 0, &category_key(category))?;
    ids_of(alloc, keys.as_slice())
}

/// The categories right below these.
fn next_level(alloc: Global, rows: &Rows, level: &[u128]) -> Result<Vec<u128>, NoMemory>
    ensures { IfOk result (λ below. below.items ≡ flat_map (children_of rows.now.list) level.now) }
{
    let mut below = Vec::new(alloc);
    for id in level {
        let children = rows.children_of(alloc, Entity::Category, 0, *id)?;
        below.extend_from_slice(children.as_slice())?;
    }
    Ok(below)
}
