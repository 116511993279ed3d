//! Which products a delta affects.
ghost use Rattle.std.specs.Prelude.{◌≡◌, ◌++◌, ℕ, IfOk, OnOk};
ghost use Rattle.std.specs.List.{flat_map};
ghost use Rattle.shop_defs.specs.Rows.{change_rows};
ghost use Rattle.shop_rows.specs.Changing.{StandUnderTheirKeys, HasAscendingKeys};
ghost use Rattle.shop_meanings.specs.Live.{AreOrderly};
ghost use Rattle.product_meanings.specs.Products.{variant_ids};
ghost use Rattle.product_rows.specs.Affecting as spec;

use crate::links::linked_to;
use id_sets::Ids;
use idx_category::moved_and_below;
use shop_defs::{Delta, Entity, Key, NoMemory, Row};
use shop_rows::Rows;
use std::alloc::Global;

/// The products that a delta may affect, which leads from the rows before to those after: outside of
/// them a product has the same row before and after, the same parent, and stands in the same
/// categories. Want of memory is the only error.
pub fn affected_products(
    alloc: Global,
    before: &Rows,
    after: &Rows,
    delta: &Delta,
) -> Result<Ids, NoMemory>
    requires was_orderly { AreOrderly before.now.list }
    requires orderly { AreOrderly after.now.list }
    requires leads { after.now.list ≡ change_rows before.now.list delta.now.changes }
    requires keys { StandUnderTheirKeys delta.now.changes }
    requires once { HasAscendingKeys delta.now.changes }
    ensures { IfOk result (spec.IsOutside before.now.list after.now.list) }
{
    let ids = product_list(alloc, before, after, delta)?;
    Ok(Ids::from_vec(ids))
}

/// These products, in no order.
fn product_list(
    alloc: Global,
    before: &Rows,
    after: &Rows,
    delta: &Delta,
) -> Result<Vec<u128>, NoMemory>
    ensures { IfOk result (λ ids. ids.items ≡ spec.products_of before.now.list after.now.list delta.now.changes) }
{
    let mut ids = changed_products(alloc, delta.changes.as_slice())?;
    let categories = moved_and_below(alloc, before, after, delta)?;
    let linked = all_linked(alloc, after, categories.as_slice())?;
    ids.extend_from_slice(linked.as_slice())?;
    let variants = all_variants(alloc, after, ids.as_slice())?;
    ids.extend_from_slice(variants.as_slice())?;
    Ok(ids)
}

/// The products that came, went or changed, by their own row or by a link of their own.
fn changed_products(alloc: Global, changes: &[(Key, Option<Row>)]) -> Result<Vec<u128>, NoMemory>
    ensures { IfOk result (λ ids. ids.items ≡ spec.changed_products changes.now) }
{
    let mut ids = Vec::new(alloc);
    for change in changes {
        add_product(&mut ids, &change.0)?;
    }
    Ok(ids)
}

fn add_product(ids: &mut Vec<u128>, key: &Key) -> Result<(), NoMemory>
    ensures { OnOk result (ids.new.items ≡ ids.old.items ++ spec.product_at key.now) }
{
    if is_live_of(Entity::Product, key) || is_live_of(Entity::ProductCategory, key) {
        ids.push(key.id)?;
    }
    Ok(())
}

/// Whether the key is one of a live row of the entity. It takes no memory.
pub fn is_live_of(entity: Entity, key: &Key) -> bool
    ensures { result ≡ spec.is_live_of entity key.now }
{
    key.version == 0 && entity == key.entity
}

/// The products with a link of their own to one of the categories.
fn all_linked(alloc: Global, rows: &Rows, categories: &[u128]) -> Result<Vec<u128>, NoMemory>
    ensures { IfOk result (λ ids. ids.items ≡ flat_map (spec.linked_to rows.now.list) categories.now) }
{
    let mut ids = Vec::new(alloc);
    for category in categories {
        let linked = linked_to(alloc, rows, *category)?;
        ids.extend_from_slice(linked.as_slice())?;
    }
    Ok(ids)
}

/// The variants of the products. Want of memory is the only error.
pub fn all_variants(alloc: Global, rows: &Rows, products: &[u128]) -> Result<Vec<u128>, NoMemory>
    ensures { IfOk result (λ ids. ids.items ≡ flat_map (variant_ids rows.now.list) products.now) }
{
    let mut ids = Vec::new(alloc);
    for product in products {
        let variants = rows.children_of(alloc, Entity::Product, 0, *product)?;
        ids.extend_from_slice(variants.as_slice())?;
    }
    Ok(ids)
}
