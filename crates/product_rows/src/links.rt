//! Links of products to categories.
ghost use Rattle.std.specs.Prelude.{◌≡◌, ◌++◌, ◌∷◌, [], map, IfOk, OnOk};
ghost use Rattle.shop_defs.specs.declared.entity.Entity.TheVariants as E;
ghost use Rattle.shop_meanings.specs.Live.{live_key, AreOrderly};
ghost use Rattle.product_meanings.specs.Products as spec;
ghost use Rattle.product_rows.specs.Affecting.{linked_to as the_linked};

use crate::found::{ids_of, product_key};
use idx_category::category_path;
use shop_defs::{Entity, Key, NoMemory, Row};
use shop_operations::parent_id;
use shop_rows::Rows;
use std::alloc::Global;

/// The ids of the categories that the product with that id is linked to itself. Want of memory is the
/// only error, here and below.
#[tactic(auto, using(crate::proofs::Referring::links_found))]
pub fn own_links(alloc: Global, rows: &Rows, id: u128) -> Result<Vec<u128>, NoMemory>
    ensures { IfOk result (λ links. links.items ≡ spec.own_links rows.now.list id) }
{
    let keys = rows.referrers_by(alloc, Entity::ProductCategory, 0, &product_key(id))?;
    seconds_of(alloc, keys.as_slice())
}

/// The ids of the products with a link of their own to the category.
#[tactic(auto, using(crate::proofs::Referring::linked_found))]
pub(crate) fn linked_to(alloc: Global, rows: &Rows, category: u128) -> Result<Vec<u128>, NoMemory>
    ensures { IfOk result (λ ids. ids.items ≡ the_linked rows.now.list category) }
{
    let keys = rows.referrers_by(alloc, Entity::ProductCategory, 0, &category_key(category))?;
    ids_of(alloc, keys.as_slice())
}

fn category_key(id: u128) -> Key
    ensures { result ≡ live_key E.Category id }
{
    Key {
        entity: Entity::Category,
        version: 0,
        id,
        second: 0,
    }
}

/// The second parts of keys.
fn seconds_of(alloc: Global, keys: &[Key]) -> Result<Vec<u128>, NoMemory>
    ensures { IfOk result (λ ids. ids.items ≡ map (λ key. key.second) keys.now) }
{
    let mut ids = Vec::new(alloc);
    for key in keys {
        ids.push(key.second)?;
    }
    Ok(ids)
}

/// The categories that a product stands in: those that it is linked to, by the links that count for
/// it, each with all above it.
pub fn categories(alloc: Global, rows: &Rows, row: &Row) -> Result<Vec<u128>, NoMemory>
    requires { AreOrderly rows.now.list }
    ensures { IfOk result (λ ids. ids.items ≡ spec.categories rows.now.list row.now) }
{
    let links = links_by(alloc, rows, row.key.id, parent_id(row))?;
    with_above(alloc, rows, links.as_slice())
}

/// The links that count for the product with that id and that parent.
#[tactic(auto, using(crate::proofs::Referring::own_first, crate::proofs::Referring::other_first))]
fn links_by(
    alloc: Global,
    rows: &Rows,
    id: u128,
    parent: Option<u128>,
) -> Result<Vec<u128>, NoMemory>
    ensures { IfOk result (λ links. links.items ≡ spec.links_by rows.now.list id parent) }
{
    let own = own_links(alloc, rows, id)?;
    match parent {
        Some(parent) if own.is_empty() => own_links(alloc, rows, parent),
        _ => Ok(own),
    }
}

/// Categories, each with all above it.
pub fn with_above(alloc: Global, rows: &Rows, ids: &[u128]) -> Result<Vec<u128>, NoMemory>
    requires { AreOrderly rows.now.list }
    ensures { IfOk result (λ all. all.items ≡ spec.with_above rows.now.list ids.now) }
{
    let mut all = Vec::new(alloc);
    for id in ids {
        add_with_above(alloc, rows, *id, &mut all)?;
    }
    Ok(all)
}

#[tactic(auto, using(std::proofs::Common::append_assoc))]
fn add_with_above(alloc: Global, rows: &Rows, id: u128, all: &mut Vec<u128>) -> Result<(), NoMemory>
    requires { AreOrderly rows.now.list }
    ensures { OnOk result (all.new.items ≡ all.old.items ++ spec.with_above rows.now.list (id ∷ [])) }
{
    let path = category_path(alloc, rows, id)?;
    all.push(id)?;
    all.extend_from_slice(path.as_slice())?;
    Ok(())
}
