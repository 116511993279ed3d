//! Which products one category lists.
ghost use Rattle.std.specs.Prelude.{◌≡◌, ℕ, false, None, is_none, IfOk};
ghost use Rattle.shop_defs.specs.declared.entity.Entity.TheVariants as E;
ghost use Rattle.id_sets.specs.Sets.{has};
ghost use Rattle.shop_meanings.specs.Live.{live_key, live_row, AreOrderly};
ghost use Rattle.product_meanings.specs.Products.{own_links, with_above as the_ways};
ghost use Rattle.product_meanings.specs.Listings.{is_listed as lists_row, listed};
ghost use Rattle.idx_listing.specs.Relisting as spec;

use crate::below::linked_below;
use crate::numbers::ACTIVE;
use id_sets::{Ids, Pick, edited};
use product_rows::{ids_of, own_links, product, with_above};
use row_fields::is_set;
use shop_defs::{Entity, Key, NoMemory, Row};
use shop_operations::parent_id;
use shop_rows::Rows;
use std::alloc::Global;

/// Picks the products that the category lists.
#[derive(Drop)]
struct Listed<'a> {
    rows: &'a Rows,
    category: u128,
}

impl Pick for Listed<'_> {
    ghost use Rattle.shop_meanings.specs.Live.{AreOrderly};
    ghost use Rattle.idx_listing.specs.Relisting.{belongs};

    ghost picks = { λ p id. belongs p.rows.now.list p.category id };

    ghost IsReady = { λ p. AreOrderly p.rows.now.list };

    fn picks(&self, alloc: Global, id: u128) -> Result<bool, NoMemory> {
        match product(self.rows, id) {
            Some(row) => is_listed(alloc, self.rows, self.category, row),
            None => Ok(false),
        }
    }
}

/// Whether the category lists the product.
fn is_listed(alloc: Global, rows: &Rows, category: u128, row: &Row) -> Result<bool, NoMemory>
    requires { AreOrderly rows.now.list }
    ensures { IfOk result (λ answer. answer ≡ lists_row rows.now.list category row.now) }
{
    if !is_sold_by_itself(row) {
        return Ok(false);
    }
    let ways = linked_and_above(alloc, rows, row.key.id)?;
    Ok(ways.as_slice().contains(&category))
}

/// Whether the product is active and no variant.
#[tactic(auto, using(crate::proofs::FieldNumbers::numbers))]
fn is_sold_by_itself(row: &Row) -> bool
    ensures { result ≡ spec.is_sold_by_itself row.now }
{
    is_set(row, ACTIVE) && parent_id(row).is_none()
}

/// The categories that the product with that id is linked to itself, each with all above it.
pub(crate) fn linked_and_above(alloc: Global, rows: &Rows, id: u128) -> Result<Vec<u128>, NoMemory>
    requires { AreOrderly rows.now.list }
    ensures { IfOk result (λ ids. ids.items ≡ the_ways rows.now.list (own_links rows.now.list id)) }
{
    let links = own_links(alloc, rows, id)?;
    with_above(alloc, rows, links.as_slice())
}

/// The key of a live category.
pub(crate) fn category_key(id: u128) -> Key
    ensures { result ≡ live_key E.Category id }
{
    Key {
        entity: Entity::Category,
        version: 0,
        id,
        second: 0,
    }
}

/// Whether there is no such live category.
pub(crate) fn is_missing(rows: &Rows, category: u128) -> bool
    ensures { result ≡ is_none (live_row rows.now.list E.Category category) }
{
    rows.get(&category_key(category)).is_none()
}

/// The products that the category lists, of those that are linked to it or below it: none where there
/// is no such live category.
pub(crate) fn find_listed(
    alloc: Global,
    rows: &Rows,
    category: u128,
) -> Result<Option<Ids>, NoMemory>
    requires { AreOrderly rows.now.list }
    ensures { IfOk result (λ found. found ≡ listed rows.now.list category) }
{
    if is_missing(rows, category) {
        return Ok(None);
    }
    let none = Ids::none(alloc);
    let products = linked_below(alloc, rows, category)?;
    let found = edited_list(alloc, rows, category, &none, &products)?;
    Ok(Some(found.unwrap_or(none)))
}

/// The ids of which each of the products is one where the category lists it, and the others are as
/// before: `None` where these are the same.
pub(crate) fn edited_list(
    alloc: Global,
    rows: &Rows,
    category: u128,
    old: &Ids,
    products: &Ids,
) -> Result<Option<Ids>, NoMemory>
    requires { AreOrderly rows.now.list }
    ensures { IfOk result (spec.IsEdited rows.now.list category old.now products.now) }
{
    let found = edited(alloc, old, products, &Listed { rows, category })?;
    Ok(found)
}

/// The ids of all live categories.
pub(crate) fn category_ids(alloc: Global, rows: &Rows) -> Result<Vec<u128>, NoMemory>
    ensures { IfOk result (λ ids. (id : ℕ) → has ids.items id ≡ false → live_row rows.now.list E.Category id ≡ None) }
{
    let keys = rows.keys_of(alloc, Entity::Category, 0)?;
    let ids = ids_of(alloc, keys.as_slice())?;
    Ok(ids)
}
