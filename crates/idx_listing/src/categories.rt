//! Which categories may list other products after a delta.
ghost use Rattle.std.specs.Prelude.{◌≡◌, ◌++◌, IfOk, OnOk};
ghost use Rattle.std.specs.List.{flat_map};
ghost use Rattle.shop_defs.specs.Rows.{change_rows};
ghost use Rattle.shop_rows.specs.Changing.{StandUnderTheirKeys, HasAscendingKeys};
ghost use Rattle.shop_meanings.specs.Live.{AreOrderly};
ghost use Rattle.idx_listing.specs.Relisting as spec;

use crate::lists::linked_and_above;
use id_sets::Ids;
use product_rows::{affected_products, is_live_of};
use shop_defs::{Delta, Entity, Key, NoMemory, Row};
use shop_rows::Rows;
use std::alloc::Global;

/// What a delta may affect of the lists of categories. Contracts see both as lists that ascend.
#[derive(Drop)]
pub struct Affected {
    /// The products that a category may list from now on or no longer.
    pub products: Ids,
    /// The categories that may list other products, or which come or go.
    pub categories: Ids,
}

/// What the delta may affect, which leads from the rows before to those after: the affected products,
/// and the categories that came, went or changed or to which, or to one below which, one of these has
/// or had a link of its own. Want of memory is the only error.
pub(crate) fn find_affected(
    alloc: Global,
    before: &Rows,
    after: &Rows,
    delta: &Delta,
) -> Result<Affected, NoMemory>
    requires was_orderly { AreOrderly before.now.list }
    requires orderly { AreOrderly after.now.list }
    requires leads { after.now.list ≡ change_rows before.now.list delta.now.changes }
    requires keys { StandUnderTheirKeys delta.now.changes }
    requires once { HasAscendingKeys delta.now.changes }
    ensures { IfOk result (λ affected. spec.IsOutside before.now.list after.now.list affected.products affected.categories) }
{
    let products = affected_products(alloc, before, after, delta)?;
    let mut categories = changed_categories(alloc, delta.changes.as_slice())?;
    let stood_in = all_stood_in(alloc, before, after, products.as_slice())?;
    categories.extend_from_slice(stood_in.as_slice())?;
    Ok(Affected {
        products,
        categories: Ids::from_vec(categories),
    })
}

/// The categories whose own row came, went or changed.
fn changed_categories(alloc: Global, changes: &[(Key, Option<Row>)]) -> Result<Vec<u128>, NoMemory>
    ensures { IfOk result (λ ids. ids.items ≡ spec.changed_categories changes.now) }
{
    let mut ids = Vec::new(alloc);
    for change in changes {
        if is_live_of(Entity::Category, &change.0) {
            ids.push(change.0.id)?;
        }
    }
    Ok(ids)
}

/// The categories to which, or to one below which, one of the products has a link of its own, before or
/// after.
fn all_stood_in(
    alloc: Global,
    before: &Rows,
    after: &Rows,
    products: &[u128],
) -> Result<Vec<u128>, NoMemory>
    requires was_orderly { AreOrderly before.now.list }
    requires orderly { AreOrderly after.now.list }
    ensures { IfOk result (λ ids. ids.items ≡ flat_map (spec.stood_in before.now.list after.now.list) products.now) }
{
    let mut ids = Vec::new(alloc);
    for product in products {
        add_stood_in(alloc, before, after, *product, &mut ids)?;
    }
    Ok(ids)
}

#[tactic(auto, using(std::proofs::Common::append_assoc))]
fn add_stood_in(
    alloc: Global,
    before: &Rows,
    after: &Rows,
    id: u128,
    ids: &mut Vec<u128>,
) -> Result<(), NoMemory>
    requires was_orderly { AreOrderly before.now.list }
    requires orderly { AreOrderly after.now.list }
    ensures { OnOk result (ids.new.items ≡ ids.old.items ++ spec.stood_in before.now.list after.now.list id) }
{
    let were = linked_and_above(alloc, before, id)?;
    let are = linked_and_above(alloc, after, id)?;
    ids.extend_from_slice(were.as_slice())?;
    ids.extend_from_slice(are.as_slice())?;
    Ok(())
}
