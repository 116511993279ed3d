//! The rows that a cart's prices are made of.
ghost use Rattle.std.specs.Prelude.{◌≡◌, Some, option_and_then, IfOk, MatchResult};
ghost use Rattle.std.specs.Option.{option_copied};
ghost use Rattle.shop_defs.specs.declared.entity.Entity.TheVariants as E;
ghost use Rattle.shop_defs.specs.declared.words.FieldName.TheVariants as N;
ghost use Rattle.row_fields.specs.Fields.{id_at as id_of, number_of};
ghost use Rattle.cart_price.specs.Lent.{cart_rows, lent_rows};
ghost use Rattle.cart_collect.specs.Collected as spec;
ghost use Rattle.cart_collect.specs.Finding as finding;
ghost use Rattle.cart_collect.specs.Ordered.{AreInOrder};

use crate::fault::CollectFault;
use crate::finding::{in_order, live_at, referring_rows};
use crate::line::lent_lines;
use crate::numbers::{CART_LANGUAGE, CART_METHOD, METHOD_TAX};
use crate::ordering::{lines_of, promotions_of};
use crate::promotion::lent_promotions;
use cart_price::CartData;
use row_fields::id_at;
use shop_chain::{Chain, SYSTEM_LANGUAGE, chain_of};
use shop_defs::{Entity, List, NoMemory, Row};
use shop_rows::Rows;
use std::alloc::Global;

/// The live cart with that id, with the rows that its prices are made of: its lines by position and
/// then by id, each with its product, that product's parent, the price rows and the tax that count for
/// it and its name; the codes that were given; all promotions by priority from the highest on and then
/// by id, with their discounts; the shipping method with its tax and its prices.
///
/// Every row is lent and none is copied: they stay as they are while the data lives. A line whose
/// product isn't there has no other rows. `NoSuchCart` exactly where there is no such cart; want of
/// memory is the only other error.
pub fn collect<'a>(alloc: Global, rows: &'a Rows, cart: u128) -> Result<CartData<'a>, CollectFault>
    ensures value { MatchResult result (λ lent. spec.collected rows.entry.now.list cart ≡ Some (cart_rows lent)) (spec.IsMissing rows.entry.now.list cart) }
    // The lines and the promotions in words.
    ensures order { IfOk result (λ lent. AreInOrder rows.entry.now.list (cart_rows lent)) }
{
    in_order(rows);
    match live_at(rows, Entity::Cart, Some(cart)) {
        Some(row) => Ok(lent_cart(alloc, rows, row)?),
        None => Err(CollectFault::NoSuchCart),
    }
}

#[tactic(auto, using(crate::proofs::FieldNumbers::numbers))]
fn lent_cart<'a>(alloc: Global, rows: &'a Rows, cart: &'a Row) -> Result<CartData<'a>, NoMemory>
    ensures { IfOk result (λ lent. cart_rows lent ≡ spec.cart_data rows.entry.now.list cart.entry.now) }
{
    let chain = languages_of(rows, cart);
    let lines = lines_of(alloc, rows, cart.key.id)?;
    let lines = lent_lines(alloc, rows, &chain, lines.as_slice())?;
    let codes = codes_of(alloc, rows, cart.key.id)?;
    let promotions = promotions_of(alloc, rows)?;
    let promotions = lent_promotions(alloc, rows, promotions.as_slice())?;
    let method = live_at(rows, Entity::ShippingMethod, id_at(cart, CART_METHOD));
    let shipping = shipping_of(alloc, rows, method)?;
    Ok(CartData {
        cart,
        lines,
        codes,
        promotions,
        method,
        method_tax: live_at(rows, Entity::Tax, tax_of(method)),
        shipping,
        currency: None,
    })
}

/// The languages that names are looked for in.
#[tactic(auto, using(crate::proofs::FieldNumbers::numbers))]
fn languages_of(rows: &Rows, cart: &Row) -> Chain
    ensures { result ≡ spec.languages_of rows.now.list cart.now }
{
    chain_of(rows, id_at(cart, CART_LANGUAGE).unwrap_or(SYSTEM_LANGUAGE))
}

/// The codes that were given for the cart with that id.
#[tactic(auto, using(crate::proofs::Naming::found))]
fn codes_of<'a>(alloc: Global, rows: &'a Rows, cart: u128) -> Result<List<&'a Row>, NoMemory>
    ensures { IfOk result (λ codes. lent_rows codes ≡ finding.naming rows.entry.now.list E.CartCode N.Cart cart) }
{
    in_order(rows);
    referring_rows(alloc, rows, Entity::CartCode, Entity::Cart, cart)
}

/// The price rows of the method, if there is one.
fn shipping_of<'a>(
    alloc: Global,
    rows: &'a Rows,
    method: Option<&Row>,
) -> Result<List<&'a Row>, NoMemory>
    ensures { IfOk result (λ prices. lent_rows prices ≡ spec.shipping_of rows.entry.now.list (option_copied method.entry)) }
{
    match method {
        Some(method) => prices_of(alloc, rows, method.key.id),
        None => Ok(List::new(alloc)),
    }
}

#[tactic(auto, using(crate::proofs::Naming::found))]
fn prices_of<'a>(alloc: Global, rows: &'a Rows, method: u128) -> Result<List<&'a Row>, NoMemory>
    ensures { IfOk result (λ prices. lent_rows prices ≡ finding.naming rows.entry.now.list E.ShippingPrice N.Method method) }
{
    in_order(rows);
    referring_rows(
        alloc,
        rows,
        Entity::ShippingPrice,
        Entity::ShippingMethod,
        method,
    )
}

/// The id of the method's tax.
#[tactic(auto, using(crate::proofs::FieldNumbers::numbers))]
fn tax_of(method: Option<&Row>) -> Option<u128>
    ensures { result ≡ option_and_then (λ row. id_of row (number_of E.ShippingMethod N.Tax)) (option_copied method.entry) }
{
    match method {
        Some(method) => id_at(method, METHOD_TAX),
        None => None,
    }
}
