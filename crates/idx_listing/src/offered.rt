//! What is offered for a product, by look-ups.
ghost use Rattle.std.specs.Prelude.{◌≡◌, ◌<◌, ◌^◌, ◌++◌, fold, length, IfOk, OnOk};
ghost use Rattle.std.specs.List.{filter_map};
ghost use Rattle.std.specs.Option.{option_to_list};
ghost use Rattle.shop_meanings.specs.Live.{AreOrderly};
ghost use Rattle.product_meanings.specs.Listings as spec;

use crate::numbers::{ACTIVE, GROSS};
use product_meanings::ListingPrice;
use product_rows::{parent_of, product};
use row_fields::is_set;
use shop_chain::effective;
use shop_defs::{Entity, List, NoMemory, Row, Value};
use shop_rows::Rows;
use std::alloc::Global;

/// At which price the product is listed: none where there is no such live product.
pub(crate) fn find_price(
    alloc: Global,
    rows: &Rows,
    id: u128,
) -> Result<Option<ListingPrice>, NoMemory>
    requires { AreOrderly rows.now.list }
    ensures { IfOk result (λ price. price ≡ spec.listing_price rows.now.list id) }
{
    if product(rows, id).is_none() {
        return Ok(None);
    }
    let offers = offers(alloc, rows, id)?;
    Ok(Some(price_of(offers.as_slice())))
}

/// What is offered for the product, by id.
fn offers(alloc: Global, rows: &Rows, id: u128) -> Result<Vec<(u128, i64)>, NoMemory>
    ensures { IfOk result (λ offers. offers.items ≡ spec.offers rows.now.list id) }
{
    let ids = sold_for(alloc, rows, id)?;
    offers_of(alloc, rows, ids.as_slice())
}

/// What is sold for the product: its variants, and where it has none itself.
#[tactic(auto, using(product_rows::proofs::Referring::own_first, product_rows::proofs::Referring::other_first))]
fn sold_for(alloc: Global, rows: &Rows, id: u128) -> Result<List<u128>, NoMemory>
    ensures { IfOk result (λ ids. ids ≡ spec.sold_for rows.now.list id) }
{
    let variants = rows.children_of(alloc, Entity::Product, 0, id)?;
    if variants.as_slice().is_empty() {
        let mut own = List::new(alloc);
        own.push(id)?;
        return Ok(own);
    }
    Ok(variants)
}

/// Those of the products that are offered.
fn offers_of(alloc: Global, rows: &Rows, ids: &[u128]) -> Result<Vec<(u128, i64)>, NoMemory>
    ensures { IfOk result (λ offers. offers.items ≡ filter_map (spec.offer rows.now.list) ids.now) }
{
    let mut offers = Vec::new(alloc);
    let mut rest = ids;
    while let [id, more @ ..] = rest {
        push_if_any(&mut offers, offer(rows, *id))?;
        rest = more;
    }
    Ok(offers)
}

fn push_if_any(offers: &mut Vec<(u128, i64)>, offer: Option<(u128, i64)>) -> Result<(), NoMemory>
    ensures { OnOk result (offers.new.items ≡ offers.old.items ++ option_to_list offer) }
{
    match offer {
        Some(offer) => Ok(offers.push(offer)?),
        None => Ok(()),
    }
}

/// The product at the gross price that counts for it: none where it isn't active or has no price.
fn offer(rows: &Rows, id: u128) -> Option<(u128, i64)>
    ensures { result ≡ spec.offer rows.now.list id }
{
    match product(rows, id) {
        Some(row) => offer_of(rows, row),
        None => None,
    }
}

#[tactic(auto, using(crate::proofs::FieldNumbers::numbers))]
fn offer_of(rows: &Rows, row: &Row) -> Option<(u128, i64)>
    ensures { result ≡ spec.offer_of rows.now.list row.now }
{
    if !is_set(row, ACTIVE) {
        return None;
    }
    match effective(row, parent_of(rows, row), GROSS) {
        Some(Value::Int(gross)) => Some((row.key.id, *gross)),
        _ => None,
    }
}

/// What offers come to.
fn price_of(offers: &[(u128, i64)]) -> ListingPrice
    requires { length offers.now < 2 ^ 32 }
    ensures { result ≡ spec.price_of offers.now }
{
    match offers {
        [] => ListingPrice {
            min: None,
            max: None,
            cheapest: None,
            count: 0,
        },
        [first, rest @ ..] => {
            let cheapest = cheapest_of(*first, rest);
            ListingPrice {
                min: Some(cheapest.1),
                max: Some(dearest_of(*first, rest).1),
                cheapest: Some(cheapest.0),
                count: offers.len() as u32,
            }
        }
    }
}

fn cheapest_of(first: (u128, i64), rest: &[(u128, i64)]) -> (u128, i64)
    ensures { result ≡ fold spec.cheaper first rest.now }
{
    let mut best = first;
    for offer in rest {
        best = cheaper(best, *offer);
    }
    best
}

fn cheaper(first: (u128, i64), second: (u128, i64)) -> (u128, i64)
    ensures { result ≡ spec.cheaper first second }
{
    if second.1 < first.1 { second } else { first }
}

fn dearest_of(first: (u128, i64), rest: &[(u128, i64)]) -> (u128, i64)
    ensures { result ≡ fold spec.dearer first rest.now }
{
    let mut best = first;
    for offer in rest {
        best = dearer(best, *offer);
    }
    best
}

fn dearer(first: (u128, i64), second: (u128, i64)) -> (u128, i64)
    ensures { result ≡ spec.dearer first second }
{
    if first.1 < second.1 { second } else { first }
}
