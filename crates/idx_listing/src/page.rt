//! A page of what a category lists.
ghost use Rattle.std.specs.Prelude.{◌≡◌, ◌<◌, ◌^◌, ◌++◌, length, take, drop, IfOk, OnOk};
ghost use Rattle.std.specs.List.{filter_map};
ghost use Rattle.std.specs.Option.{option_to_list};
ghost use Rattle.product_meanings.specs.Listings.{page_of};
ghost use Rattle.idx_listing.specs.Shown as spec;

use product_meanings::{ListingPage, ListingPrice};
use renewed::Table;
use shop_defs::{List, NoMemory};
use std::alloc::Global;

/// A page shows at most so many products.
const ON_A_PAGE: usize = 24;

/// What the page of that number shows of a category that lists those products.
pub(crate) fn page_with(
    alloc: Global,
    prices: &Table<ListingPrice>,
    ids: &[u128],
    page: u32,
) -> Result<ListingPage, NoMemory>
    ensures { IfOk result (λ shown. length ids.now < 2 ^ 32 → shown ≡ spec.page_with prices.now page ids.now) }
{
    let items = priced_all(alloc, prices, ids_on(ids, page))?;
    Ok(ListingPage {
        total: total_of(ids),
        items: List::from_vec(items),
    })
}

/// How many ids there are. A shop has too few rows to reach the number's end.
fn total_of(ids: &[u128]) -> u32
    ensures { length ids.now < 2 ^ 32 → result ≡ length ids.now }
{
    u32::try_from(ids.len()).unwrap_or(u32::MAX)
}

/// The ids on the page of that number, counted from 1.
fn ids_on(ids: &[u128], page: u32) -> &[u128]
    ensures { result.now ≡ page_of page ids.now }
{
    let before = ON_A_PAGE * (page as usize).saturating_sub(1);
    at_most(behind(ids, before), ON_A_PAGE)
}

/// The ids behind so many.
fn behind(ids: &[u128], count: usize) -> &[u128]
    ensures { result.now ≡ drop count ids.now }
{
    if count < ids.len() {
        &ids[count..]
    } else {
        &[]
    }
}

/// The first ids, so many at most.
fn at_most(ids: &[u128], count: usize) -> &[u128]
    ensures { result.now ≡ take count ids.now }
{
    if count < ids.len() {
        &ids[..count]
    } else {
        ids
    }
}

/// Those of the products that have a price, each with it.
fn priced_all(
    alloc: Global,
    prices: &Table<ListingPrice>,
    ids: &[u128],
) -> Result<Vec<(u128, ListingPrice)>, NoMemory>
    ensures { IfOk result (λ items. items.items ≡ filter_map (spec.priced prices.now) ids.now) }
{
    let mut items = Vec::new(alloc);
    let mut rest = ids;
    while let [id, more @ ..] = rest {
        push_if_any(&mut items, priced(prices, *id))?;
        rest = more;
    }
    Ok(items)
}

fn push_if_any(
    items: &mut Vec<(u128, ListingPrice)>,
    item: Option<(u128, ListingPrice)>,
) -> Result<(), NoMemory>
    ensures { OnOk result (items.new.items ≡ items.old.items ++ option_to_list item) }
{
    match item {
        Some(item) => Ok(items.push(item)?),
        None => Ok(()),
    }
}

/// The product with its price.
fn priced(prices: &Table<ListingPrice>, id: u128) -> Option<(u128, ListingPrice)>
    ensures { result ≡ spec.priced prices.now id }
{
    match prices.get(id) {
        Some(price) => Some((id, *price)),
        None => None,
    }
}
