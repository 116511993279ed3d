//! What replies say of products: which are members of a stream, and at which prices listings show them.
ghost use Rattle.std.specs.Prelude.{◌≡◌, ◌++◌, OnOk};
ghost use Rattle.serde_json.specs.Written.{compact_text};
ghost use Rattle.reply_json.specs.Products as spec;
ghost use Rattle.reply_json.specs.Tokens.{member_tokens, rest_of_array, value_tokens};

use crate::body::Body;
use crate::tree::put_ids;
use product_meanings::{ListingPage, ListingPrice};
use shop_defs::NoMemory;
use std::alloc::Global;
use std::mem;

/// Prints the body that says which products are members of a stream by the rows after so many entries,
/// into memory that the caller keeps for this, as `seen_text` does: `{"front":N,"members":[I..]}`. Want of
/// memory is the only error.
pub fn members_text(
    alloc: Global,
    room: &mut Vec<u8>,
    front: u64,
    members: &[u128],
) -> Result<(), NoMemory>
    ensures { OnOk result (room.new.items ≡ compact_text (spec.members_data front members.now)) }
{
    let mut out = Body::over(mem::replace(room, Vec::new(alloc)));
    put_members(&mut out, front, members)?;
    *room = out.into_room();
    Ok(())
}

fn put_members(out: &mut Body, front: u64, members: &[u128]) -> Result<(), NoMemory>
    ensures { OnOk result (out.new ≡ out.old ++ value_tokens (spec.members_data front members.now)) }
{
    out.begin_object()?;
    out.front_member("front", front)?;
    out.name("members")?;
    out.begin_array()?;
    put_ids(out, members)?;
    out.end_object()
}

/// Prints the body that says at which price a product is listed by the rows after so many entries, into
/// memory that the caller keeps for this: `{"cheapest":I,"count":N,"front":N,"max":N,"min":N}`, with null
/// where there is none. Prices are in minor units. Want of memory is the only error.
pub fn price_text(
    alloc: Global,
    room: &mut Vec<u8>,
    front: u64,
    price: &ListingPrice,
) -> Result<(), NoMemory>
    ensures { OnOk result (room.new.items ≡ compact_text (spec.price_data front price.now)) }
{
    let mut out = Body::over(mem::replace(room, Vec::new(alloc)));
    put_price(&mut out, front, price)?;
    *room = out.into_room();
    Ok(())
}

fn put_price(out: &mut Body, front: u64, price: &ListingPrice) -> Result<(), NoMemory>
    ensures { OnOk result (out.new ≡ out.old ++ value_tokens (spec.price_data front price.now)) }
{
    out.begin_object()?;
    put_id(out, "cheapest", price.cheapest)?;
    out.count_member("count", price.count)?;
    out.front_member("front", front)?;
    put_number(out, "max", price.max)?;
    put_number(out, "min", price.min)?;
    out.end_object()
}

/// Puts a member that is an id, or null where there is none.
fn put_id(out: &mut Body, name: &str, id: Option<u128>) -> Result<(), NoMemory>
    ensures { OnOk result (out.new ≡ out.old ++ member_tokens name.now (spec.id_or_null id)) }
{
    out.name(name)?;
    match id {
        Some(id) => out.id(id),
        None => out.null(),
    }
}

/// Puts a member that is a number, or null where there is none.
fn put_number(out: &mut Body, name: &str, amount: Option<i64>) -> Result<(), NoMemory>
    ensures { OnOk result (out.new ≡ out.old ++ member_tokens name.now (spec.number_or_null amount)) }
{
    out.name(name)?;
    match amount {
        Some(amount) => out.number(amount),
        None => out.null(),
    }
}

/// Prints the body of a page of what a category lists by the rows after so many entries, into memory that
/// the caller keeps for this: `{"front":N,"items":[..],"total":N}`, each item
/// `{"cheapest":I,"count":N,"id":I,"max":N,"min":N}` with null where there is none. Prices are in minor
/// units. Want of memory is the only error.
pub fn page_text(
    alloc: Global,
    room: &mut Vec<u8>,
    front: u64,
    page: &ListingPage,
) -> Result<(), NoMemory>
    ensures { OnOk result (room.new.items ≡ compact_text (spec.page_data front page.now)) }
{
    let mut out = Body::over(mem::replace(room, Vec::new(alloc)));
    put_page(&mut out, front, page)?;
    *room = out.into_room();
    Ok(())
}

fn put_page(out: &mut Body, front: u64, page: &ListingPage) -> Result<(), NoMemory>
    ensures { OnOk result (out.new ≡ out.old ++ value_tokens (spec.page_data front page.now)) }
{
    out.begin_object()?;
    out.front_member("front", front)?;
    out.name("items")?;
    out.begin_array()?;
    put_items(out, page.items.as_slice())?;
    out.count_member("total", page.total)?;
    out.end_object()
}

/// Puts the products of a page with their prices, and the end of their array.
fn put_items(out: &mut Body, items: &[(u128, ListingPrice)]) -> Result<(), NoMemory>
    ensures { OnOk result (out.new ≡ out.old ++ rest_of_array (spec.page_items items.now)) }
{
    for item in items {
        put_item(out, item)?;
    }
    out.end_array()
}

fn put_item(out: &mut Body, item: &(u128, ListingPrice)) -> Result<(), NoMemory>
    ensures { OnOk result (out.new ≡ out.old ++ value_tokens (spec.item_data item.now)) }
{
    let (id, price) = item;
    out.begin_object()?;
    put_id(out, "cheapest", price.cheapest)?;
    out.count_member("count", price.count)?;
    out.id_member("id", *id)?;
    put_number(out, "max", price.max)?;
    put_number(out, "min", price.min)?;
    out.end_object()
}
