//! The pieces of products that lines hold, and how they are taken and given back.
ghost use Rattle.std.specs.Prelude.{◌≡◌, ◌≤◌, ◌++◌, ◌∷◌, [], map, find, IfOk, OnOk};
ghost use Rattle.std.specs.Option.{option_map};
ghost use Rattle.shop_order.specs.Checked.{AreChecked};
ghost use Rattle.shop_order.specs.Wants as spec;

use crate::keys::live_key;
use crate::stock::{Move, adjusted, available, moved, stock_row};
use shop_defs::{Broken, Entity, Key, List, NoMemory, Row};
use shop_rows::Rows;
use std::alloc::Global;

/// The pieces of a product that a line holds.
#[derive(Drop, Clone, Copy)]
pub struct Want {
    /// The id of the product.
    pub product: u128,
    /// How many pieces.
    pub quantity: u64,
}

/// How many pieces of the product the line holds.
fn pieces(want: &Want, product: u128) -> u64
    ensures { result ≡ spec.pieces want.now product }
{
    if want.product == product {
        want.quantity
    } else {
        0
    }
}

/// How many pieces of the product all lines hold together, up to 2,010,000.
#[tactic(auto, using(crate::proofs::Wanted::wanted_few))]
pub(crate) fn wanted(wants: &[Want], product: u128) -> u64
    requires { spec.AreFew wants.now }
    ensures value { result ≡ spec.wanted wants.now product }
    ensures bound { result ≤ 2010000 }
{
    let mut sum = 0;
    let mut rest = wants;
    while let [want, more @ ..] = rest {
        sum += pieces(want, product);
        rest = more;
    }
    sum
}

/// Whether less is available of the line's product than all lines want.
fn is_short(rows: &Rows, wants: &[Want], want: &Want) -> bool
    requires checked { AreChecked rows.now.list }
    requires few { spec.AreFew wants.now }
    ensures { result ≡ spec.is_short rows.now.list wants.now want.now }
{
    available(rows, want.product) < wanted(wants, want.product)
}

/// The refusal of a line for whose product too little is available.
fn short_of(rows: &Rows, wants: &[Want], want: &Want) -> Broken
    requires checked { AreChecked rows.now.list }
    requires few { spec.AreFew wants.now }
    ensures { result ≡ spec.short_of rows.now.list wants.now want.now }
{
    Broken::StockShort {
        product: want.product,
        have: available(rows, want.product) as i64,
        want: wanted(wants, want.product) as i64,
    }
}

/// The refusal of the first line for whose product too little is available: `None` where there is
/// none. It takes no memory.
pub(crate) fn falls_short(rows: &Rows, wants: &[Want]) -> Option<Broken>
    requires checked { AreChecked rows.now.list }
    requires few { spec.AreFew wants.now }
    ensures { result ≡ spec.falls_short rows.now.list wants.now }
{
    let mut rest = wants;
    while let [want, more @ ..] = rest {
        if is_short(rows, wants, want) {
            return Some(short_of(rows, wants, want));
        }
        rest = more;
    }
    None
}

/// The same where pieces are taken. Where they are given back nothing is refused.
pub(crate) fn short_for(way: Move, rows: &Rows, wants: &[Want]) -> Option<Broken>
    requires checked { AreChecked rows.now.list }
    requires few { spec.AreFew wants.now }
    ensures { result ≡ spec.short_for way rows.now.list wants.now }
{
    match way {
        Move::Take => falls_short(rows, wants),
        Move::Give => None,
    }
}

/// The stock of the line's product, with what all lines hold of it taken or given back. Want of memory
/// is the only error, here and below.
fn stock_moved(
    alloc: Global,
    rows: &Rows,
    way: Move,
    wants: &[Want],
    want: &Want,
) -> Result<(Key, Option<Row>), NoMemory>
    requires checked { AreChecked rows.now.list }
    requires few { spec.AreFew wants.now }
    ensures { IfOk result (λ change. change ≡ spec.stock_moved rows.now.list way wants.now want.now) }
{
    let product = want.product;
    let have = moved(way, available(rows, product), wanted(wants, product));
    let row = stock_row(alloc, product, have, adjusted(rows, product))?;
    Ok((live_key(Entity::Stock, product, 0), Some(row)))
}

/// The changes with those of the stock of all lines' products.
pub(crate) fn push_stocks(
    alloc: Global,
    changes: &mut List<(Key, Option<Row>)>,
    rows: &Rows,
    way: Move,
    wants: &[Want],
) -> Result<(), NoMemory>
    requires checked { AreChecked rows.now.list }
    requires few { spec.AreFew wants.now }
    ensures { OnOk result (changes.new ≡ changes.old ++ spec.stocks_moved rows.now.list way wants.now) }
{
    let mut rest = wants;
    while let [want, more @ ..] = rest {
        changes.push(stock_moved(alloc, rows, way, wants, want)?)?;
        rest = more;
    }
    Ok(())
}
