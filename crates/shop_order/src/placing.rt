//! An order is placed of a cart.
ghost use Rattle.std.specs.Prelude.{◌≡◌, ◌≤◌, ◌<◌, ◌++◌, ◌∷◌, [], Some, None, map, length, IfOk, OnOk};
ghost use Rattle.std.specs.Option.{option_copied};
ghost use Rattle.shop_defs.specs.Rows.{row_at};
ghost use Rattle.shop_defs.specs.Joined.{add_changes};
ghost use Rattle.shop_rows.specs.Changing.{HasAscendingKeys};
ghost use Rattle.shop_order.specs.Checked.{AreChecked};
ghost use Rattle.shop_order.specs.Held.{AreStocked, KeepsStock};
ghost use Rattle.shop_order.specs.Keys.{cart_key};
ghost use Rattle.shop_order.specs.OrderRows.{order_changes};
ghost use Rattle.shop_order.specs.Parts as said;
ghost use Rattle.shop_order.specs.Placing as spec;
ghost use Rattle.shop_order.specs.Plans.{Plans};
ghost use Rattle.shop_order.specs.Wants.{AreFew, falls_short, lines_of};

use crate::adjusting::refused;
use crate::finding::in_order;
use crate::keys::live_key;
use crate::order_rows::{order_row, push_lines, push_taxes, rounding_of};
use crate::parts::{OrderPart, parts_of, wants_in};
use crate::sorting::in_key_order;
use crate::stock::Move;
use crate::wants::{Want, falls_short, push_stocks};
use cart_price::{Block, Settled};
use shop_defs::{
    Broken, Copied, Delta, Entity, Key, List, MOST_ROWS, NoMemory, OwnerLimit, Part, PlanFault, Row,
};
use shop_rows::Rows;
use std::alloc::Global;

/// The lines of a cart.
const CART_LINES: OwnerLimit = OwnerLimit {
    entity: Entity::CartLine,
    owner: Part::Field(1),
    most: 100,
};

/// The rules on the order and the cart that are tried before the cart is settled: `OrderExists`
/// where there is such an order, `NoSuchCart` where there is no such cart, and `CartEmpty` where it has
/// no line. It takes no memory.
#[tactic(auto, unfolding(crate::specs::Placing::breaks_before))]
pub fn test_place(rows: &Rows, cart: u128, order: u128) -> Result<(), PlanFault>
    ensures { spec.Tests (spec.breaks_before rows.now.list cart order) result }
{
    if rows.get(&live_key(Entity::Order, order, 0)).is_some() {
        return Err(refused(Broken::OrderExists { id: order }));
    }
    if rows.get(&live_key(Entity::Cart, cart, 0)).is_none() {
        return Err(refused(Broken::NoSuchCart { id: cart }));
    }
    if has_line(rows, cart) {
        return Ok(());
    }
    Err(refused(Broken::CartEmpty { id: cart }))
}

/// Whether the cart has a line.
fn has_line(rows: &Rows, cart: u128) -> bool
    ensures { result ≡ spec.has_line rows.now.list cart }
{
    0 < rows.count_owned(&CART_LINES, cart)
}

/// What placing an order of the cart changes, with what is to be paid for it in minor units.
///
/// The order breaks none of the rules of `test_place`, and the cart is settled so at the moment, in
/// seconds since 1970-01-01T00:00:00 UTC. The order gets the lines, the discounts, the delivery and the
/// tax sums of the settled cart, the stock of the lines' products is less by what they want, and the
/// cart goes with its lines and its codes. It is refused, by the first of these that holds: `Blocked`
/// where something keeps the cart from being ordered, for the first of its blocks; `TooMany` where there
/// may be no order, no lines or no tax sums more; `StockShort` where less is available of a product than
/// all lines want, for the first line that is short. The other error is want of memory.
pub fn plan_place(
    alloc: Global,
    rows: &Rows,
    cart: u128,
    order: u128,
    moment: i64,
    settled: &Settled,
) -> Result<(Delta, i64), PlanFault>
    requires checked { AreChecked rows.now.list }
    requires tested { spec.breaks_before rows.now.list cart order ≡ None }
    requires fits { spec.IsFit settled.now }
    ensures plan { Plans rows.now.list (spec.place rows.now.list cart order moment settled.now) settled.now.cart.total result }
    // Of each product, what is available and what orders hold stay together what was adjusted. In sound rows there are no lines
    // of an order that isn't there.
    ensures stock { lines_of rows.now.list order ≡ [] → AreStocked rows.now.list → KeepsStock rows.now.list result }
    // The cart is gone, with its lines and its codes.
    ensures gone { spec.TakesCart rows.now.list cart result }
{
    in_order(rows);
    match rows.get(&live_key(Entity::Cart, cart, 0)) {
        Some(row) => place_row(alloc, rows, row, order, moment, settled),
        None => Err(refused(Broken::NoSuchCart { id: cart })),
    }
}

/// The same, where that is the cart's row.
fn place_row(
    alloc: Global,
    rows: &Rows,
    cart: &Row,
    order: u128,
    moment: i64,
    settled: &Settled,
) -> Result<(Delta, i64), PlanFault>
    requires checked { AreChecked rows.now.list }
    requires there { row_at rows.now.list (cart_key cart.now.key.id) ≡ Some cart.now }
    requires fits { spec.IsFit settled.now }
    ensures { Plans rows.now.list (spec.place rows.now.list cart.now.key.id order moment settled.now) settled.now.cart.total result }
{
    in_order(rows);
    let parts = parts_of(alloc, &settled.cart)?;
    let wants = wants_of(alloc, settled)?;
    match broken_by(alloc, rows, settled, parts.len(), wants.as_slice())? {
        Some(broken) => Err(refused(broken)),
        None => {
            let mut changes = List::new(alloc);
            push_stocks(alloc, &mut changes, rows, Move::Take, wants.as_slice())?;
            push_cart_gone(alloc, &mut changes, rows, cart.key.id)?;
            push_order(
                alloc,
                &mut changes,
                order,
                cart,
                moment,
                settled,
                parts.as_slice(),
            )?;
            let delta = in_key_order(alloc, changes)?;
            Ok((delta, settled.cart.total))
        }
    }
}

/// The pieces that the lines of the settled cart want. Want of memory is the only error.
fn wants_of(alloc: Global, settled: &Settled) -> Result<Vec<Want>, NoMemory>
    requires { spec.IsFit settled.now }
    ensures wants { IfOk result (λ wants. wants.items ≡ spec.wants settled.now) }
    ensures few { IfOk result (λ wants. AreFew wants.items) }
{
    let wants = wants_in(alloc, settled.cart.lines.as_slice())?;
    Ok(wants)
}

/// The first rule that placing breaks, once the cart is settled. Want of memory is the only error, here
/// and below.
#[tactic(auto, unfolding(crate::specs::Placing::breaks))]
fn broken_by(
    alloc: Global,
    rows: &Rows,
    settled: &Settled,
    lines: usize,
    wants: &[Want],
) -> Result<Option<Broken>, NoMemory>
    requires checked { AreChecked rows.now.list }
    requires few { AreFew wants.now }
    requires lines { lines ≡ length (said.parts settled.now.cart) }
    requires wants { wants.now ≡ spec.wants settled.now }
    ensures { IfOk result (λ broken. broken ≡ spec.breaks rows.now.list settled.now) }
{
    match settled.cart.blocks.as_slice() {
        [block, ..] => Ok(Some(blocked(alloc, block)?)),
        [] => Ok(falls_past(rows, lines, settled.cart.taxes.len(), wants)),
    }
}

fn blocked(alloc: Global, block: &Block) -> Result<Broken, NoMemory>
    ensures { IfOk result (λ rule. Some rule ≡ spec.blocked (block.now ∷ [])) }
{
    Ok(Broken::Blocked {
        line: block.line,
        cause: block.cause.copy(alloc)?,
    })
}

/// The refusal where there may be no order, no lines or no tax sums more, or too little is available.
fn falls_past(rows: &Rows, lines: usize, taxes: usize, wants: &[Want]) -> Option<Broken>
    requires checked { AreChecked rows.now.list }
    requires few { AreFew wants.now }
    ensures { result ≡ spec.falls_past_by rows.now.list lines taxes wants.now }
{
    if is_past(rows, Entity::Order, 1) {
        return Some(too_many(Entity::Order));
    }
    if is_past(rows, Entity::OrderLine, lines) {
        return Some(too_many(Entity::OrderLine));
    }
    if is_past(rows, Entity::OrderTax, taxes) {
        return Some(too_many(Entity::OrderTax));
    }
    falls_short(rows, wants)
}

fn too_many(entity: Entity) -> Broken
    ensures { result ≡ spec.too_many entity }
{
    Broken::TooMany {
        entity,
        limit: MOST_ROWS,
    }
}

/// Whether with so many rows more there are more of the entity than there may be.
fn is_past(rows: &Rows, entity: Entity, more: usize) -> bool
    ensures { result ≡ spec.is_past rows.now.list entity more }
{
    let _few = rows.len();
    u128::from(MOST_ROWS) < rows.count(entity) as u128 + more as u128
}

/// The changes with those that take out the cart, its lines and its codes.
fn push_cart_gone(
    alloc: Global,
    changes: &mut List<(Key, Option<Row>)>,
    rows: &Rows,
    cart: u128,
) -> Result<(), NoMemory>
    ensures { OnOk result (changes.new ≡ changes.old ++ spec.cart_gone rows.now.list cart) }
{
    let key = live_key(Entity::Cart, cart, 0);
    let lines = rows.referrers_by(alloc, Entity::CartLine, 0, &key)?;
    let codes = rows.referrers_by(alloc, Entity::CartCode, 0, &key)?;
    changes.push((key, None))?;
    push_gone(changes, lines.as_slice())?;
    push_gone(changes, codes.as_slice())
}

fn push_gone(changes: &mut List<(Key, Option<Row>)>, keys: &[Key]) -> Result<(), NoMemory>
    ensures { OnOk result (changes.new ≡ changes.old ++ map spec.take_out keys.now) }
{
    let mut rest = keys;
    while let [key, more @ ..] = rest {
        changes.push((*key, None))?;
        rest = more;
    }
    Ok(())
}

/// The changes with those that put the order, its lines and its tax sums.
fn push_order(
    alloc: Global,
    changes: &mut List<(Key, Option<Row>)>,
    order: u128,
    cart: &Row,
    moment: i64,
    settled: &Settled,
    parts: &[OrderPart],
) -> Result<(), NoMemory>
    requires fits { spec.IsFit settled.now }
    requires parts { parts.now ≡ said.parts settled.now.cart }
    ensures { OnOk result (changes.new ≡ changes.old ++ order_changes order cart.now moment settled.now) }
{
    let rounding = rounding_of(&settled.cart);
    let row = order_row(alloc, order, cart, moment, &settled.cart, rounding)?;
    changes.push((live_key(Entity::Order, order, 0), Some(row)))?;
    push_lines(alloc, changes, order, parts, settled.labels.as_slice())?;
    push_taxes(alloc, changes, order, settled.cart.taxes.as_slice())?;
    Ok(())
}
