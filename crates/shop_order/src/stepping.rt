//! An order is taken to another state.
ghost use Rattle.std.specs.Prelude.{◌≡◌, pos, Some, IfOk, OnOk, map, ◌++◌, ◌∷◌, []};
ghost use Rattle.shop_defs.specs.declared.broken.Broken.TheVariants as broken;
ghost use Rattle.shop_defs.specs.Rows.{row_at};
ghost use Rattle.shop_order.specs.Checked.{AreChecked, AreOrderly};
ghost use Rattle.shop_order.specs.Held.{AreStocked, KeepsStock};
ghost use Rattle.shop_order.specs.Keys.{order_key};
ghost use Rattle.shop_order.specs.Plans.{Plans, IsFaultOf};
ghost use Rattle.shop_order.specs.States as states;
ghost use Rattle.shop_order.specs.Steps as spec;
ghost use Rattle.shop_order.specs.Wants.{AreFew, stocks_moved};
ghost use Rattle.shop_defs.specs.Joined.{add_changes};
ghost use Rattle.shop_rows.specs.Changing.{HasAscendingKeys};

use crate::adjusting::refused;
use crate::finding::{in_order, wants_of};
use crate::keys::live_key;
use crate::numbers::ORDER_STATE;
use crate::sorting::in_key_order;
use crate::states::{OrderState, action_text, next_state, state_of, way_between};
use crate::stock::Move;
use crate::wants::{Want, push_stocks, short_for};
use shop_defs::{Broken, Copied, Delta, Entity, Key, List, NoMemory, PlanFault, Row, Txt, Value};
use shop_requests::Action;
use shop_rows::Rows;
use std::alloc::Global;

/// What a step of the order changes, and the number of the state that it leads to: from 1 for open to
/// 4 for cancelled.
///
/// Where the step cancels the order, the pieces that it holds are given back, and where it reopens a
/// cancelled one they are taken again. It is refused, by the first of these that holds: `NoSuchRow`
/// where there is no such order; `BadTransition` where no such step leads out of its state;
/// `StockShort` where less is available of a product than a reopened order takes, for the first of its
/// lines that is short. The other error is want of memory. It costs a look-up for each line.
pub fn plan_step(
    alloc: Global,
    rows: &Rows,
    order: u128,
    action: Action,
) -> Result<(Delta, i64), PlanFault>
    requires { AreOrderly rows.now.list }
    ensures plan { Plans rows.now.list (spec.step rows.now.list order action) (spec.step_value rows.now.list order action) result }
    // Of each product, what is available and what orders hold stay together what was adjusted.
    ensures stock { AreStocked rows.now.list → KeepsStock rows.now.list result }
    // The order's state moves by the table, and no other order changes.
    ensures state { spec.StateMoves rows.now.list order action result }
{
    let key = live_key(Entity::Order, order, 0);
    match rows.get(&key) {
        Some(row) => step_from(alloc, rows, order, row, action),
        None => Err(refused(Broken::NoSuchRow { key })),
    }
}

/// A step of the order, of which this is the row.
fn step_from(
    alloc: Global,
    rows: &Rows,
    order: u128,
    row: &Row,
    action: Action,
) -> Result<(Delta, i64), PlanFault>
    requires orderly { AreOrderly rows.now.list }
    requires there { row_at rows.now.list (order_key order) ≡ Some row.now }
    ensures { Plans rows.now.list (spec.step_by rows.now.list order action row.now (states.state_of row.now) (states.next_state (states.state_of row.now) action)) (spec.step_value rows.now.list order action) result }
{
    let from = state_of(row);
    match next_state(from, action) {
        Some(to) => {
            let delta = step_to(alloc, rows, order, row, to, way_between(from, to))?;
            Ok((delta, i64::from(to.number())))
        }
        None => Err(bad_transition(alloc, from, action)),
    }
}

/// The refusal of a step that the table doesn't have, or want of memory.
fn bad_transition(alloc: Global, state: OrderState, action: Action) -> PlanFault
    ensures { spec.IsBadTransition state action result }
{
    match transition(alloc, state, action) {
        Ok(broken) => refused(broken),
        Err(_) => PlanFault::NoMemory,
    }
}

fn transition(alloc: Global, state: OrderState, action: Action) -> Result<Broken, NoMemory>
    ensures { IfOk result (λ rule. rule ≡ broken.BadTransition (states.state_text state) (states.action_text action)) }
{
    Ok(Broken::BadTransition {
        state: Txt::from_str(alloc, state.text())?,
        action: Txt::from_str(alloc, action_text(action))?,
    })
}

/// What taking the order to the state changes, with what is done with the pieces that it holds.
fn step_to(
    alloc: Global,
    rows: &Rows,
    order: u128,
    row: &Row,
    to: OrderState,
    way: Option<Move>,
) -> Result<Delta, PlanFault>
    requires orderly { AreOrderly rows.now.list }
    requires there { row_at rows.now.list (order_key order) ≡ Some row.now }
    ensures { spec.PlansStep rows.now.list order row.now to way result }
{
    in_order(rows);
    match way {
        Some(way) => step_with_stock(alloc, rows, order, row, to, way),
        None => Ok(changes_of(alloc, rows, order, row, to, Move::Give, &[])?),
    }
}

fn step_with_stock(
    alloc: Global,
    rows: &Rows,
    order: u128,
    row: &Row,
    to: OrderState,
    way: Move,
) -> Result<Delta, PlanFault>
    requires orderly { AreOrderly rows.now.list }
    requires there { row_at rows.now.list (order_key order) ≡ Some row.now }
    ensures { spec.PlansStep rows.now.list order row.now to (Some way) result }
{
    in_order(rows);
    let wants = wants_of(alloc, rows, order)?;
    match short_for(way, rows, wants.as_slice()) {
        Some(broken) => Err(refused(broken)),
        None => Ok(changes_of(alloc, rows, order, row, to, way, wants.as_slice())?),
    }
}

/// The changes of the stock of the lines' products, and that of the order's state. Want of memory is
/// the only error, here and below.
fn changes_of(
    alloc: Global,
    rows: &Rows,
    order: u128,
    row: &Row,
    to: OrderState,
    way: Move,
    wants: &[Want],
) -> Result<Delta, NoMemory>
    requires checked { AreChecked rows.now.list }
    requires few { AreFew wants.now }
    ensures changes { IfOk result (λ delta. delta.changes ≡ add_changes [] (stocks_moved rows.now.list way wants.now ++ spec.state_change order row.now to ∷ [])) }
    ensures ascend { IfOk result (λ delta. HasAscendingKeys delta.changes) }
{
    let mut changes = List::new(alloc);
    push_stocks(alloc, &mut changes, rows, way, wants)?;
    let key = live_key(Entity::Order, order, 0);
    changes.push((key, Some(in_state(alloc, row, to)?)))?;
    in_key_order(alloc, changes)
}

/// The order's row in the state.
fn in_state(alloc: Global, order: &Row, state: OrderState) -> Result<Row, NoMemory>
    ensures { IfOk result (λ row. row ≡ spec.in_state order.now state) }
{
    let mut fields = List::new(alloc);
    let mut rest = order.fields.as_slice();
    while let [field, more @ ..] = rest {
        fields.push(field_in_state(alloc, state, field)?)?;
        rest = more;
    }
    Ok(Row {
        key: order.key,
        fields,
        ops: order.ops.copy(alloc)?,
    })
}

fn field_in_state(
    alloc: Global,
    state: OrderState,
    field: &(u8, Value),
) -> Result<(u8, Value), NoMemory>
    ensures { IfOk result (λ after. after ≡ spec.field_in_state state field.now) }
{
    if field.0 == ORDER_STATE {
        let word = Txt::from_str(alloc, state.text())?;
        return Ok((ORDER_STATE, Value::Text(word)));
    }
    field.copy(alloc)
}
