//! How far an order is.
ghost use Rattle.std.specs.Prelude.{◌≡◌};
ghost use Rattle.shop_order.specs.States as spec;

use crate::numbers::ORDER_STATE;
use crate::stock::Move;
use row_fields::is_text_at;
use shop_defs::Row;
use shop_requests::Action;

/// How far an order is.
#[derive(Drop, Clone, Copy)]
pub enum OrderState {
    /// It is placed.
    Open,
    /// It is worked on.
    InProgress,
    /// It is done.
    Completed,
    /// It is called off: what was ordered is in the stock again.
    Cancelled,
}

impl OrderState {
    /// The word for it in an order's row, and in refusals.
    pub fn text(self) -> &'static str
        ensures { result.now ≡ spec.state_text self }
    {
        match self {
            OrderState::Open => "open",
            OrderState::InProgress => "in_progress",
            OrderState::Completed => "completed",
            OrderState::Cancelled => "cancelled",
        }
    }

    /// The number by which it is answered: from 1 for open to 4 for cancelled.
    pub fn number(self) -> u8
        ensures { result ≡ spec.state_number self }
    {
        self as u8 + 1
    }
}

/// The word for a step in refusals.
pub(crate) fn action_text(action: Action) -> &'static str
    ensures { result.now ≡ spec.action_text action }
{
    match action {
        Action::Process => "process",
        Action::Complete => "complete",
        Action::Cancel => "cancel",
        Action::Reopen => "reopen",
    }
}

/// How far the order with that row is: open where the row has none of the other words.
pub fn state_of(order: &Row) -> OrderState
    ensures { result ≡ spec.state_of order.now }
{
    if is_text_at(order, ORDER_STATE, b"in_progress") {
        return OrderState::InProgress;
    }
    if is_text_at(order, ORDER_STATE, b"completed") {
        return OrderState::Completed;
    }
    if is_text_at(order, ORDER_STATE, b"cancelled") {
        return OrderState::Cancelled;
    }
    OrderState::Open
}

/// Where the step leads from the state: `None` where there is no such step.
pub fn next_state(state: OrderState, action: Action) -> Option<OrderState>
    ensures { result ≡ spec.next_state state action }
{
    match (state, action) {
        (OrderState::Open, Action::Process) => Some(OrderState::InProgress),
        (OrderState::InProgress, Action::Complete) => Some(OrderState::Completed),
        (OrderState::Open | OrderState::InProgress, Action::Cancel) => Some(OrderState::Cancelled),
        (OrderState::Completed | OrderState::Cancelled, Action::Reopen) => Some(OrderState::Open),
        _ => None,
    }
}

/// What is done with the pieces that an order holds where it is taken from one state to another.
pub(crate) fn way_between(from: OrderState, to: OrderState) -> Option<Move>
    ensures { result ≡ spec.way_between from to }
{
    match (from, to) {
        (OrderState::Cancelled, _) => Some(Move::Take),
        (_, OrderState::Cancelled) => Some(Move::Give),
        _ => None,
    }
}
