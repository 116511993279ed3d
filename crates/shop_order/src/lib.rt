//! Stock and orders: what adjusting stock, placing an order of a cart, and each step of an order
//! change in the rows of a shop.
//!
//! # What is promised
//!
//! - `plan_stock`, `plan_place` and `plan_step` answer what the command changes, with its value, or
//!   the first rule that it breaks, both ways (`Plans`, over `adjust`, `place` and `step`). The keys of
//!   the changes ascend, and each row stands under its key. Want of memory is the only other error.
//! - After each of the three, of each product what is available and what orders hold that aren't
//!   cancelled are together what was adjusted, if they were before (`AreStocked`). A step moves the
//!   order's state by the table alone, and changes no other order (`MovesByTable`). Placing takes the
//!   cart away, with its lines and its codes (`CartIsGone`).
//! - `test_place` answers the rules on the order and the cart that come before the cart is settled,
//!   and takes no memory.
//! - They ask for rows that were checked, each as its entity has it (`AreChecked`), and where an
//!   order's lines are looked up for few lines of each order (`AreOrderly`). Nothing of that is tested
//!   again.
//! - What they cost grows with the lines of the cart or the order, and not with the rows.
#![tactic(auto)]

mod adjusting;
mod finding;
mod keys;
mod laws;
mod numbers;
mod order_rows;
mod parts;
mod placing;
mod sorting;
mod states;
mod stepping;
mod stock;
mod wants;

pub use adjusting::{MOST_ADJUSTED, MOST_AVAILABLE, plan_stock};
pub use laws::{law_of_the_tables, law_of_the_worked_day};
pub use numbers::{
    CART_TAX_STATE, LINE_KIND, LINE_LABEL, LINE_PRODUCT, LINE_QUANTITY, LINE_RATE, LINE_TOTAL,
    LINE_UNIT, ORDER_PLACED, ORDER_ROUNDING, ORDER_STATE, ORDER_TAX, ORDER_TAX_STATE, ORDER_TOTAL,
    STOCK_ADJUSTED, STOCK_AVAILABLE, TAX_AMOUNT, TAX_TAX,
};
pub use parts::{LineKind, OrderPart};
pub use placing::{plan_place, test_place};
pub use states::{OrderState, next_state, state_of};
pub use stepping::plan_step;
pub use stock::{Move, available};
pub use wants::Want;
