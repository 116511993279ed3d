//! What a request asks for, and how its operations, ids and days are read: commands, queries,
//! routes, what is wrong with a request before any rule of the shop is tried, operations with names
//! and values of any kind, and the texts of ids and days.
//!
//! # What is promised
//!
//! - `read_op` gives the operation with its fields by number (`ok`, `ascends`) or the first broken
//!   rule (`fault`), as a function of the operation. In words: a refusal is by the first broken
//!   rule, the named place breaks it, and no place with a lesser name by its bytes does (`first`);
//!   what is read keeps every rule (`kept`), its entity is one that operations may write
//!   (`writable`), each field that it gives is null or fits (`fits`), and so does the key of an
//!   operation with an id (`key`).
//! - `check_value` is the rules of kind and range both ways, with the refused number or length, and
//!   what it keeps fits the field (`fits`).
//! - `read_id` is `Some` exactly for 32 digits `0` to `9` and `a` to `f` that aren't all `0`, with
//!   their number; `print_id` is these digits; each reads what the other prints (`value`, `prints`,
//!   `reads`).
//! - `read_day` reads only days from 1970-01-01 to 9999-12-30 (`range`), and `print_day` prints
//!   each of these as the text that reads as it.
#![tactic(auto)]

mod check;
mod command;
mod day;
mod ids;
mod line_fault;
mod query;
mod raw;
mod reading;
mod route;

pub use check::{ValueFault, check_kind, check_value, value_fault};
pub use command::{Action, Command};
pub use day::{print_day, read_day};
pub use ids::{print_id, read_id, write_id};
pub use line_fault::LineFault;
pub use query::{Query, RowRead};
pub use raw::{Raw, RawOp};
pub use reading::read_op;
pub use route::Route;
