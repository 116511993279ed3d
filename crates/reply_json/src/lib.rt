//! The bodies of replies: JSON (RFC 8259) without spaces, the members of each object in the order of
//! the bytes of their names.
//!
//! # What is promised
//!
//! - Each body is exactly the compact text of a JSON value: `done_text`, `row_text`, `seen_text`
//!   and `rows_text` (which print rows where they stand, into memory that is handed in),
//!   `front_text`, `front_unknown_text`, `tree_text`, `members_text`, `price_text`, `page_text`,
//!   `missing_text`, `refusal_text` and `fault_text`.
//! - `refusal_status` and `fault_status` are the statuses. A printed day reads as that day.
#![tactic(auto)]

mod body;
mod day;
mod done;
mod fault;
mod front;
mod keys;
mod order;
mod product;
mod refusal;
mod row;
mod tree;

pub use done::done_text;
pub use fault::{fault_status, fault_text};
pub use front::{front_text, front_unknown_text};
pub use product::{members_text, page_text, price_text};
pub use refusal::{refusal_status, refusal_text};
pub use row::{row_text, rows_text, seen_text};
pub use tree::{missing_text, tree_text};
