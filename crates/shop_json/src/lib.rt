//! The requests that routes and bodies make, and the replies as JSON (RFC 8259).
//!
//! # What is promised
//!
//! - `read_body` is the request that a route and a body ask a shop for, or what is wrong with the
//!   body (`answer`), of every route.
//! - `reply_text` is the status and the body of each reply; the body of rows that are lent is that of
//!   their reply, printed into memory that is handed in (`seen_row_text`, `seen_list_text`), and so is
//!   that of a settled cart (`cart_text`) and what is answered of a question about all rows
//!   (`answer_text`).
//! - `put_done` prints the whole response to a write that is accepted into room that was taken before,
//!   and can't fail.
//! - The paths of the interface may be handed to another thread (`law_of_threads`).
#![tactic(auto)]

mod body;
mod done;
mod reply;
mod threads;

pub use body::read_body;
pub use body_json::BodyFault;
pub use done::{LONGEST_DONE, put_done, put_store_failed, reserve_done};
pub use reply::{answer_text, cart_text, reply_text, seen_list_text, seen_row_text};
pub use threads::law_of_threads;
