//! What the bodies of requests say: their JSON, read as what a request asks for, or the first wrong
//! place in it.
//!
//! # What is promised
//!
//! - `read_batch` reads the body of a batch by the crate `serde_json`: the operations that it says,
//!   `BadJson` exactly where it has no reading, or `BadShape` with a pointer to the first wrong
//!   place (`answer`). A batch that is read has 1 to 1,000 operations, each with an id, and the
//!   names of each one's fields ascend.
//! - `read_draft`, `read_amount` and `read_order` read the bodies that are objects in the same way.
//! - Two laws say in words what the pointer of a batch names: the first wrong place, and of unknown
//!   members the least.
#![tactic(auto)]

mod batch;
mod element;
mod fault;
mod fields;
mod laws;
mod members;
mod object;
mod parsed;
mod room;

pub use batch::{MOST_OPERATIONS, read_batch};
pub use fault::BodyFault;
pub use laws::{law_of_the_first_wrong_place, law_of_the_least_unknown_member};
pub use object::{DraftBody, Form, read_amount, read_draft, read_order};
