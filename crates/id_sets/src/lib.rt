//! Sets of ids, as lists that ascend, and how they are kept in step with what picks their ids.
//!
//! # What is promised
//!
//! - `Ids` are seen as the list of the ids, each once, ascending. `from_vec` sorts, `has` is the
//!   look-up, `as_slice` lends the list. They take no memory.
//! - A `Pick` says of each id whether it belongs to a set. `edited` looks at some ids alone: each of
//!   them is in the new set where it is picked, and all others stay as they were. Where nothing changes
//!   it says so and copies nothing.
//! - Want of memory is the only error.
#![tactic(auto)]

mod edit;
mod pick;
mod set;

pub use edit::edited;
pub use pick::Pick;
pub use set::Ids;
