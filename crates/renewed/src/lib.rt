//! Tables that are kept in step with what keys mean over a source.
//!
//! # What is promised
//!
//! - A `Meaning` says what stands at a key over a source, or that nothing does (`of`), which keys may
//!   mean something, and which keys a change touches. The one law that it owes: a key that isn't among
//!   those has the same meaning before and after.
//! - A `Table` is seen as the list of its keys in their order, each with the value that stands there.
//!   It shows a meaning where each key has exactly what it means, and no other key is there (`Shows`).
//!   A meaning has one table (`one_table` in `proofs/Only.antt`), so that a table which is kept in step
//!   is the one that would be built anew.
//! - `build` makes the table that shows the meaning over the source. `apply`, called on a table that
//!   shows the meaning before a change, leaves one that shows the meaning after it; what isn't touched
//!   stays. `get` is the look-up and takes no memory. `copy` gives the same table.
//! - Want of memory is the only error. After one from `apply` the table is only fit to be dropped.
//! - That `copy` shares the pages and `apply` works on the touched keys alone is how they are written;
//!   no clause speaks of it.
#![tactic(auto)]

mod meaning;
mod table;
#[cfg(test)]
mod tests;

pub use meaning::{Meaning, Renewed};
pub use table::Table;
