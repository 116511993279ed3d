//! The rows of a shop in the order of their keys, and what they are found by.
//!
//! # What is promised
//!
//! - `Rows` are seen as the list of the rows in the order of their keys, and as the delta that can be
//!   applied without memory, if there is one (`spare`). `get` is the look-up, `iter` the walk over all
//!   rows, `behind` that over the rows with greater keys; they take no memory.
//! - `reserve` makes the rows after a delta aside, and the delta is spare then; where memory is
//!   refused, none is. `apply` puts them in place and can't fail: the list is that of the changes one
//!   after the other (`list`), and under each key stands what the delta's last change there says, or
//!   what stood there before (`last`, `once`). `copy` has the same list.
//! - The rows stand in pages: `shape` tells how many there are, and the least and the greatest number
//!   of rows of one. Where there are several, each has 16 to 64 (`IsShapeOf`).
//! - The other look-ups are each the part of the list that they stand for: `children_of`,
//!   `child_keys` and `count_children` (the rows of an entity and a version below a row),
//!   `referrers_of`, `referrers_in` and `referrers_by` (the rows that refer to a row by a reference
//!   that a delete looks at: the live ones, those of a version, those of an entity and a version),
//!   `keys_of` (the rows of an entity and a version), `twin`, `twins`, `twin_in` and `twins_in` (the
//!   rows of a version with the same unique fields), `count` (the rows of an entity, in all
//!   versions), `count_owned` (the live rows that belong to an owner), `after` (the row with the next
//!   key).
//! - That what is kept beside the rows is theirs is the invariant of the type (`AreFound`). That no
//!   look-up walks over all rows, and that pages are really shared, is how they are written; no
//!   clause speaks of it.
#![tactic(auto)]

mod counts;
mod finding;
mod found;
mod lookups;
mod mentions;
mod moves;
mod pages;
mod pairs;
mod prints;
mod rows;
mod searches;
mod topic;
mod walk;

pub use paged::Shape;
pub use rows::Rows;
pub use walk::Walk;
