//! A copy of a shop's rows after so many entries, with the tables that answer what is asked of it.
//!
//! # What is promised
//!
//! - An `IndexCopy` is seen as its front, its rows and its tables. Its type keeps that the rows are
//!   sound and that the tables are their direct tables: each key has exactly what the rows mean there.
//! - `first` is the copy of given rows. `next` is the copy after deltas, one after the other: its front
//!   is as many higher, and its rows are what the deltas leave. The copy that it is called on stays.
//! - `ask` of `Tables` answers each question with its direct meaning over the rows whose direct tables
//!   these are, or refuses it exactly where the row that it names isn't there; `IndexCopy` answers what
//!   its tables do. It lends a path and a stream's members, and takes memory for a page of a listing
//!   alone.
//! - Want of memory is the only error of the others.
//! - That `next` shares all pages with the copy before which the deltas don't touch, so that it costs
//!   in proportion to the deltas, is how it is written; no clause speaks of it.
#![tactic(auto)]

mod answer;
mod copy;
mod join;
mod tables;

pub use answer::{Answer, AskFault};
pub use copy::IndexCopy;
pub use tables::Tables;
