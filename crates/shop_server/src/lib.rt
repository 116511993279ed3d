//! One connection: bytes to requests to bytes.
//!
//! # What is promised
//!
//! - `run_shop` is the program's own call: its clauses are the promise to users (`docs/PROMISE.md`
//!   has them in plain words).
//! - `serve` is the loop of a connection over any link, any way to cut requests off, any answerer
//!   and any clock: it ends in a `Session` whose requests, bytes and way of ending fit, with one
//!   moment of the clock for each request, and its faults have their cause. That answers to requests
//!   that were read already are written together is how it is written; no clause speaks of it.
//! - A `Desk`, which is a shop, answers as `Gives` says: by the rows, by the fixed 507, which leaves
//!   all as it was, or, at a write that would be accepted, by 503 where the keeper's count rose.
//! - `law_of_the_replies`: the answers are a fold over the rows, with the moments that the clock
//!   tells and no more 503 than the count rose by. `law_of_the_count`: a connection accepts at most
//!   as many writes as it has requests.
#![tactic(auto)]

mod answerer;
mod check;
mod desk;
mod framing;
mod input;
mod refusal;
mod reports;
mod run;
mod served;
mod session;
mod status;
mod turned;
mod words;
mod writing;

pub use answerer::Answerer;
pub use desk::{law_of_the_count, law_of_the_replies};
pub use framing::Framing;
pub use run::run_shop;
pub use session::{Ended, serve};
pub use status::Status;
