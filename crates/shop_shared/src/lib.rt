//! A shop under one lock, whose callers share one history.
//!
//! # What is promised
//!
//! For every interleaving of the calls of any number of callers:
//!
//! - There is one history: all entries that were accepted, each at its place, in one order (the rule of
//!   `specs/Rule.antt`, which each step keeps). A caller's pass has seen a beginning of it, and each call
//!   that takes the lock gives the pass back with all of it (`MovesOn`).
//! - What a pass has seen never falls: its entries, the published front, its looks.
//! - Its own entries in what it has seen are all that the history has of it (`SameOwn`).
//! - `fresh_table` and `share_shop` begin the history with a shop's state; `enter_shop` lets a caller in;
//!   two passes that `meet` have seen the same; `leave` lets a caller go.
//! - `write` is one step after all that was accepted (`writes`). Ok: the command is the last entry that the
//!   pass has then seen and the caller's one new one, with its front and value. Any other answer is that
//!   of the step after what the pass has then seen, and the caller has no new entry. `StoreFailed` comes
//!   only where the keeper's count rose in this very look, and any other answer leaves it (`cause`).
//! - `read` and `read_list` answer as on one thread, over the rows after all that the pass has then seen,
//!   and `front` says how many entries were accepted and how many are published.
//! - Whenever the lock is free the shop is the one after the history, its published copy stands at the
//!   front, at most 1,024 entries behind, and the pending deltas lead on from it (`AreTied`).
//! - `shut` uses up the door, and `close` gives the keeper back, which holds what is kept of sound rows.
//!
//! No call asks an index or settles a cart yet, none builds the next copy off the lock, and none waits until
//! there is work or the shop is shut.
//!
//! Nothing is promised on who gets the lock when, nor that a caller gets it: a call that takes it may
//! wait, and promises what it says if it returns.
#![tactic(auto)]

mod door;
mod locked;
mod master;
mod pass;
mod shop;
mod table;
mod view;

pub use door::Door;
pub use locked::Locked;
pub use master::Master;
pub use pass::Pass;
pub use shop::{Fresh, Shop, fresh_table, share_shop};
pub use table::{Board, Naming, SeatRule};
pub use view::{CallerView, DoorView, Held, Look, MasterView, Opening, Start, View};
