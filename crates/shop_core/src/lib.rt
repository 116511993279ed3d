//! The state of a shop: its rows behind a keeper, how many entries of its history were accepted, and a
//! published copy of the rows with the deltas that lead on from it.
//!
//! A command is one step: it is accepted, and then the rows, the number and what the keeper holds
//! go on together; or it is refused, and nothing changes.
//!
//! # What is promised
//!
//! - `ShopState` is the rows behind a keeper, and the number of accepted entries. Its type keeps
//!   that the rows are sound and that a keeper which tells holds what is kept of them, and the
//!   number, whatever calls failed; and that the pending deltas, one for each entry above the front of
//!   the published copy, lead from its rows to these over sound rows alone (`IsShop`).
//! - `open_shop` gives the shop of which the keeper gave the bytes (`opens`), names the first
//!   damage (`cause`), opens what is kept of sound rows always as these (`sound`), and gives the
//!   keeper back with each error (`content`).
//! - `commit` is one step (`commits`): Ok exactly where the step accepts, with its rows, the next
//!   number and its value; `Refused` exactly where the step refuses; `StoreFailed` only where the
//!   step accepts and the keeper's count of faults rose; and every error leaves rows, number and
//!   what the keeper holds. One command is built: a batch for the live rows. At 1,024 pending deltas
//!   the shop catches up first, and an accepted command puts just its delta behind those that are then
//!   pending (`Publishes`).
//! - `catch_up` publishes the copy after all accepted entries and changes nothing else (`ok`). `batch`
//!   gives the published copy and the first pending deltas, with all that the next copy is built of;
//!   `install` puts a copy in place that was built so, or answers `Older` (`installs`); `published` gives
//!   the copy, `front` its front.
//! - `ask` lends what a question about all rows means over the rows of the published copy (`answers`):
//!   where a category stands, the members of a stream, the price of a product, a page of a listing.
//!   `answer` catches up after a write, and before such a question and a cart, so the answer is what the
//!   question means over all accepted entries (`IsTold`).
//! - `read_row` answers what a read shows, or the first rule that it breaks (`reading`),
//!   `read_list` which rows are listed (`listing`); `see_row` and `see_list` lend the same, and
//!   `answer` is all of these for a request. In words: where a read breaks a rule, no earlier one is
//!   broken (`first`), and what is shown breaks none (`kept`).
//! - `read_cart` gives what a cart is settled at by the present rows at a moment, beside the number of
//!   accepted entries, or the rule that is broken (`reads`), in words too (`settled`). It asks nothing
//!   more of the rows than that they are sound (`law_of_cart_rows`), and its lines are called by names
//!   byte by byte (`law_of_the_names`).
//! - A shop, its rows and the keeper in memory may be handed to another thread, and lent to several
//!   (`law_of_threads`).
//! - Laws: live rows that are put in place of others stand so (`law_of_live_rows`); histories with
//!   one entry more, prefixes, their count and soundness (`law_of_one_entry_more`,
//!   `law_of_prefixes`, `law_of_counting`, `law_of_sound_rows`, the last for commands whose parts
//!   are in the ranges of their types); and any list of commits is the replay of the accepted ones,
//!   with at most as many `StoreFailed` as the count rose by (`law_of_the_commits`).
#![tactic(auto)]

mod answers;
mod known;
mod laws;
mod plan;
mod read;
mod ready;
mod state;
mod threads;

pub use answers::{CommitFault, Done, Entry, OpenFault, Reply, Request, RowReply, RowSeen, Told};
pub use idx_copy::{Answer, AskFault};
pub use known::refused_at;
pub use laws::{
    law_of_cart_rows, law_of_counting, law_of_live_rows, law_of_one_entry_more, law_of_prefixes,
    law_of_sound_rows, law_of_the_commits, law_of_the_names,
};
pub use publishing::{Batch, Older};
pub use state::{ShopState, open_shop};
pub use threads::law_of_threads;
