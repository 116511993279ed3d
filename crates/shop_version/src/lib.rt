//! Drafts over the rows of a shop: how what they show is found by look-ups, and what making a draft, a
//! batch in it, dropping and merging it change.
//!
//! # What is promised
//!
//! - `draft_of`, `commit_count` and `own_keys` find what keeps a draft: its row, how many commits that
//!   tells, which among rows that can be worked on (`AreDrafted` of `shop_drafts`) is how many there
//!   are, and the keys of the rows of its version. They ask for such rows where they say so.
//! - `overlay_get` lends the row that a version shows at a place: the row at it in `shown_rows` of
//!   `shop_drafts`, and takes no memory.
//! - `law_of_what_drafts_show`: over rows whose keys are of their entities' forms, what a draft shows
//!   is what an operation asks of a view.
//! - `plan_draft` answers the changes of making a draft, one for each copied row and one more
//!   (`TellsCopies`), or the first rule that is broken, both ways (`Plans`, over `make_draft`). They leave
//!   all other rows, and what live and each other draft show; and merging the draft at once would change
//!   nothing (`LeavesMake`).
//! - `plan_drop` answers the changes of a drop, or that there is no such draft, both ways (`Plans`,
//!   over `drop_draft`). They leave all rows that aren't of the draft, and what live and all other
//!   drafts show (`LeavesDrop`).
//! - `plan_merge` answers the changes of a merge with the number of operations that are replayed, or
//!   why there are none: there is no such draft, or the first operation that is refused, with its
//!   commit, its number and the rule (`PlansMerge`, over `merge`). They make of the live rows what the
//!   logged operations leave, done one after the other, and leave the rows of all other drafts, and
//!   all rows that operations may not write but those that kept the draft (`LeavesMerge`).
//! - `plan_draft_write` does a batch in a draft, all or none. Its changes make the rows those of
//!   `draft_write`, or it answers the first refusal (`PlansWrite`), both ways. In words: all rows that
//!   aren't of the draft stay, and so does what live and each other draft show (`WriteLeavesOthers`);
//!   the draft's rows are those that the same operations leave of what it shows, by the root that its
//!   row names (`WriteIsBatch`).
//! - `law_of_drafted_rows`: making, writing, dropping and merging a draft leave rows that can be worked
//!   on, and so does a batch on the live rows. `law_of_coherent_rows`: so do making, writing, dropping
//!   and merging one leave live rows that fit one another.
//! - They cost in proportion to the draft, its operations and what these change: that is how they are
//!   written, and no clause speaks of it.
#![tactic(auto)]

mod batches;
mod drafts;
mod dropping;
mod joining;
mod laws;
mod making;
mod merging;
mod overlay;
mod showing;
mod touching;
mod writing;

pub use batches::plan_draft_write;
pub use drafts::{commit_count, draft_of, own_keys};
pub use dropping::plan_drop;
pub use laws::{law_of_coherent_rows, law_of_drafted_rows};
pub use making::plan_draft;
pub use merging::plan_merge;
pub use showing::{law_of_what_drafts_show, overlay_get};
