//! What operations on rows change, and when they are refused.
//!
//! # What is promised
//!
//! - `View` is what an operation sees: each of its look-ups is the part of one list that it stands
//!   for. The live rows of a shop are a view, and so are live rows while operations change them
//!   (`Growing`).
//! - `plan_op` answers the changes of one operation, which are those of its definition over every
//!   view, or the first rule that the operation breaks (`Planned`, over `operated`), both ways. An
//!   upsert asks that keys are of their entities' forms, and where it gives a parent to a live row,
//!   that no live row stands too low (`TakesUpsert`).
//! - `reach` answers what an operation would leave, take out and empty (`IsReach`), over any view.
//! - `Growing::operate` does an operation on growing rows: they are then what the operation leaves,
//!   or stay where it is refused.
//! - `plan` does a batch over the live rows, all or none, and numbers a refusal from 1
//!   (`PlansBatch`, over `live_batch`): the changes make the live rows what the operations leave,
//!   and leave the rows of drafts; their keys are live and ascend, and each row stands under its
//!   key.
//! - `plan_op` and `plan` say in words, too, what their changes leave, and that it keeps to each
//!   rule (`PlanLeaves`, `BatchPlanLeaves`, over `Leaves` of `shop_operations`).
//! - `shop_core` calls `plan`; the others are there for drafts and merges. That nothing walks over
//!   all rows is how it is written; no clause speaks of it.
#![tactic(auto)]

mod batch;
mod cycle;
mod delete;
mod depth;
mod duplicate;
mod effects;
mod growing;
mod limit;
mod live;
mod merging;
mod missing;
mod operation;
mod place;
mod upsert;
mod view;
mod worklist;
mod written;

pub use batch::plan;
pub use effects::{Reached, reach};
pub use growing::Growing;
pub use operation::plan_op;
pub use view::View;
