//! Laws of operations: what an accepted one keeps of the rows of a view.
//!
//! # What is promised
//!
//! - The functions here do no work: their contracts are laws on the definitions of
//!   `shop_operations`.
//! - `coherent`: what an accepted operation leaves of coherent rows is coherent again, whether or
//!   not it is replayed, and so is what an accepted batch leaves. Rows are coherent where each
//!   reference names a row, a node's parent is of its tree, no two rows have the same unique
//!   fields, no row stands lower than it may, and no limit is passed.
//! - `formed`: each row is as its entity has it, and rows that operations may not write are just as
//!   they were.
//! - `origins`: no row and no value is made up. `start`: a view without rows is coherent.
//! - `outcomes`: what an accepted operation leaves, in words (`Leaves` of `shop_operations`): the row
//!   that an upsert leaves keeps to each rule that it is tried against, and without a replay a deleted
//!   row was there. A batch leaves what its operations leave, one after the other.
#![tactic(auto)]

ghost use Rattle.shop_soundness.specs.Coherence.{NoRowsAreCoherent, OperationsKeepCoherence, BatchesKeepCoherence};
ghost use Rattle.shop_soundness.specs.Outcomes.{OperationsLeave, BatchesLeave};
ghost use Rattle.shop_soundness.specs.Origins.{OperationsMakeUpNothing, BatchesMakeUpNothing};
ghost use Rattle.shop_soundness.specs.WellFormed.{OperationsKeepRows, BatchesKeepRows};

/// What an accepted operation keeps, whether or not it is replayed.
pub fn law_of_the_operations()
    // A view starts without rows.
    ensures start { NoRowsAreCoherent }
    // The rows fit one another.
    ensures coherent { OperationsKeepCoherence }
    // Each row is as its entity has it, and rows that operations may not write are just as they were.
    ensures formed { OperationsKeepRows }
    // Each row was there or is the operation's, and each value was in its row, is given, or is a preset.
    ensures origins { OperationsMakeUpNothing }
    // An upsert leaves the row at its place with what is given, all other places as they were, and no rule broken that it is tried
    // against: a fixed field keeps its value. A delete takes out just the least set that has the row and is closed under the
    // cascades, and empties just the references that may be and name a lost row; the row was there, unless it is replayed.
    ensures outcomes { OperationsLeave }
{}

/// What an accepted batch keeps, if no operation of it has the id 0.
pub fn law_of_the_batches()
    // The rows fit one another.
    ensures coherent { BatchesKeepCoherence }
    // Each row is as its entity has it, and rows that operations may not write are just as they were.
    ensures formed { BatchesKeepRows }
    // Each row was there or is an operation's, and each value was in its row, is given, or is a preset.
    ensures origins { BatchesMakeUpNothing }
    // Each operation leaves what the next one finds.
    ensures outcomes { BatchesLeave }
{}
