//! A merge: the operations of a draft, done again on the live rows.
ghost use Rattle.std.specs.Prelude.{◌≡◌, ◌≢◌, ◌≤◌, ◌<◌, ◌^◌, ℕ, Ok, Some, OnOk, IfOk, IfErr, length, true};
ghost use Rattle.shop_defs.specs.Rows.{row_at};
ghost use Rattle.shop_operations.specs.Operations.{operated};
ghost use Rattle.shop_operations.specs.Soundness.{IsCoherent};
ghost use Rattle.shop_operations.specs.Views.{live_view};
ghost use Rattle.shop_drafts.specs.Damage.{count_up};
ghost use Rattle.shop_drafts.specs.Drafts.{draft_key, commits};
ghost use Rattle.shop_drafts.specs.Merging as spec;
ghost use Rattle.shop_drafts.specs.Soundness.{AreDrafted, is_change};
ghost use Rattle.shop_version.specs.Laws.{LeavesMerge};
ghost use Rattle.shop_version.specs.Plans.{PlansMerge, IsFaultOf};
ghost use Rattle.shop_version.specs.Replaying.{IsCommitOf, IsFaultAt, IsMergeFault, IsReplayFault, IsReplayable, IsReplayed};
ghost use Rattle.shop_write.specs.Growth.{grown, grown_view};

use crate::drafts::{commit_count, draft_of};
use crate::dropping::{losses, refused};
use shop_defs::{Broken, Delta, Op, PlanFault, Row, join_deltas};
use shop_drafts::commit_key;
use shop_rows::Rows;
use shop_write::Growing;
use sqlite_items::Boxed;
use std::alloc::Global;

/// What merging the draft of that version changes, and how many operations are replayed.
///
/// The operations of its commits are done again on the live rows, one after the other, and then the
/// draft is dropped. `NoSuchVersion` comes exactly where there is no such draft, and `MergeBroken`
/// exactly where an operation is refused, for the first of them. The other error is want of memory.
/// It costs in proportion to the operations, to what they change, and to the draft.
pub fn plan_merge(alloc: Global, rows: &Rows, version: u128) -> Result<(Delta, u64), PlanFault>
    requires drafted { AreDrafted rows.now.list }
    requires coherent { IsCoherent (live_view rows.now.list) }
    requires not_live { version ≢ 0 }
    // The changes are those of the merge's definition, or the refusal is.
    ensures plan { PlansMerge rows.now.list version result }
    // What they leave, in words.
    ensures leaves { LeavesMerge rows.now.list version result }
{
    match draft_of(rows, version) {
        Some(draft) => merged(alloc, rows, version, draft),
        None => Err(refused(Broken::NoSuchVersion { version })),
    }
}

/// The merge of the draft, of which this is the row.
fn merged(alloc: Global, rows: &Rows, version: u128, draft: &Row) -> Result<(Delta, u64), PlanFault>
    requires drafted { AreDrafted rows.now.list }
    requires coherent { IsCoherent (live_view rows.now.list) }
    requires not_live { version ≢ 0 }
    requires draft { row_at rows.now.list (draft_key version) ≡ Some draft.now }
    ensures { PlansMerge rows.now.list version result }
{
    let mut growing = Growing::new(alloc, rows);
    let count = replay(alloc, &mut growing, rows, version, commit_count(draft))?;
    let live = growing.delta(alloc)?;
    let lost = losses(alloc, rows, version, draft)?;
    let delta = join_deltas(alloc, &[live, lost])?;
    Ok((delta, count))
}

/// Does the operations of so many commits again, one after the other, and tells how many they are.
fn replay(
    alloc: Global,
    growing: &mut Growing<'_>,
    rows: &Rows,
    version: u128,
    count: u32,
) -> Result<u64, PlanFault>
    requires drafted { AreDrafted rows.now.list }
    requires coherent { IsCoherent (grown_view growing.old) }
    requires count { count ≡ length (commits rows.now.list version) }
    requires numbered { count_up 1 (commits rows.now.list version) ≡ true }
    ensures ok { OnOk result (spec.replayed (grown_view growing.old) (spec.log rows.now.list version) ≡ Ok (grown growing.new)) }
    ensures count { IfOk result (λ number. number ≡ spec.merged_count rows.now.list version) }
    ensures base { growing.new.base ≡ growing.old.base }
    ensures err { IfErr result (IsFaultOf (spec.replayed (grown_view growing.old) (spec.log rows.now.list version))) }
{
    let mut replayed = 0;
    for number in 0..count {
        replayed += replay_number(alloc, growing, rows, version, number + 1)?;
    }
    Ok(replayed)
}

/// Does the operations of the commit with that number again, and tells how many they are.
fn replay_number(
    alloc: Global,
    growing: &mut Growing<'_>,
    rows: &Rows,
    version: u128,
    number: u32,
) -> Result<u64, PlanFault>
    requires coherent { IsCoherent (grown_view growing.old) }
    requires there { IsCommitOf rows.now.list version number }
    ensures done { IfOk result (λ count. IsReplayed rows.now.list version number growing.old growing.new count) }
    ensures coherent { OnOk result (IsCoherent (grown_view growing.new)) }
    ensures base { growing.new.base ≡ growing.old.base }
    ensures err { IfErr result (IsFaultAt rows.now.list version number (grown_view growing.old)) }
{
    match rows.get(&commit_key(version, number)) {
        Some(commit) => Ok(replay_commit(alloc, growing, number, commit)?),
        None => unreachable!(),
    }
}

/// Does the operations of the commit again, which has that number, one after the other, and tells how
/// many they are.
fn replay_commit(
    alloc: Global,
    growing: &mut Growing<'_>,
    number: u32,
    commit: &Row,
) -> Result<u64, PlanFault>
    requires replayable { IsReplayable commit.now }
    requires numbered { commit.now.key.second ≡ number }
    requires coherent { IsCoherent (grown_view growing.old) }
    ensures ok { OnOk result (spec.replayed (grown_view growing.old) (spec.logged commit.now) ≡ Ok (grown growing.new)) }
    ensures count { IfOk result (λ count. count ≡ length commit.now.ops) }
    ensures coherent { OnOk result (IsCoherent (grown_view growing.new)) }
    ensures base { growing.new.base ≡ growing.old.base }
    ensures err { IfErr result (IsFaultOf (spec.replayed (grown_view growing.old) (spec.logged commit.now))) }
{
    let ops = commit.ops.as_slice();
    for (place, op) in ops.iter().enumerate() {
        replay_op(alloc, growing, number, place as u32 + 1, op)?;
    }
    Ok(ops.len() as u64)
}

/// Does the operation again, which has that number in the commit with that number. Where it is
/// refused, or memory is, the rows stay.
fn replay_op(
    alloc: Global,
    growing: &mut Growing<'_>,
    commit: u32,
    number: u32,
    op: &Op,
) -> Result<(), PlanFault>
    requires change { is_change op.now ≡ true }
    requires coherent { IsCoherent (grown_view growing.old) }
    ensures ok { OnOk result (operated (grown_view growing.old) op.now true ≡ Ok (grown growing.new)) }
    ensures base { growing.new.base ≡ growing.old.base }
    ensures err { IfErr result (IsReplayFault (grown_view growing.old) (record { commit = commit; number = number; op = op.now })) }
{
    match growing.operate(alloc, op, true) {
        Ok(()) => Ok(()),
        Err(PlanFault::Refused(fault)) => Err(broken_merge(alloc, commit, number, fault.broken)),
        Err(PlanFault::NoMemory) => Err(PlanFault::NoMemory),
    }
}

/// The refusal of a merge, or want of memory.
fn broken_merge(alloc: Global, commit: u32, number: u32, broken: Broken) -> PlanFault
    ensures { IsMergeFault commit number broken result }
{
    match Boxed::new(alloc, broken) {
        Ok(inner) => refused(Broken::MergeBroken {
            commit,
            op: number,
            inner,
        }),
        Err(_) => PlanFault::NoMemory,
    }
}
