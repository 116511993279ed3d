//! A batch in a draft.
ghost use Rattle.std.specs.Prelude.{◌≡◌, ◌≢◌, ◌≤◌, ◌<◌, ◌+◌, ◌^◌, ◌++◌, ℕ, nat_lt, Ok, Some, [], ◌∷◌, OnOk, IfOk, IfErr, is_some, pos, true, length};
ghost use Rattle.shop_defs.specs.Rows.{row_at, change_rows};
ghost use Rattle.shop_defs.specs.Joined.{all_changes};
ghost use Rattle.shop_defs.specs.declared.refused.PlanFault.TheVariants as faults;
ghost use Rattle.shop_defs.specs.declared.value.Value.TheVariants as values;
ghost use Rattle.shop_drafts.specs.Drafts.{draft_key, draft_view, root_of, commits};
ghost use Rattle.shop_drafts.specs.Soundness.{AreDrafted};
ghost use Rattle.shop_drafts.specs.Writing as drafts;
ghost use Rattle.shop_version.specs.DraftSteps as spec;
ghost use Rattle.shop_version.specs.DraftWrites.{AreFormed, PlansWrite, WriteLeavesOthers, WriteIsBatch};
ghost use Rattle.shop_version.specs.Overlays.{layer_rows, layer_view};
ghost use Rattle.shop_write.specs.BatchPlans.{HaveIds};

use crate::drafts::{commit_count, draft_of};
use crate::overlay::Overlay;
use crate::writing::{Step, do_numbered};
use shop_defs::{
    Broken, Copied, Delta, Entity, Key, List, MOST_ROWS, NoMemory, Op, OpKind, PlanFault, Refused,
    Row, Value, join_deltas,
};
use shop_drafts::{COMMITS, COUNT, Root, commit_key, has_versions, root_of};
use shop_operations::given_to;
use shop_requests::{RawOp, read_op};
use shop_rows::Rows;
use std::alloc::Global;

/// What the operations change in the draft of that version, done one after the other over what it
/// shows, all or none; they are one commit more of it.
///
/// There are 1 to 1,000 operations, each with an id, and the version isn't the live one. The rows pass
/// the rule on drafts. The first operation that breaks a rule refuses the whole, with its number,
/// counted from 1; where there may be no commit more, the last one does. Without such a draft the first
/// operation is refused, by the rules on names, values and entities without versions, or by
/// `NoSuchVersion`. The other error is want of memory. What it costs grows with the operations, with
/// what they touch and with the draft's own rows, and not with the rows.
pub fn plan_draft_write(
    alloc: Global,
    rows: &Rows,
    version: u128,
    ops: &List<RawOp>,
) -> Result<Delta, PlanFault>
    requires some { 0 < length ops.now }
    requires few { length ops.now ≤ 1000 }
    requires ids { HaveIds ops.now }
    requires drafted { AreDrafted rows.now.list }
    requires not_live { version ≢ 0 }
    // The changes are those of the definition, or the refusal is.
    ensures plan { PlansWrite rows.now.list version ops.now result }
    // What live and each other draft show stays, and so do all rows that aren't of the draft.
    ensures others { WriteLeavesOthers rows.now.list version ops.now result }
    // The draft's rows are those that the same operations leave of what it shows.
    ensures batch { WriteIsBatch rows.now.list version ops.now result }
{
    match draft_of(rows, version) {
        Some(draft) => write(alloc, rows, version, draft, ops),
        None => Err(no_draft(alloc, version, ops)),
    }
}

/// The refusal of a batch in a draft that isn't there.
fn no_draft(alloc: Global, version: u128, ops: &List<RawOp>) -> PlanFault
    ensures { spec.IsNoDraft version ops.now result }
{
    match ops.get(0) {
        Some(op) => unknown_to(alloc, version, op),
        None => numbered(0, Broken::NoSuchVersion { version }),
    }
}

/// The refusal of the first operation of it.
fn unknown_to(alloc: Global, version: u128, op: &RawOp) -> PlanFault
    ensures { spec.IsUnknownTo version op.now result }
{
    match read_op(alloc, op) {
        Ok(read) if has_versions(read.entity) => numbered(1, Broken::NoSuchVersion { version }),
        Ok(read) => numbered(
            1,
            Broken::NotVersioned {
                entity: read.entity,
            },
        ),
        Err(PlanFault::Refused(refused)) => numbered(1, refused.broken),
        Err(PlanFault::NoMemory) => PlanFault::NoMemory,
    }
}

fn numbered(number: u32, broken: Broken) -> PlanFault
    ensures { result ≡ faults.Refused (record { op = number; broken = broken }) }
{
    PlanFault::Refused(Refused { op: number, broken })
}

/// The batch in the draft that has that row.
fn write(
    alloc: Global,
    rows: &Rows,
    version: u128,
    draft: &Row,
    ops: &List<RawOp>,
) -> Result<Delta, PlanFault>
    requires few { length ops.now ≤ 1000 }
    requires ids { HaveIds ops.now }
    requires drafted { AreDrafted rows.now.list }
    requires not_live { version ≢ 0 }
    requires draft { row_at rows.now.list (draft_key version) ≡ Some draft.now }
    ensures plan { PlansWrite rows.now.list version ops.now result }
    ensures batch { WriteIsBatch rows.now.list version ops.now result }
{
    match root_of(draft) {
        Some(root) => write_rooted(alloc, rows, version, draft, root, ops),
        None => Err(no_draft(alloc, version, ops)),
    }
}

/// The batch in the draft of that root.
fn write_rooted(
    alloc: Global,
    rows: &Rows,
    version: u128,
    draft: &Row,
    root: Root,
    ops: &List<RawOp>,
) -> Result<Delta, PlanFault>
    requires few { length ops.now ≤ 1000 }
    requires ids { HaveIds ops.now }
    requires drafted { AreDrafted rows.now.list }
    requires not_live { version ≢ 0 }
    requires draft { row_at rows.now.list (draft_key version) ≡ Some draft.now }
    requires root { root_of draft.now ≡ Some root }
    ensures plan { PlansWrite rows.now.list version ops.now result }
    ensures batch { WriteIsBatch rows.now.list version ops.now result }
{
    let mut overlay = Overlay::new(alloc, rows, version, root)?;
    let done = do_all(alloc, &mut overlay, ops.as_slice())?;
    let _draft = overlay.draft();
    if is_log_full(rows) {
        return Err(log_full(ops.len()));
    }
    let number = next_number(rows, version, draft);
    let delta = committed(alloc, version, number, draft, done)?;
    Ok(delta)
}

/// What operations did: as they were read, and what each changed.
#[derive(Drop)]
struct Done {
    ops: List<Op>,
    deltas: Vec<Delta>,
}

/// Does the operations, all or the first refused.
fn do_all(alloc: Global, overlay: &mut Overlay<'_>, ops: &[RawOp]) -> Result<Done, PlanFault>
    requires few { length ops.now ≤ 1000 }
    requires ids { HaveIds ops.now }
    requires formed { AreFormed (layer_rows overlay.old) }
    ensures rows { OnOk result (drafts.batch_in overlay.old.root (layer_view overlay.old) 1 ops.now ≡ Ok (layer_rows overlay.new)) }
    ensures read { IfOk result (λ done. done.ops ≡ drafts.read_all ops.now) }
    ensures changes { IfOk result (λ done. spec.AreDone overlay.old overlay.new done.deltas.items) }
    ensures fault { IfErr result (spec.IsBatchFault overlay.old ops.now) }
{
    let mut done = Done {
        ops: List::new(alloc),
        deltas: Vec::new(alloc),
    };
    for (place, op) in ops.iter().enumerate() {
        let step = do_numbered(alloc, overlay, place as u32 + 1, op)?;
        keep(&mut done, step)?;
    }
    Ok(done)
}

/// Puts what an operation did behind the others.
fn keep(done: &mut Done, step: Step) -> Result<(), NoMemory>
    ensures ops { OnOk result (done.new.ops ≡ done.old.ops ++ step.op ∷ []) }
    ensures deltas { OnOk result (done.new.deltas.items ≡ done.old.deltas.items ++ step.delta ∷ []) }
{
    let Step { op, delta } = step;
    done.ops.push(op)?;
    done.deltas.push(delta)?;
    Ok(())
}

/// Whether there may be no commit more.
fn is_log_full(rows: &Rows) -> bool
    ensures { result ≡ drafts.is_log_full rows.now.list }
{
    let _few = rows.len();
    MOST_ROWS as usize <= rows.count(Entity::DraftCommit)
}

/// The refusal of the last of so many operations.
fn log_full(count: usize) -> PlanFault
    requires { count ≤ 1000 }
    ensures { result ≡ faults.Refused (drafts.log_full count) }
{
    numbered(
        count as u32,
        Broken::TooMany {
            entity: Entity::DraftCommit,
            limit: MOST_ROWS,
        },
    )
}

/// The number of the next commit of the draft that has that row.
fn next_number(rows: &Rows, version: u128, draft: &Row) -> u32
    requires drafted { AreDrafted rows.now.list }
    requires draft { row_at rows.now.list (draft_key version) ≡ Some draft.now }
    ensures { result ≡ drafts.next_number rows.now.list version }
{
    let _few = rows.len();
    commit_count(draft) + 1
}

/// The changes of all operations in one delta, with those of the commit that has the number. Want of
/// memory is the only error, here and below.
fn committed(
    alloc: Global,
    version: u128,
    number: u32,
    draft: &Row,
    done: Done,
) -> Result<Delta, NoMemory>
    requires few { length done.ops ≤ 1000 }
    requires draft { draft.now.key ≡ draft_key version }
    requires root { is_some (root_of draft.now) ≡ true }
    ensures { IfOk result (λ delta. spec.IsCommitted version number draft.now done.ops done.deltas.items delta.changes) }
{
    let Done { ops, deltas } = done;
    let commit = commit_delta(alloc, version, number, draft, ops)?;
    let mut deltas = deltas;
    deltas.push(commit)?;
    join_deltas(alloc, deltas.as_slice())
}

/// The changes that put the draft's row and the commit of these operations.
fn commit_delta(
    alloc: Global,
    version: u128,
    number: u32,
    draft: &Row,
    ops: List<Op>,
) -> Result<Delta, NoMemory>
    requires few { length ops ≤ 1000 }
    requires draft { draft.now.key ≡ draft_key version }
    requires root { is_some (root_of draft.now) ≡ true }
    ensures { IfOk result (λ delta. delta.changes ≡ spec.commit_changes version number draft.now ops) }
{
    let counted = with_commits(alloc, number, draft)?;
    let commit = new_commit(alloc, version, number, ops)?;
    let mut changes = List::new(alloc);
    changes.push((counted.key, Some(counted)))?;
    changes.push((commit.key, Some(commit)))?;
    Ok(Delta { changes })
}

/// The draft's row with that many commits.
fn with_commits(alloc: Global, number: u32, draft: &Row) -> Result<Row, NoMemory>
    requires draft { draft.now.key.entity ≡ Entity.Draft }
    requires root { is_some (root_of draft.now) ≡ true }
    ensures { IfOk result (λ row. row ≡ drafts.with_commits number draft.now) }
{
    let op = counting(alloc, number, draft.key.id)?;
    let row = draft.copy(alloc)?;
    let left = given_to(alloc, row, &op)?;
    Ok(left)
}

/// What gives a draft's row that many commits.
fn counting(alloc: Global, number: u32, id: u128) -> Result<Op, NoMemory>
    ensures { IfOk result (λ op. op.fields ≡ (COMMITS, Some (values.Int (pos number))) ∷ []) }
{
    let mut fields = List::new(alloc);
    fields.push((COMMITS, Some(Value::Int(number as i64))))?;
    Ok(Op {
        kind: OpKind::Upsert,
        entity: Entity::Draft,
        id,
        second: 0,
        fields,
    })
}

/// The commit of these operations.
fn new_commit(alloc: Global, version: u128, number: u32, ops: List<Op>) -> Result<Row, NoMemory>
    requires { length ops ≤ 1000 }
    ensures { IfOk result (λ row. row ≡ drafts.new_commit version number ops) }
{
    let count = Value::Int(ops.len() as i64);
    let mut fields = List::new(alloc);
    fields.push((COUNT, count))?;
    Ok(Row {
        key: commit_key(version, number),
        fields,
        ops,
    })
}
