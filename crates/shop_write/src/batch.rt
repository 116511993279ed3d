//! What a batch of operations changes in the live rows.
ghost use Rattle.std.specs.Prelude.{◌≡◌, ◌≢◌, ◌≤◌, Ok, OnOk, IfErr, length};
ghost use Rattle.shop_defs.specs.declared.refused.PlanFault.TheVariants as F;
ghost use Rattle.shop_soundness.specs.Batches.{done};
ghost use Rattle.shop_operations.specs.Soundness.{IsCoherent};
ghost use Rattle.shop_operations.specs.Views.{live_view};
ghost use Rattle.shop_write.specs.BatchPlans.{BatchPlanLeaves, HaveIds, PlansBatch, IsDoneFault, IsNumberedFault};
ghost use Rattle.shop_write.specs.Growth.{grown, grown_view};

use crate::growing::Growing;
use shop_defs::{Delta, List, PlanFault, Refused};
use shop_requests::{RawOp, read_op};
use shop_rows::Rows;
use std::alloc::Global;

/// What the operations change in the live rows, done one after the other, all or none.
///
/// Each operation has an id, there are at most 1,000, and the live rows fit one another. The first operation that breaks a rule
/// refuses the whole, with its number, counted from 1. The other error is want of memory. What it
/// costs grows with the operations and with what they change, and not with the rows.
pub fn plan(alloc: Global, rows: &Rows, ops: &List<RawOp>) -> Result<Delta, PlanFault>
    requires few { length ops.now ≤ 1000 }
    requires ids { HaveIds ops.now }
    requires coherent { IsCoherent (live_view rows.now.list) }
    // The changes are those of the batch's definition, or the refusal is.
    ensures plan { PlansBatch rows.now.list ops.now result }
    // What each operation leaves to the next one, and the last to the changed rows, in words.
    ensures leaves { BatchPlanLeaves rows.now.list ops.now result }
{
    let mut growing = Growing::new(alloc, rows);
    let all = ops.as_slice();
    for (place, op) in all.iter().enumerate() {
        step(alloc, &mut growing, place as u32 + 1, op)?;
    }
    let delta = growing.delta(alloc)?;
    Ok(delta)
}

/// Does the operation with that number. Where it is refused, or memory is, the rows stay.
fn step(alloc: Global, growing: &mut Growing<'_>, number: u32, op: &RawOp) -> Result<(), PlanFault>
    requires id { op.now.id ≢ 0 }
    requires coherent { IsCoherent (grown_view growing.old) }
    ensures ok { OnOk result (done (grown_view growing.old) op.now ≡ Ok (grown growing.new)) }
    ensures base { growing.new.base ≡ growing.old.base }
    ensures err { IfErr result (IsNumberedFault (grown_view growing.old) number op.now) }
{
    match do_raw(alloc, growing, op) {
        Ok(()) => Ok(()),
        Err(PlanFault::Refused(refused)) => Err(numbered(number, refused)),
        Err(PlanFault::NoMemory) => Err(PlanFault::NoMemory),
    }
}

/// The refusal with the number of its operation.
fn numbered(number: u32, refused: Refused) -> PlanFault
    ensures { result ≡ F.Refused (record { op = number; broken = refused.broken }) }
{
    PlanFault::Refused(Refused {
        op: number,
        broken: refused.broken,
    })
}

/// Does an operation, once it is read.
fn do_raw(alloc: Global, growing: &mut Growing<'_>, op: &RawOp) -> Result<(), PlanFault>
    requires id { op.now.id ≢ 0 }
    requires coherent { IsCoherent (grown_view growing.old) }
    ensures ok { OnOk result (done (grown_view growing.old) op.now ≡ Ok (grown growing.new)) }
    ensures base { growing.new.base ≡ growing.old.base }
    ensures err { IfErr result (IsDoneFault (grown_view growing.old) op.now) }
{
    match read_op(alloc, op) {
        Ok(read) => growing.operate(alloc, &read, false),
        Err(fault) => Err(fault),
    }
}
