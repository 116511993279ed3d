//! One operation of a batch in a draft.
ghost use Rattle.std.specs.Prelude.{◌≡◌, ◌≢◌, true, None, OnOk, IfOk, IfErr};
ghost use Rattle.shop_defs.specs.Fitting.{op_fits};
ghost use Rattle.shop_defs.specs.declared.refused.PlanFault.TheVariants as faults;
ghost use Rattle.shop_requests.specs.Operations.{reading};
ghost use Rattle.shop_drafts.specs.Writing as drafts;
ghost use Rattle.shop_version.specs.DraftSteps as spec;
ghost use Rattle.shop_version.specs.DraftWrites.{AreFormed};
ghost use Rattle.shop_version.specs.Overlays.{layer_rows, layer_view};

use crate::overlay::Overlay;
use crate::touching::outside;
use shop_defs::{Broken, Delta, Key, List, NoMemory, Op, PlanFault, Refused, Row};
use shop_drafts::has_versions;
use shop_requests::{RawOp, read_op};
use shop_write::{plan_op, reach};
use std::alloc::Global;

/// An operation that was done: as it was read, and what it changed.
#[derive(Drop)]
pub(crate) struct Step {
    pub(crate) op: Op,
    pub(crate) delta: Delta,
}

/// Does the operation with that number.
pub(crate) fn do_numbered(
    alloc: Global,
    overlay: &mut Overlay<'_>,
    number: u32,
    op: &RawOp,
) -> Result<Step, PlanFault>
    requires id { op.now.id ≢ 0 }
    requires formed { AreFormed (layer_rows overlay.old) }
    ensures read { IfOk result (λ step. reading op.now ≡ Ok step.op) }
    ensures done { IfOk result (λ step. spec.IsDone overlay.old overlay.new step.op step.delta) }
    ensures formed { OnOk result (AreFormed (layer_rows overlay.new)) }
    ensures fault { IfErr result (spec.IsStepFault overlay.old number op.now) }
{
    match do_raw(alloc, overlay, op) {
        Ok(step) => Ok(step),
        Err(PlanFault::Refused(refused)) => Err(numbered(number, refused)),
        Err(PlanFault::NoMemory) => Err(PlanFault::NoMemory),
    }
}

/// The refusal with the number of its operation.
fn numbered(number: u32, refused: Refused) -> PlanFault
    ensures { result ≡ faults.Refused (record { op = number; broken = refused.broken }) }
{
    PlanFault::Refused(Refused {
        op: number,
        broken: refused.broken,
    })
}

/// Does an operation, once it is read.
fn do_raw(alloc: Global, overlay: &mut Overlay<'_>, op: &RawOp) -> Result<Step, PlanFault>
    requires id { op.now.id ≢ 0 }
    requires formed { AreFormed (layer_rows overlay.old) }
    ensures read { IfOk result (λ step. reading op.now ≡ Ok step.op) }
    ensures done { IfOk result (λ step. spec.IsDone overlay.old overlay.new step.op step.delta) }
    ensures formed { OnOk result (AreFormed (layer_rows overlay.new)) }
    ensures fault { IfErr result (spec.IsRawFault overlay.old op.now) }
{
    let read = read_op(alloc, op)?;
    let delta = operate(alloc, overlay, &read)?;
    Ok(Step { op: read, delta })
}

/// Does an operation over what the draft shows, and tells what it changed: rows of the draft alone.
///
/// It is refused where its entity has no versions, then where it touches a row outside what the draft
/// edits, and then by the first rule that it breaks; the refusal has no number. The other error is
/// want of memory.
fn operate(alloc: Global, overlay: &mut Overlay<'_>, op: &Op) -> Result<Delta, PlanFault>
    requires fits { op_fits op.now ≡ true }
    requires formed { AreFormed (layer_rows overlay.old) }
    ensures done { IfOk result (spec.IsDone overlay.old overlay.new op.now) }
    ensures fault { IfErr result (spec.IsDoingFault overlay.old op.now) }
{
    if !has_versions(op.entity) {
        return Err(refused(Broken::NotVersioned { entity: op.entity }));
    }
    let _draft = overlay.draft();
    let reached = reach(alloc, overlay, op)?;
    match outside(alloc, overlay, op, &reached)? {
        Some(key) => Err(refused(Broken::OutsideDraft { key })),
        None => operate_inside(alloc, overlay, op),
    }
}

/// Does an operation that touches nothing outside what the draft edits.
fn operate_inside(alloc: Global, overlay: &mut Overlay<'_>, op: &Op) -> Result<Delta, PlanFault>
    requires fits { op_fits op.now ≡ true }
    requires formed { AreFormed (layer_rows overlay.old) }
    requires versioned { drafts.not_versioned op.now ≡ None }
    requires inside { drafts.outside overlay.old.root (layer_view overlay.old) op.now op.now.kind ≡ None }
    ensures done { IfOk result (spec.IsDone overlay.old overlay.new op.now) }
    ensures fault { IfErr result (spec.IsDoingFault overlay.old op.now) }
{
    let draft = overlay.draft();
    let planned = plan_op(alloc, overlay, op, false)?;
    let delta = own_changes(alloc, draft, planned)?;
    overlay.take_in(alloc, &delta)?;
    Ok(delta)
}

/// The changes at keys of the version. Want of memory is the only error.
fn own_changes(alloc: Global, version: u128, delta: Delta) -> Result<Delta, NoMemory>
    ensures { IfOk result (λ own. own.changes ≡ spec.own_changes version delta.changes) }
{
    let mut changes = List::new(alloc);
    for change in delta.changes.into_vec() {
        if change.0.version == version {
            changes.push(change)?;
        }
    }
    Ok(Delta { changes })
}

/// The refusal of an operation, without a number.
fn refused(broken: Broken) -> PlanFault
    ensures { result ≡ faults.Refused (record { op = 0; broken = broken }) }
{
    PlanFault::Refused(Refused { op: 0, broken })
}
