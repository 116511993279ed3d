//! What one operation changes, or the first rule that it breaks.
ghost use Rattle.std.specs.Prelude.{◌≡◌, true};
ghost use Rattle.shop_defs.specs.Fitting.{op_fits};
ghost use Rattle.shop_defs.specs.declared.refused.PlanFault.TheVariants as faults;
ghost use Rattle.shop_operations.specs.Operations as spec;
ghost use Rattle.shop_write.specs.Planning.{Planned, PlanLeaves};
ghost use Rattle.shop_write.specs.Writes.{TakesUpsert};

use crate::delete::plan_delete;
use crate::upsert::plan_upsert;
use crate::view::View;
use shop_defs::{Broken, Delta, Key, Op, OpKind, PlanFault, Refused};
use std::alloc::Global;

/// What the operation changes about the rows of the view, or the first rule that it breaks, in a
/// refusal without a number of the operation.
///
/// The keys of the changes ascend: each is the own key of a row of the view, or the one at which the
/// view shows a row that is inserted. With `replay` a delete of a row that isn't there changes
/// nothing. The other error is want of memory.
///
/// A delete asks nothing of the view. An upsert asks that keys are of their entities' forms, and, where
/// it gives a parent to a live row, that no live row stands lower than it may. What a draft shows needn't
/// fit otherwise, since live rows move on under the draft's own.
pub fn plan_op<V: View>(alloc: Global, view: &V, op: &Op, replay: bool) -> Result<Delta, PlanFault>
    requires takes { op.now.kind ≡ OpKind.Upsert → TakesUpsert (V.seen view.now) op.now }
    requires fits { op_fits op.now ≡ true }
    // The changes are those of the operation's definition, or the refusal is.
    ensures plan { Planned (V.seen view.now) op.now replay result }
    // What the changes leave, in words.
    ensures leaves { PlanLeaves (V.seen view.now) op.now replay result }
{
    match op.kind {
        OpKind::Upsert => plan_upsert(alloc, view, op),
        OpKind::Delete => plan_delete(alloc, view, op, replay),
    }
}

/// The key at which the view shows the row that the operation is on.
pub(crate) fn place_of<V: View>(view: &V, op: &Op) -> Key
    ensures { result ≡ spec.place (V.seen view.now) op.now }
{
    Key {
        entity: op.entity,
        version: view.version(),
        id: op.id,
        second: op.second,
    }
}

/// The refusal of an operation that is planned by itself, and so has no number.
pub(crate) fn refused(broken: Broken) -> PlanFault
    ensures { result ≡ faults.Refused (record { op = 0; broken = broken }) }
{
    PlanFault::Refused(Refused { op: 0, broken })
}
