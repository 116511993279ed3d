//! What an upsert changes, or the first rule that it breaks.
ghost use Rattle.std.specs.Prelude.{◌≡◌, ◌∷◌, [], Bool, Some, None, true, unwrap_or, IfOk};
ghost use Rattle.std.specs.Option.{option_copied};
ghost use Rattle.shop_defs.specs.Fitting.{op_fits};
ghost use Rattle.shop_operations.specs.Operations as spec;
ghost use Rattle.shop_operations.specs.Upserts as upserts;
ghost use Rattle.shop_write.specs.Planning.{Planned};
ghost use Rattle.shop_write.specs.Writes.{TakesUpsert, IsWrite, are_shallow};

use crate::cycle::is_below_itself;
use crate::depth::too_deep;
use crate::duplicate::duplicate;
use crate::limit::too_many;
use crate::missing::missing_reference;
use crate::operation::{place_of, refused};
use crate::view::View;
use shop_defs::{Broken, Copied, Delta, Key, List, NoMemory, Op, OpKind, PlanFault, Row};
use shop_operations::{bare_row, fixed_field, given_to, gives_parent, missing_required};
use std::alloc::Global;

/// The row that an upsert leaves at the key's place, where that row stands before.
pub(crate) fn left(alloc: Global, before: Option<&Row>, key: Key, op: &Op) -> Result<Row, NoMemory>
    ensures { IfOk result (λ row. row ≡ upserts.given_to (unwrap_or (option_copied before.entry) (upserts.bare_row key)) op.now) }
{
    let row = match before {
        Some(row) => row.copy(alloc)?,
        None => bare_row(alloc, key),
    };
    given_to(alloc, row, op)
}

/// The refusal of a written row whose parent is given and that is below itself, or that stands too
/// low with its parent, or with a row below it that does: of several such rows the one with the
/// least id is named.
fn broken_parent<V: View>(
    alloc: Global,
    view: &V,
    op: &Op,
    row: &Row,
) -> Result<Option<Broken>, NoMemory>
    requires write { IsWrite (V.seen view.now) row.now }
    requires live { upserts.gives_parent op.now ≡ true → (V.seen view.now).version ≡ 0 → are_shallow (V.seen view.now).rows ≡ true }
    ensures { let rows = upserts.with_row (V.seen view.now).rows row.now in IfOk result (λ broken. broken ≡ spec.first (upserts.parent_cycle rows op.now row.now ∷ upserts.parent_too_deep rows op.now row.now ∷ [])) }
{
    if !gives_parent(op) {
        return Ok(None);
    }
    if is_below_itself(view, row) {
        return Ok(Some(Broken::ParentCycle { id: row.key.id }));
    }
    match too_deep(alloc, view, row)? {
        Some(id) => Ok(Some(Broken::ParentTooDeep { id })),
        None => Ok(None),
    }
}

/// The refusal of a written row by its own fields: `before` is the row that stands at its place.
fn broken_alone(alloc: Global, before: Option<&Row>, row: &Row) -> Result<Option<Broken>, NoMemory>
    ensures { IfOk result (λ broken. broken ≡ spec.first (upserts.fixed_field (option_copied before.entry) row.now ∷ upserts.missing_required row.now ∷ [])) }
{
    if let Some(broken) = fixed_field(alloc, before, row)? {
        return Ok(Some(broken));
    }
    missing_required(alloc, row)
}

/// The refusal of a written row by the rows that it names, or that have its unique fields.
fn broken_beside<V: View>(
    alloc: Global,
    view: &V,
    op: &Op,
    row: &Row,
) -> Result<Option<Broken>, NoMemory>
    requires { IsWrite (V.seen view.now) row.now }
    ensures { let rows = upserts.with_row (V.seen view.now).rows row.now in IfOk result (λ broken. broken ≡ spec.first (upserts.missing_reference rows op.now row.now ∷ upserts.duplicate rows row.now ∷ [])) }
{
    if let Some(broken) = missing_reference(alloc, view, op, row)? {
        return Ok(Some(broken));
    }
    duplicate(alloc, view, row)
}

/// The first rule that the written row breaks: `before` is the row that stands at its place.
fn broken_by<V: View>(
    alloc: Global,
    view: &V,
    op: &Op,
    before: Option<&Row>,
    row: &Row,
) -> Result<Option<Broken>, NoMemory>
    requires write { IsWrite (V.seen view.now) row.now }
    requires live { upserts.gives_parent op.now ≡ true → (V.seen view.now).version ≡ 0 → are_shallow (V.seen view.now).rows ≡ true }
    requires before { option_copied before ≡ upserts.row_in (V.seen view.now).rows (spec.place (V.seen view.now) op.now) }
    ensures { IfOk result (λ broken. broken ≡ spec.broken_by (V.seen view.now) op.now row.now) }
{
    if let Some(broken) = broken_alone(alloc, before, row)? {
        return Ok(Some(broken));
    }
    if let Some(broken) = broken_beside(alloc, view, op, row)? {
        return Ok(Some(broken));
    }
    if let Some(broken) = broken_parent(alloc, view, op, row)? {
        return Ok(Some(broken));
    }
    Ok(too_many(view, row))
}

/// What an upsert changes: the row that it leaves is put at its place, under the key of the row that
/// stands there before, or else under that of the place.
///
/// The rules are tried in this order, and the first that is broken refuses it: `FixedField`,
/// `MissingRequired`, `MissingReference`, `Duplicate`, `ParentCycle`, `ParentTooDeep`, `TooMany`.
/// No row is looked at but those that the row names, that are above or below it, and that have its
/// unique fields.
pub(crate) fn plan_upsert<V: View>(alloc: Global, view: &V, op: &Op) -> Result<Delta, PlanFault>
    requires takes { TakesUpsert (V.seen view.now) op.now }
    requires fits { op_fits op.now ≡ true }
    requires kind { op.now.kind ≡ OpKind.Upsert }
    ensures { (replay : Bool) → Planned (V.seen view.now) op.now replay result }
{
    let key = place_of(view, op);
    let before = view.get(&key);
    let row = left(alloc, before, key, op)?;
    if let Some(broken) = broken_by(alloc, view, op, before, &row)? {
        return Err(refused(broken));
    }
    Ok(written(alloc, row)?)
}

/// The one change that puts the row at its key.
fn written(alloc: Global, row: Row) -> Result<Delta, NoMemory>
    ensures { IfOk result (λ delta. delta.changes ≡ (row.key, Some row) ∷ []) }
{
    let mut changes = List::new(alloc);
    changes.push((row.key, Some(row)))?;
    Ok(Delta { changes })
}
