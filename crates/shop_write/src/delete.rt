//! A delete: the rows that go, the rows that lose a field, and the row that holds it back.
ghost use Rattle.std.specs.Prelude.{◌≡◌, Some, Ok, true, not, filter, IfOk, OnOk};
ghost use Rattle.closure.specs.Closure.{IsIn};
ghost use Rattle.shop_defs.specs.declared.row.Row.{Row};
ghost use Rattle.shop_defs.specs.declared.table.TheConstants.{REFERENCES};
ghost use Rattle.shop_defs.specs.declared.key.Key.{Key};
ghost use Rattle.shop_operations.specs.Deletes.{is_field, deleted};
ghost use Rattle.shop_operations.specs.Operations.{place};
ghost use Rattle.shop_operations.specs.References as references;
ghost use Rattle.shop_operations.specs.Upserts.{row_in};
ghost use Rattle.shop_operations.specs.Views.{IsInPlaceOrder};
ghost use Rattle.shop_write.specs.Places.{is_at, stands_among};
ghost use Rattle.shop_write.specs.Planning.{Planned};
ghost use Rattle.shop_write.specs.Searching.{IsTouched};
ghost use Rattle.shop_write.specs.Deleting as spec;

use crate::operation::{place_of, refused};
use crate::place::{Place, Places};
use crate::view::View;
use crate::worklist::{Affected, touched};
use ordered::Ordered;
use shop_defs::{
    Broken, Copied, Delta, Key, List, NoMemory, OnDelete, Op, OpKind, Part, PlanFault, REFERENCES,
    Reference, Row, Value,
};
use shop_operations::{named, restricts, sets_null};
use std::alloc::Global;

/// What a delete changes, with every row that goes with the row: the keys of the rows that go, and
/// the rows that stay and lose a field that named one of them. Keys ascend, and are the rows' own.
///
/// `NoSuchRow` comes where no row stands at the place, and then a delete that is replayed changes
/// nothing; `InUse` names the first row, in the order of places, that stays and has a restricting
/// reference to a row that goes. It takes as many look-ups as there are rows that go and references
/// to them.
pub(crate) fn plan_delete<V: View>(
    alloc: Global,
    view: &V,
    op: &Op,
    replay: bool,
) -> Result<Delta, PlanFault>
    requires { op.now.kind ≡ OpKind.Delete }
    ensures { Planned (V.seen view.now) op.now replay result }
{
    let key = place_of(view, op);
    match view.get(&key) {
        Some(row) => remove(alloc, view, &key, row),
        None => missing(alloc, key, replay),
    }
}

/// What a delete changes where no row stands at the key: nothing if it is replayed.
fn missing(alloc: Global, key: Key, replay: bool) -> Result<Delta, PlanFault>
    ensures { spec.Misses key replay result }
{
    if replay {
        return Ok(Delta {
            changes: List::new(alloc),
        });
    }
    Err(refused(Broken::NoSuchRow { key }))
}

/// Whether by the reference the row names one that stands at one of the places.
fn names_lost(reference: &Reference, row: &Row, lost: &Places) -> bool
    ensures { result ≡ spec.names_lost lost.now row.now reference.now }
{
    match named(reference, row) {
        Some(id) => lost.has_id(reference.of, id),
        None => false,
    }
}

fn is_field(part: Part, number: u8) -> bool
    ensures { result ≡ is_field part number }
{
    match part {
        Part::Field(at) => at == number,
        _ => false,
    }
}

/// Whether the row holds back one that stands at one of the places.
#[tactic(auto, unfolding(crate::specs::Deleting::holds_lost))]
fn holds_lost(table: &[Reference], row: &Row, lost: &Places) -> bool
    ensures { result ≡ spec.holds_lost table.now lost.now row.now }
{
    table.iter().any(|reference| restricts(reference.on_delete) && names_lost(reference, row, lost))
}

/// Whether the row's field is emptied where the rows at the places go.
#[tactic(auto, unfolding(crate::specs::Deleting::empties))]
fn empties(table: &[Reference], row: &Row, number: u8, lost: &Places) -> bool
    ensures { result ≡ spec.empties table.now lost.now row.now number }
{
    table.iter().any(|reference| {
        sets_null(reference.on_delete)
            && is_field(reference.part, number)
            && names_lost(reference, row, lost)
    })
}

/// Whether one of the row's fields is emptied where the rows at the places go.
pub(crate) fn loses(row: &Row, lost: &Places) -> bool
    ensures { result ≡ spec.loses REFERENCES lost.now row.now }
{
    loses_by(&REFERENCES, row, lost)
}

fn loses_by(table: &[Reference], row: &Row, lost: &Places) -> bool
    ensures { result ≡ spec.loses table.now lost.now row.now }
{
    row.fields
        .iter()
        .any(|entry| empties(table, row, entry.0, lost))
}

/// The fields of the row that aren't emptied where the rows at the places go.
fn kept_fields(
    alloc: Global,
    table: &[Reference],
    row: &Row,
    lost: &Places,
) -> Result<List<(u8, Value)>, NoMemory>
    ensures { IfOk result (λ fields. fields ≡ filter (λ entry. not (spec.empties table.now lost.now row.now entry.0)) row.now.fields) }
{
    let mut fields = Vec::new(alloc);
    for entry in row.fields.as_slice() {
        if !empties(table, row, entry.0, lost) {
            fields.push(entry.copy(alloc)?)?;
        }
    }
    Ok(List::from_vec(fields))
}

/// The row without the fields that are emptied where the rows at the places go.
fn without_lost(alloc: Global, row: &Row, lost: &Places) -> Result<Row, NoMemory>
    ensures { IfOk result (λ rest. rest ≡ spec.without_lost REFERENCES lost.now row.now) }
{
    Ok(Row {
        key: row.key,
        fields: kept_fields(alloc, &REFERENCES, row, lost)?,
        ops: row.ops.copy(alloc)?,
    })
}

/// Puts the change of the row where the rows at the places go: the row goes too, or loses fields, or
/// nothing is to be changed.
fn put_change(
    alloc: Global,
    row: &Row,
    lost: &Places,
    changes: &mut Ordered<(Key, Option<Row>)>,
) -> Result<(), NoMemory>
    ensures { OnOk result (spec.PutsChange (spec.rest_of REFERENCES lost.now) row.now changes.old.list changes.new.list) }
{
    if lost.has(row) {
        changes.put((row.key, None))?;
        return Ok(());
    }
    if !loses(row, lost) {
        return Ok(());
    }
    let rest = without_lost(alloc, row, lost)?;
    changes.put((row.key, Some(rest)))?;
    Ok(())
}

/// Puts the change of the row at the place, if there is one.
fn put_change_at<V: View>(
    alloc: Global,
    view: &V,
    place: Place,
    lost: &Places,
    changes: &mut Ordered<(Key, Option<Row>)>,
) -> Result<(), NoMemory>
    ensures put { OnOk result (spec.IsPut (spec.rest_of REFERENCES lost.now) (V.seen view.now).rows changes.old.list changes.new.list) }
    ensures covered { OnOk result ((row : Row) → IsIn row (V.seen view.now).rows → is_at row place ≡ true → spec.IsCovered (spec.rest_of REFERENCES lost.now) changes.new.list row) }
{
    match view.get(&place.key(view.version())) {
        Some(row) => put_change(alloc, row, lost, changes),
        None => Ok(()),
    }
}

/// Puts the changes of the rows at the places.
fn put_changes<V: View>(
    alloc: Global,
    view: &V,
    places: &[Place],
    lost: &Places,
    changes: &mut Ordered<(Key, Option<Row>)>,
) -> Result<(), NoMemory>
    ensures put { OnOk result (spec.IsPut (spec.rest_of REFERENCES lost.now) (V.seen view.now).rows changes.old.list changes.new.list) }
    ensures covered { OnOk result ((row : Row) → IsIn row (V.seen view.now).rows → stands_among places.now row ≡ true → spec.IsCovered (spec.rest_of REFERENCES lost.now) changes.new.list row) }
{
    for place in places {
        put_change_at(alloc, view, *place, lost, changes)?;
    }
    Ok(())
}

/// The key of the row, if it stays and holds back one that stands at one of the places.
fn holder(table: &[Reference], row: &Row, lost: &Places) -> Option<Key>
    ensures { result ≡ spec.holder table.now lost.now (Some row.now) }
{
    let goes = lost.has(row);
    if goes {
        return None;
    }
    if holds_lost(table, row, lost) {
        return Some(row.key);
    }
    None
}

/// The key of such a row at the place.
fn holder_at<V: View>(view: &V, place: Place, lost: &Places) -> Option<Key>
    ensures { result ≡ spec.holder_at REFERENCES (V.seen view.now).rows (V.seen view.now).version lost.now place }
{
    match view.get(&place.key(view.version())) {
        Some(row) => holder(&REFERENCES, row, lost),
        None => None,
    }
}

/// The key of the first row that stays and holds back one that goes: such a row is near.
fn first_holder<V: View>(view: &V, search: &Affected) -> Option<Key>
    ensures { result ≡ spec.first_of (spec.holder_at REFERENCES (V.seen view.now).rows (V.seen view.now).version search.now.lost) search.now.near }
{
    let mut rest = search.near.as_slice();
    while let [place, more @ ..] = rest {
        if let Some(key) = holder_at(view, *place, &search.lost) {
            return Some(key);
        }
        rest = more;
    }
    None
}

/// The changes of a delete: the rows that go are taken away, and near rows that stay lose fields.
fn changes_of<V: View>(alloc: Global, view: &V, search: &Affected) -> Result<Delta, NoMemory>
    requires { IsInPlaceOrder (V.seen view.now).rows }
    ensures { IfOk result (λ delta. (key : Key) → IsTouched REFERENCES (V.seen view.now).rows key search.now → spec.Reaches (V.seen view.now) (Ok (deleted REFERENCES (V.seen view.now).rows key)) delta.changes) }
{
    let mut changes = Ordered::new(alloc);
    put_changes(
        alloc,
        view,
        search.lost.as_slice(),
        &search.lost,
        &mut changes,
    )?;
    put_changes(
        alloc,
        view,
        search.near.as_slice(),
        &search.lost,
        &mut changes,
    )?;
    Ok(Delta {
        changes: List::from_vec(changes.into_vec()),
    })
}

/// What a delete of the row changes, which stands at the key.
fn remove<V: View>(alloc: Global, view: &V, key: &Key, row: &Row) -> Result<Delta, PlanFault>
    requires row { row_in (V.seen view.now).rows key.now ≡ Some row.now }
    requires order { IsInPlaceOrder (V.seen view.now).rows }
    ensures { spec.Plans (V.seen view.now) (spec.removal REFERENCES (V.seen view.now).rows key.now) result }
{
    let search = touched(alloc, view, key, row)?;
    if let Some(by) = first_holder(view, &search) {
        return Err(refused(Broken::InUse { by }));
    }
    Ok(changes_of(alloc, view, &search)?)
}
