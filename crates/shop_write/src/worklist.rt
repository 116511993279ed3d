//! What a delete touches: the rows that go, and rows that refer to them.
ghost use Rattle.std.specs.Prelude.{◌≡◌, Some, true, IfOk, OnOk};
ghost use Rattle.shop_defs.specs.declared.row.Row.{Row};
ghost use Rattle.shop_defs.specs.declared.table.TheConstants.{REFERENCES};
ghost use Rattle.shop_operations.specs.Upserts.{row_in};
ghost use Rattle.shop_operations.specs.Views.{IsInPlaceOrder};
ghost use Rattle.closure.specs.Closure.{IsIn};
ghost use Rattle.shop_write.specs.Searching as spec;

use crate::place::{Gathered, Place, Places};
use crate::view::View;
use shop_defs::{Key, List, NoMemory, Row};
use shop_operations::falls_with;
use std::alloc::Global;

/// A search for the rows that a delete touches.
#[derive(Drop)]
pub(crate) struct Search {
    /// Where the rows stand that go.
    pub(crate) lost: Gathered,
    /// Where rows stand that refer to one that goes. Some of them may go too.
    pub(crate) near: Gathered,
    /// Where the rows stand that go and whose referrers aren't looked at yet.
    pub(crate) pending: List<Place>,
}

/// What a delete touches.
#[derive(Drop)]
pub(crate) struct Affected {
    /// Where the rows stand that go.
    pub(crate) lost: Places,
    /// Where rows stand that refer to one that goes. Some of them may go too.
    pub(crate) near: Places,
}

/// What a delete of the row at the key touches: each row that goes, and each that refers to one of
/// them. Want of memory is the only error.
///
/// It takes as many steps as there are rows that go and references to them, each of the logarithm of
/// their number.
pub(crate) fn touched<V: View>(
    alloc: Global,
    view: &V,
    key: &Key,
    row: &Row,
) -> Result<Affected, NoMemory>
    requires row { row_in (V.seen view.now).rows key.now ≡ Some row.now }
    requires order { IsInPlaceOrder (V.seen view.now).rows }
    ensures { IfOk result (spec.IsTouched REFERENCES (V.seen view.now).rows key.now) }
{
    let mut search = begin(alloc, row)?;
    while let Some(next) = search.pending.pop() {
        spread(alloc, view, &next.key(view.version()), &mut search)?;
    }
    in_order(alloc, search)
}

/// What was found, in the order of places.
fn in_order(alloc: Global, search: Search) -> Result<Affected, NoMemory>
    ensures { IfOk result (λ touched. touched ≡ record { lost = search.lost; near = search.near }) }
{
    Ok(Affected {
        lost: search.lost.into_places(alloc)?,
        near: search.near.into_places(alloc)?,
    })
}

/// A search that begins at the row.
fn begin(alloc: Global, row: &Row) -> Result<Search, NoMemory>
    ensures { IfOk result (spec.Begins row.now) }
{
    let mut search = Search {
        lost: Gathered::new(alloc),
        near: Gathered::new(alloc),
        pending: List::new(alloc),
    };
    search.lost.put(Place::of(&row.key))?;
    search.pending.push(Place::of(&row.key))?;
    Ok(search)
}

/// Notes what refers to the row at the key.
fn spread<V: View>(alloc: Global, view: &V, key: &Key, search: &mut Search) -> Result<(), NoMemory>
    ensures spread { OnOk result (spec.IsSpread REFERENCES (V.seen view.now).rows key.now search.old search.new) }
    ensures all { OnOk result ((row : Row) → IsIn row (V.seen view.now).rows → spec.refers_to REFERENCES key.now row ≡ true → spec.IsNoted REFERENCES key.now search.new row) }
{
    let keys = view.referrers_of(alloc, key)?;
    for at in keys.as_slice() {
        visit(view, key, at, search)?;
    }
    Ok(())
}

/// Notes the row at a place, which refers to the row at the key.
fn visit<V: View>(view: &V, key: &Key, at: &Key, search: &mut Search) -> Result<(), NoMemory>
    ensures spread { OnOk result (spec.IsSpread REFERENCES (V.seen view.now).rows key.now search.old search.new) }
    ensures visited { OnOk result ((row : Row) → IsIn row (V.seen view.now).rows → row.key ≡ at.now → spec.IsNoted REFERENCES key.now search.new row) }
{
    match view.get(at) {
        Some(row) => note(row, key, search),
        None => Ok(()),
    }
}

/// Notes a row that refers to the one at the key: it goes too, or it is near.
fn note(row: &Row, key: &Key, search: &mut Search) -> Result<(), NoMemory>
    ensures { OnOk result (spec.Notes REFERENCES row.now key.now search.old search.new) }
{
    let place = Place::of(&row.key);
    if !falls_with(row, key) {
        search.near.put(place)?;
        return Ok(());
    }
    let fresh = search.lost.add(row)?;
    if !fresh {
        return Ok(());
    }
    search.pending.push(place)?;
    Ok(())
}
