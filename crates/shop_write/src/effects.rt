//! What an operation reaches, whether or not it breaks a rule.
ghost use Rattle.std.specs.Prelude.{◌≡◌, Some, map, filter, IfOk};
ghost use Rattle.shop_defs.specs.declared.table.TheConstants.{REFERENCES};
ghost use Rattle.shop_operations.specs.Upserts.{row_in};
ghost use Rattle.shop_operations.specs.Views.{IsInPlaceOrder};
ghost use Rattle.shop_write.specs.Places.{key_at};
ghost use Rattle.shop_write.specs.Deleting as deleting;
ghost use Rattle.shop_write.specs.Reaching as spec;

use crate::delete::loses;
use crate::operation::place_of;
use crate::place::{Place, Places};
use crate::upsert::left;
use crate::view::View;
use crate::worklist::touched;
use shop_defs::{Key, List, NoMemory, Op, OpKind, Row};
use std::alloc::Global;

/// What an operation would leave, take out and empty. Keys have the view's version.
#[derive(Drop)]
pub struct Reached {
    /// The row that an upsert would leave, with its presets: `None` for a delete.
    pub left: Option<Row>,
    /// The keys, ascending, of the rows that a delete takes out: none where no row stands at its
    /// place, and none for an upsert.
    pub gone: List<Key>,
    /// The keys, ascending, of the rows that stay and lose a field by a delete.
    pub emptied: List<Key>,
}

/// What the operation would leave, take out and empty. Want of memory is the only error.
///
/// Of a delete it takes as many look-ups as there are rows that go and references to them.
pub fn reach<V: View>(alloc: Global, view: &V, op: &Op) -> Result<Reached, NoMemory>
    ensures { IfOk result (spec.IsReach (V.seen view.now) op.now) }
{
    match op.kind {
        OpKind::Upsert => reach_of_upsert(alloc, view, op),
        OpKind::Delete => reach_of_delete(alloc, view, op),
    }
}

#[tactic(auto, unfolding(shop_operations::specs::Upserts::left))]
fn reach_of_upsert<V: View>(alloc: Global, view: &V, op: &Op) -> Result<Reached, NoMemory>
    requires { op.now.kind ≡ OpKind.Upsert }
    ensures { IfOk result (spec.IsReach (V.seen view.now) op.now) }
{
    let key = place_of(view, op);
    let row = left(alloc, view.get(&key), key, op)?;
    Ok(Reached {
        left: Some(row),
        gone: List::new(alloc),
        emptied: List::new(alloc),
    })
}

fn reach_of_delete<V: View>(alloc: Global, view: &V, op: &Op) -> Result<Reached, NoMemory>
    requires { op.now.kind ≡ OpKind.Delete }
    ensures { IfOk result (spec.IsReach (V.seen view.now) op.now) }
{
    let key = place_of(view, op);
    match view.get(&key) {
        Some(row) => reach_of_removal(alloc, view, &key, row),
        None => Ok(Reached {
            left: None,
            gone: List::new(alloc),
            emptied: List::new(alloc),
        }),
    }
}

/// What a delete of the row takes out and empties, which stands at the key.
fn reach_of_removal<V: View>(
    alloc: Global,
    view: &V,
    key: &Key,
    row: &Row,
) -> Result<Reached, NoMemory>
    requires row { row_in (V.seen view.now).rows key.now ≡ Some row.now }
    requires order { IsInPlaceOrder (V.seen view.now).rows }
    ensures { IfOk result (spec.IsRemoval REFERENCES (V.seen view.now) key.now) }
{
    let search = touched(alloc, view, key, row)?;
    let gone = keys_at(alloc, view.version(), search.lost.as_slice())?;
    let losing = losing_at(alloc, view, search.near.as_slice(), &search.lost)?;
    Ok(Reached {
        left: None,
        gone,
        emptied: keys_at(alloc, view.version(), losing.as_slice())?,
    })
}

/// The keys at the places that have that version.
fn keys_at(alloc: Global, version: u128, places: &[Place]) -> Result<List<Key>, NoMemory>
    ensures { IfOk result (λ keys. keys ≡ map (key_at version) places.now) }
{
    let mut keys = Vec::with_capacity(alloc, places.len())?;
    for place in places {
        keys.push(place.key(version))?;
    }
    Ok(List::from_vec(keys))
}

/// Those of the places at which a row stands that stays and loses a field.
fn losing_at<V: View>(
    alloc: Global,
    view: &V,
    places: &[Place],
    lost: &Places,
) -> Result<Vec<Place>, NoMemory>
    ensures { IfOk result (λ losing. losing.items ≡ filter (deleting.is_losing_at REFERENCES (V.seen view.now).rows (V.seen view.now).version lost.now) places.now) }
{
    let mut losing = Vec::new(alloc);
    for place in places {
        if is_losing_at(view, *place, lost) {
            losing.push(*place)?;
        }
    }
    Ok(losing)
}

/// Whether a row stands at the place that stays and loses a field.
fn is_losing_at<V: View>(view: &V, place: Place, lost: &Places) -> bool
    ensures { result ≡ deleting.is_losing_at REFERENCES (V.seen view.now).rows (V.seen view.now).version lost.now place }
{
    match view.get(&place.key(view.version())) {
        Some(row) => is_losing(row, lost),
        None => false,
    }
}

/// Whether the row stays and loses a field.
fn is_losing(row: &Row, lost: &Places) -> bool
    ensures { result ≡ deleting.is_losing REFERENCES lost.now (Some row.now) }
{
    !lost.has(row) && loses(row, lost)
}
