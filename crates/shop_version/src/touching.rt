//! What an operation in a draft touches outside what the draft edits.
ghost use Rattle.std.specs.Prelude.{◌≡◌, IfOk, not, find, map};
ghost use Rattle.std.specs.Option.{option_copied};
ghost use Rattle.keyed.specs.Keyed.{Ascends};
ghost use Rattle.shop_operations.specs.Operations.{place};
ghost use Rattle.shop_operations.specs.Upserts.{place_cmp};
ghost use Rattle.shop_drafts.specs.Writing as drafts;
ghost use Rattle.shop_version.specs.DraftSteps as spec;
ghost use Rattle.shop_version.specs.Overlays.{IsLayer, layer_rows, layer_view};
ghost use Rattle.shop_write.specs.Reaching.{IsReach};

use crate::joining::joined_places;
use crate::overlay::Overlay;
use shop_defs::{Key, NoMemory, Op, OpKind, Row};
use shop_drafts::is_part;
use shop_write::{Reached, View};
use std::alloc::Global;

/// The key, as the draft shows it, of the first row outside what the draft edits that the operation
/// would change, take out or leave: `None` where there is none. Want of memory is the only error.
pub(crate) fn outside(
    alloc: Global,
    overlay: &Overlay<'_>,
    op: &Op,
    reached: &Reached,
) -> Result<Option<Key>, NoMemory>
    requires layer { IsLayer overlay.now }
    requires reach { IsReach (layer_view overlay.now) op.now reached.now }
    ensures { IfOk result (λ key. key ≡ drafts.outside overlay.now.root (layer_view overlay.now) op.now op.now.kind) }
{
    match op.kind {
        OpKind::Upsert => Ok(upsert_outside(overlay, op, &reached.left)),
        OpKind::Delete => delete_outside(alloc, overlay, op, reached),
    }
}

/// The key at which the draft shows the row that the operation is on.
fn place_of(overlay: &Overlay<'_>, op: &Op) -> Key
    ensures { result ≡ place (layer_view overlay.now) op.now }
{
    Key {
        entity: op.entity,
        version: overlay.draft(),
        id: op.id,
        second: op.second,
    }
}

/// The place of an upsert, unless the row there, if there is one, and the one that is left are part of
/// what the draft edits.
fn upsert_outside(overlay: &Overlay<'_>, op: &Op, left: &Option<Row>) -> Option<Key>
    ensures { result ≡ spec.upsert_outside overlay.now op.now left.now }
{
    let key = place_of(overlay, op);
    match left {
        Some(row) if is_free_or_inside(overlay, &key) && is_part(overlay.root(), row) => None,
        _ => Some(key),
    }
}

/// Whether the row at the key's place, if one is there, is part of what the draft edits.
fn is_free_or_inside(overlay: &Overlay<'_>, key: &Key) -> bool
    ensures { result ≡ spec.is_free_or_inside overlay.now.root (layer_rows overlay.now) key.now }
{
    match overlay.get(key) {
        Some(row) => is_part(overlay.root(), row),
        None => true,
    }
}

/// The first of the rows that a delete touches that isn't part of what the draft edits.
fn delete_outside(
    alloc: Global,
    overlay: &Overlay<'_>,
    op: &Op,
    reached: &Reached,
) -> Result<Option<Key>, NoMemory>
    requires layer { IsLayer overlay.now }
    requires kind { op.now.kind ≡ OpKind.Delete }
    requires reach { IsReach (layer_view overlay.now) op.now reached.now }
    ensures { IfOk result (λ key. key ≡ drafts.outside overlay.now.root (layer_view overlay.now) op.now OpKind.Delete) }
{
    let gone = reached.gone.as_slice();
    let emptied = reached.emptied.as_slice();
    let touched = joined_places(alloc, gone, emptied)?;
    Ok(first_outside(overlay, touched.as_slice()))
}

fn first_outside(overlay: &Overlay<'_>, keys: &[Key]) -> Option<Key>
    ensures { result ≡ find (λ key. not (spec.is_free_or_inside overlay.now.root (layer_rows overlay.now) key)) keys.now }
{
    let mut rest = keys;
    while let [key, more @ ..] = rest {
        if !is_free_or_inside(overlay, key) {
            return Some(*key);
        }
        rest = more;
    }
    None
}
