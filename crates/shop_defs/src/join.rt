//! Deltas made one.
ghost use Rattle.std.specs.Prelude.{◌≡◌, IfOk, OnOk};
ghost use Rattle.keyed.specs.Keyed.{Ascends};
ghost use Rattle.shop_defs.specs.Keys.{key_cmp};
ghost use Rattle.shop_defs.specs.Joined.{joined, add_changes, change_at, change_key, last_change};

use crate::copied::{Copied, NoMemory};
use crate::delta::Delta;
use crate::key::Key;
use crate::list::List;
use crate::row::Row;
use ordered::Ordered;
use std::alloc::Global;

/// Puts a copy of each change at its key, in place of the one that stands there.
fn add(
    alloc: Global,
    all: &mut Ordered<(Key, Option<Row>)>,
    changes: &[(Key, Option<Row>)],
) -> Result<(), NoMemory>
    ensures { OnOk result (all.new.list ≡ add_changes all.old.list changes.now) }
{
    for change in changes {
        all.put(change.copy(alloc)?)?;
    }
    Ok(())
}

/// One delta in place of several that come one after the other: the last change of each key counts.
/// Want of memory is the only error.
pub fn join_deltas(alloc: Global, deltas: &[Delta]) -> Result<Delta, NoMemory>
    ensures value { IfOk result (λ delta. delta.changes ≡ joined deltas.now) }
    ensures ascends { IfOk result (λ delta. Ascends key_cmp change_key delta.changes) }
    // At each key stands the last change of that key, and none where no delta changes it.
    ensures last { IfOk result (λ delta. (key : Key) → change_at delta.changes key ≡ last_change deltas.now key) }
{
    let mut all = Ordered::new(alloc);
    for delta in deltas {
        add(alloc, &mut all, delta.changes.as_slice())?;
    }
    Ok(Delta {
        changes: List::from_vec(all.into_vec()),
    })
}
