//! Changes in the order of their keys.
ghost use Rattle.std.specs.Prelude.{◌≡◌, [], IfOk};
ghost use Rattle.shop_defs.specs.Joined.{add_changes};
ghost use Rattle.shop_rows.specs.Changing.{HasAscendingKeys};

use ordered::Ordered;
use shop_defs::{Delta, Key, List, NoMemory, Row};
use std::alloc::Global;

/// The changes in the order of their keys: of those at one key, the last. Want of memory is the only
/// error.
pub(crate) fn in_key_order(
    alloc: Global,
    changes: List<(Key, Option<Row>)>,
) -> Result<Delta, NoMemory>
    ensures changes { IfOk result (λ delta. delta.changes ≡ add_changes [] changes) }
    ensures ascend { IfOk result (λ delta. HasAscendingKeys delta.changes) }
{
    let mut all = Ordered::new(alloc);
    for change in changes.into_vec() {
        all.put(change)?;
    }
    Ok(Delta {
        changes: List::from_vec(all.into_vec()),
    })
}
