//! Rows with the unique fields of a written one.
ghost use Rattle.std.specs.Prelude.{◌≡◌, IfOk};
ghost use Rattle.shop_operations.specs.Upserts as spec;

use crate::view::View;
use shop_defs::{Broken, NoMemory, Row};
use std::alloc::Global;

/// The refusal of a written row with the same unique fields as another: the first such row is named.
/// Want of memory is the only error.
pub(crate) fn duplicate<V: View>(
    alloc: Global,
    view: &V,
    row: &Row,
) -> Result<Option<Broken>, NoMemory>
    ensures { IfOk result (λ broken. broken ≡ spec.duplicate (spec.with_row (V.seen view.now).rows row.now) row.now) }
{
    match view.twin(alloc, row)? {
        Some(other) => Ok(Some(Broken::Duplicate { key: other.key })),
        None => Ok(None),
    }
}
