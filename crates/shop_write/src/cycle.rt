//! Whether a written row is below itself.
ghost use Rattle.std.specs.Prelude.{◌≡◌};
ghost use Rattle.std.specs.Option.{option_copied};
ghost use Rattle.shop_defs.specs.declared.table.TheConstants.{REFERENCES};
ghost use Rattle.shop_operations.specs.Parents as spec;
ghost use Rattle.shop_operations.specs.Upserts.{with_row};
ghost use Rattle.shop_write.specs.Writes.{IsWrite};

use crate::view::View;
use crate::written::row_of;
use shop_defs::Row;
use shop_operations::{parent_id, stands_at};

/// The parent of a row, among a view's rows with the written one.
pub(crate) fn parent_of<'a, V: View>(view: &'a V, row: &'a Row, of: &Row) -> Option<&'a Row>
    requires { IsWrite (V.seen view.now) row.now }
    ensures { option_copied result ≡ spec.parent_row REFERENCES (with_row (V.seen view.entry.now).rows row.entry.now) of.now }
{
    match parent_id(of) {
        Some(id) => row_of(view, row, of.key.entity, id),
        None => None,
    }
}

/// Whether the way up from the written row comes back to it. A way up that comes back to no row at all, or
/// to another, ends, or is given up after as many steps as there are rows of the entity.
pub(crate) fn is_below_itself<V: View>(view: &V, row: &Row) -> bool
    requires { IsWrite (V.seen view.now) row.now }
    ensures { result ≡ spec.is_below REFERENCES (with_row (V.seen view.now).rows row.now) row.now row.now }
{
    let mut left = view.count(row.key.entity) as u128 + 1;
    let mut at = parent_of(view, row, row);
    while let Some(above) = at {
        if stands_at(&row.key, above) {
            return true;
        }
        if left == 0 {
            return false;
        }
        left -= 1;
        at = parent_of(view, row, above);
    }
    false
}
