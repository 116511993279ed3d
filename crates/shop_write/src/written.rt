//! A view's rows with a row that is written at its place, looked up by id.
ghost use Rattle.std.specs.Prelude.{◌≡◌, true, find};
ghost use Rattle.std.specs.Option.{option_copied};
ghost use Rattle.shop_operations.specs.References.{is_one};
ghost use Rattle.shop_operations.specs.Upserts.{row_in, with_row};
ghost use Rattle.shop_write.specs.Writes.{IsWrite, has_one_part};

use crate::view::View;
use shop_defs::{Entity, Key, Row};
use shop_operations::stands_at;

/// The row at the key's place: the written one, or the view's.
pub(crate) fn row_at<'a, V: View>(view: &'a V, row: &'a Row, key: &Key) -> Option<&'a Row>
    ensures { option_copied result ≡ row_in (with_row (V.seen view.entry.now).rows row.entry.now) key.now }
{
    if stands_at(key, row) {
        return Some(row);
    }
    view.get(key)
}

/// The row with that id of an entity whose keys have one part: the written one, or the view's.
pub(crate) fn row_of<'a, V: View>(
    view: &'a V,
    row: &'a Row,
    of: Entity,
    id: u128,
) -> Option<&'a Row>
    requires write { IsWrite (V.seen view.now) row.now }
    requires one { has_one_part of ≡ true }
    ensures { option_copied result ≡ find (is_one of id) (with_row (V.seen view.entry.now).rows row.entry.now) }
{
    let key = Key {
        entity: of,
        version: 0,
        id,
        second: 0,
    };
    row_at(view, row, &key)
}
