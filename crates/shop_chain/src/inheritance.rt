//! Values that a product has of its own or inherits from its parent.
ghost use Rattle.std.specs.Prelude.{◌≡◌};
ghost use Rattle.std.specs.Option.{option_copied};
ghost use Rattle.shop_chain.specs.Inheriting as spec;

use shop_defs::{Entity, Row, Value, field_at};

/// What counts for a field of a row: its own value; where it has none and the field is one that is
/// inherited, the parent's, if a parent is handed in. `None` where there is none. It takes no memory,
/// and the value lives as long as the rows.
pub fn effective<'a>(own: &'a Row, parent: Option<&'a Row>, field: u8) -> Option<&'a Value>
    ensures { option_copied result ≡ spec.effective own.entry.now (option_copied parent.entry) field }
{
    if let Some(value) = own.field(field) {
        return Some(value);
    }
    match parent {
        Some(row) => inherited(row, own.key.entity, field),
        None => None,
    }
}

/// What a row of the entity inherits from that parent.
fn inherited(parent: &Row, entity: Entity, field: u8) -> Option<&Value>
    ensures { option_copied result ≡ spec.inherited parent.now entity field }
{
    match field_at(entity, field) {
        Some(info) if info.marks.inherited => parent.field(field),
        _ => None,
    }
}
