//! Rows with the same unique fields.
ghost use Rattle.std.specs.Prelude.{◌≡◌, not, ◌||◌, ◌&&◌};
ghost use Rattle.std.specs.List.{list_any, list_all};
ghost use Rattle.std.specs.Option.{option_copied};
ghost use Rattle.shop_defs.specs.declared.table.FieldInfo.{FieldInfo};
ghost use Rattle.shop_defs.specs.Rows.{field_of};
ghost use Rattle.shop_operations.specs.Upserts as spec;

use crate::places::stands_at;
use shop_defs::{Entity, FieldInfo, Row, Value, fields_of};

/// Whether the other is another row of the same entity with the same unique fields, none of them
/// null. No row is where the entity has no unique fields. It takes no memory.
#[tactic(auto, unfolding(crate::specs::Upserts::is_twin))]
pub fn is_twin(row: &Row, other: &Row) -> bool
    ensures { result ≡ spec.is_twin row.now other.now }
{
    row.key.entity == other.key.entity
        && !stands_at(&row.key, other)
        && has_unique(row.key.entity)
        && agree_in_unique(row.key.entity, row, other)
}

/// Whether the entity has fields that are unique together.
pub fn has_unique(entity: Entity) -> bool
    ensures { result ≡ spec.has_unique entity }
{
    fields_of(entity).iter().any(|field| field.marks.unique)
}

fn agree_in_unique(entity: Entity, row: &Row, other: &Row) -> bool
    ensures { result ≡ spec.agree_in_unique entity row.now other.now }
{
    fields_of(entity).iter().all(|field| !field.marks.unique || agrees_as_given(field, row, other))
}

fn agrees_as_given(field: &FieldInfo, row: &Row, other: &Row) -> bool
    ensures { result ≡ spec.same_given (field_of row.now field.now.number) (field_of other.now field.now.number) }
{
    row.field(field.number).is_some()
        && same_value(row.field(field.number), other.field(field.number))
}

/// Whether two rows have the same in the field: the same value, or none.
pub fn agree_in(number: u8, row: &Row, other: &Row) -> bool
    ensures { result ≡ spec.agree_in number row.now other.now }
{
    same_value(row.field(number), other.field(number))
}

/// Whether the two are the same value, or both are none.
pub fn same_value(value: Option<&Value>, other: Option<&Value>) -> bool
    ensures { result ≡ spec.same_value (option_copied value.entry) (option_copied other.entry) }
{
    match (value, other) {
        (None, None) => true,
        (Some(Value::Flag(a)), Some(Value::Flag(b))) => *a == *b,
        (Some(Value::Int(a)), Some(Value::Int(b))) => *a == *b,
        (Some(Value::Text(a)), Some(Value::Text(b))) => a.as_bytes() == b.as_bytes(),
        (Some(Value::Ident(a)), Some(Value::Ident(b))) => *a == *b,
        _ => false,
    }
}
