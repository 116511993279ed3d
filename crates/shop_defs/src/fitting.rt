//! What a key, a field, an operation and a row may be, by their entity.
ghost use Rattle.std.specs.Prelude.{◌≡◌};
ghost use Rattle.std.specs.List.{list_all};
ghost use Rattle.shop_defs.specs.Fitting as spec;

use crate::check::value_fits;
use crate::entity::Entity;
use crate::key::Key;
use crate::lookup::{entity_info, field_at};
use crate::op::Op;
use crate::preset::is_needed;
use crate::row::Row;
use crate::table::{KeyForm, fields_of};
use crate::value::Value;

/// Whether a key of that form may have the two parts: the id isn't 0, and the second part is 0
/// exactly where the key has one part.
pub fn key_fits(form: KeyForm, id: u128, second: u128) -> bool
    ensures { result ≡ spec.key_fits form id second }
{
    match form {
        KeyForm::OnePart => id != 0 && second == 0,
        KeyForm::TwoParts => id != 0 && second != 0,
    }
}

/// Whether the two parts are of the form of the entity's keys.
pub fn parts_fit(entity: Entity, id: u128, second: u128) -> bool
    ensures { result ≡ spec.parts_fit entity id second }
{
    key_fits(entity_info(entity).key, id, second)
}

/// Whether a row's key is of the form of its entity's keys. Its version may be any.
pub fn row_key_fits(key: &Key) -> bool
    ensures { result ≡ spec.row_key_fits key.now }
{
    parts_fit(key.entity, key.id, key.second)
}

/// Whether operations may write the entity's rows.
pub fn is_writable(entity: Entity) -> bool
    ensures { result ≡ spec.is_writable entity }
{
    entity_info(entity).is_writable
}

/// Whether the entity has a field of that number, and the value fits its kind.
pub fn field_fits(entity: Entity, number: u8, value: &Value) -> bool
    ensures { result ≡ spec.field_fits entity (number, value.now) }
{
    match field_at(entity, number) {
        Some(field) => value_fits(field.kind, value),
        None => false,
    }
}

/// Whether each field of a row is one of the entity's, with a value that fits its kind.
pub fn fields_fit(entity: Entity, fields: &[(u8, Value)]) -> bool
    ensures { result ≡ list_all (spec.field_fits entity) fields.now }
{
    fields
        .iter()
        .all(|field| field_fits(entity, field.0, &field.1))
}

/// Whether the entity has a field of that number, and what is given for it is null or fits its kind.
pub fn given_fits(entity: Entity, number: u8, value: &Option<Value>) -> bool
    ensures { result ≡ spec.given_fits entity (number, value.now) }
{
    match (field_at(entity, number), value) {
        (None, _) => false,
        (Some(_), None) => true,
        (Some(field), Some(value)) => value_fits(field.kind, value),
    }
}

/// Whether an operation's key is of its entity's form, and each field that it gives is one of its
/// entity's, empty or with a value that fits. Operations may also be on an entity that they may not
/// write: see `is_writable`.
pub fn op_fits(op: &Op) -> bool
    ensures { result ≡ spec.op_fits op.now }
{
    parts_fit(op.entity, op.id, op.second) && all_given_fit(op.entity, op.fields.as_slice())
}

fn all_given_fit(entity: Entity, fields: &[(u8, Option<Value>)]) -> bool
    ensures { result ≡ list_all (spec.given_fits entity) fields.now }
{
    fields
        .iter()
        .all(|field| given_fits(entity, field.0, &field.1))
}

/// Whether the row has a value in each field of its entity that is required or has a preset.
pub fn has_needed(row: &Row) -> bool
    ensures { result ≡ spec.has_needed row.now }
{
    fields_of(row.key.entity)
        .iter()
        .filter(|field| is_needed(field))
        .all(|field| row.field(field.number).is_some())
}
