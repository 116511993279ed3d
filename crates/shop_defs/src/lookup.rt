//! Entities and fields, looked up by name and by number.
ghost use Rattle.std.specs.Prelude.{◌≡◌, Some, IfSome, IsSome};
ghost use Rattle.shop_defs.specs.Texts.{entity_text};
ghost use Rattle.std.specs.Option.{option_copied};
ghost use Rattle.shop_defs.specs.Tables as spec;
ghost use Rattle.shop_defs.specs.References.{part_name};

use crate::entity::Entity;
use crate::table::{ENTITIES, EntityInfo, FieldInfo, Part, fields_of};
use crate::words::entity_name;

/// The entity with that name, such as `product_price`: `None` where no entity has it. It takes no
/// memory.
pub fn entity_named(name: &[u8]) -> Option<Entity>
    ensures value { result ≡ spec.entity_named name.now }
    ensures named { IfSome result (λ entity. entity_text entity ≡ name.now) }
{
    match info_named(name) {
        Some(info) => Some(info.entity),
        None => None,
    }
}

/// The number of the entity's field with that name: `None` where it has no such field. It takes no
/// memory.
pub fn field_named(entity: Entity, name: &[u8]) -> Option<u8>
    ensures value { result ≡ spec.field_named entity name.now }
    ensures known { IfSome result (λ number. IsSome (spec.field_at entity number)) }
{
    match field_with_name(entity, name) {
        Some(field) => Some(field.number),
        None => None,
    }
}

/// What the table says of an entity.
pub fn entity_info(entity: Entity) -> EntityInfo
    ensures { spec.info_of entity ≡ Some result }
{
    ENTITIES[entity.number() as usize - 1]
}

/// What the table says of the entity with that name, if there is one.
pub fn info_named(name: &[u8]) -> Option<EntityInfo>
    ensures { result ≡ spec.info_named name.now }
{
    entity_in(&ENTITIES, name)
}

/// The entity's field with that number: `None` where it has no such field.
pub fn field_at(entity: Entity, number: u8) -> Option<FieldInfo>
    ensures { result ≡ spec.field_at entity number }
{
    number_in(fields_of(entity), number)
}

/// The entity's field with that name: `None` where it has no such field.
pub fn field_with_name(entity: Entity, name: &[u8]) -> Option<FieldInfo>
    ensures { result ≡ spec.field_with_name entity name.now }
{
    name_in(fields_of(entity), name)
}

impl Part {
    /// The name by which a refusal names this part of the entity's rows: `id` or `second` of their
    /// key, or the name of the field. `None` where the entity has no such field.
    pub fn name(self, entity: Entity) -> Option<&'static str>
        ensures { option_copied result ≡ part_name entity self }
    {
        match self {
            Part::Id => Some("id"),
            Part::Second => Some("second"),
            Part::Field(number) => match field_at(entity, number) {
                Some(field) => Some(field.name.text()),
                None => None,
            },
        }
    }
}

fn entity_in(table: &[EntityInfo], name: &[u8]) -> Option<EntityInfo>
    ensures { result ≡ spec.entity_in table.now name.now }
{
    let mut rest = table;
    while let [info, more @ ..] = rest {
        if entity_name(info.entity).as_bytes() == name {
            return Some(*info);
        }
        rest = more;
    }
    None
}

fn name_in(table: &[FieldInfo], name: &[u8]) -> Option<FieldInfo>
    ensures { result ≡ spec.name_in table.now name.now }
{
    let mut rest = table;
    while let [field, more @ ..] = rest {
        if field.name.text().as_bytes() == name {
            return Some(*field);
        }
        rest = more;
    }
    None
}

fn number_in(table: &[FieldInfo], number: u8) -> Option<FieldInfo>
    ensures { result ≡ spec.number_in table.now number }
{
    let mut rest = table;
    while let [field, more @ ..] = rest {
        if field.number == number {
            return Some(*field);
        }
        rest = more;
    }
    None
}
