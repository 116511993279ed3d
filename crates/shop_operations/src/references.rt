//! How a row refers to others.
ghost use Rattle.std.specs.Prelude.{◌≡◌, ◌==◌, ◌&&◌};
ghost use Rattle.std.specs.Option.{option_copied};
ghost use Rattle.shop_defs.specs.Entities.{entity_number};
ghost use Rattle.shop_operations.specs.References as spec;

use shop_defs::{Entity, Key, OnDelete, Part, REFERENCES, Reference, Row, Value};

/// The id in a part of the row: `None` where it holds no id. It takes no memory.
pub fn part_of(part: Part, row: &Row) -> Option<u128>
    ensures { result ≡ spec.part_of part row.now }
{
    match part {
        Part::Id => Some(row.key.id),
        Part::Second => Some(row.key.second),
        Part::Field(number) => ident(row.field(number)),
    }
}

/// The id that the row names by the reference: `None` where it names none, or is of another entity.
/// It takes no memory.
pub fn named(reference: &Reference, row: &Row) -> Option<u128>
    ensures { result ≡ spec.named reference.now row.now }
{
    if reference.entity == row.key.entity {
        return part_of(reference.part, row);
    }
    None
}

/// Whether the row names the other by the reference.
pub fn ties(reference: &Reference, row: &Row, other: &Row) -> bool
    ensures { result ≡ spec.ties reference.now row.now other.now }
{
    reference.of == other.key.entity && is_id(named(reference, row), other.key.id)
}

/// Whether the row goes with a delete of the one at the key.
pub fn falls_with(row: &Row, key: &Key) -> bool
    ensures { result ≡ spec.falls_at REFERENCES row.now (entity_number key.now.entity) key.now.id }
{
    falls_in(&REFERENCES, row, key)
}

/// Whether the row refers to the one at the key, by a reference that a delete looks at.
pub fn refers_to(row: &Row, key: &Key) -> bool
    ensures { result ≡ spec.refers_at REFERENCES row.now (entity_number key.now.entity) key.now.id }
{
    refers_in(&REFERENCES, row, key)
}

#[tactic(auto, unfolding(crate::specs::References::falls_at))]
fn falls_in(table: &[Reference], row: &Row, key: &Key) -> bool
    ensures { result ≡ spec.falls_at table.now row.now (entity_number key.now.entity) key.now.id }
{
    table.iter().any(|reference| cascades(reference.on_delete) && names(reference, row, key))
}

#[tactic(auto, unfolding(crate::specs::References::refers_at))]
fn refers_in(table: &[Reference], row: &Row, key: &Key) -> bool
    ensures { result ≡ spec.refers_at table.now row.now (entity_number key.now.entity) key.now.id }
{
    table.iter().any(|reference| reference.acts_on_delete() && names(reference, row, key))
}

/// Whether the row names the one at the key by the reference.
fn names(reference: &Reference, row: &Row, key: &Key) -> bool
    ensures { result ≡ ((entity_number reference.now.of == entity_number key.now.entity) && spec.is_id (spec.named reference.now row.now) key.now.id) }
{
    reference.of == key.entity && is_id(named(reference, row), key.id)
}

/// Whether that id is named.
pub fn is_id(named: Option<u128>, id: u128) -> bool
    ensures { result ≡ spec.is_id named id }
{
    match named {
        Some(other) => other == id,
        None => false,
    }
}

fn ident(value: Option<&Value>) -> Option<u128>
    ensures { result ≡ spec.ident (option_copied value.entry) }
{
    match value {
        Some(Value::Ident(id)) => Some(*id),
        _ => None,
    }
}

fn cascades(on_delete: OnDelete) -> bool
    ensures { result ≡ spec.cascades on_delete }
{
    match on_delete {
        OnDelete::Cascade => true,
        _ => false,
    }
}

/// Whether the row that refers holds a delete back.
pub fn restricts(on_delete: OnDelete) -> bool
    ensures { result ≡ spec.restricts on_delete }
{
    match on_delete {
        OnDelete::Restrict => true,
        _ => false,
    }
}

/// Whether the field that refers becomes null.
pub fn sets_null(on_delete: OnDelete) -> bool
    ensures { result ≡ spec.sets_null on_delete }
{
    match on_delete {
        OnDelete::SetNull => true,
        _ => false,
    }
}
