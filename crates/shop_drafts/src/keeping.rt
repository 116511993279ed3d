//! The rows that keep a draft: its own, and its commits.
ghost use Rattle.std.specs.Prelude.{◌≡◌};
ghost use Rattle.shop_drafts.specs.Drafts as spec;

use crate::aggregate::{ROOT, ROOT_ENTITY, Root};
use shop_defs::{Entity, Key, Row, Value, entity_named};

/// The key of the draft of that version.
pub fn draft_key(version: u128) -> Key
    ensures { result ≡ spec.draft_key version }
{
    Key {
        entity: Entity::Draft,
        version: 0,
        id: version,
        second: 0,
    }
}

/// The key of its commit with that number, counted from 1.
pub fn commit_key(version: u128, number: u32) -> Key
    ensures { result ≡ spec.commit_key version number }
{
    Key {
        entity: Entity::DraftCommit,
        version: 0,
        id: version,
        second: number as u128,
    }
}

/// The row that a draft is made of, as the draft's row names it: `None` where it names none.
pub fn root_of(draft: &Row) -> Option<Root>
    ensures { result ≡ spec.root_of draft.now }
{
    match (root_entity(draft), root_id(draft)) {
        (Some(entity), Some(id)) => Some(Root { entity, id }),
        _ => None,
    }
}

fn root_entity(draft: &Row) -> Option<Entity>
    ensures { result ≡ spec.named_entity (spec.root_name draft.now) }
{
    match draft.field(ROOT_ENTITY) {
        Some(Value::Text(name)) => entity_named(name.as_bytes()),
        _ => None,
    }
}

fn root_id(draft: &Row) -> Option<u128>
    ensures { result ≡ spec.root_ident draft.now }
{
    match draft.field(ROOT) {
        Some(Value::Ident(id)) => Some(*id),
        _ => None,
    }
}
