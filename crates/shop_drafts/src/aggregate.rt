//! What a draft edits: a product or a category, with the rows that belong to it.
ghost use Rattle.std.specs.Prelude.{◌≡◌, ◌&&◌};
ghost use Rattle.shop_operations.specs.References.{is_entity, is_id, part_of};
ghost use Rattle.shop_drafts.specs.Aggregates as spec;

use shop_defs::{Entity, Part, Row, entity_info};
use shop_operations::{is_id, part_of};

/// That rows of an entity are part of what a draft edits.
#[derive(Drop, Clone, Copy)]
pub struct Member {
    /// The entity of the row that the draft is made of: its root.
    pub root: Entity,
    /// The entity whose rows are part of it.
    pub entity: Entity,
    /// Where such a row holds the id of the root.
    pub part: Part,
}

macro_rules! member {
    ($root:ident; $entity:ident; $part:expr) => {
        Member {
            root: Entity::$root,
            entity: Entity::$entity,
            part: $part,
        }
    };
}

/// What is edited by a draft: of a product its row, its translations, its links to categories and
/// its prices, and of a category its row and its translations.
pub static MEMBERS: [Member; 6] = [
    member!(Category; Category; Part::Id),
    member!(Category; CategoryTranslation; Part::Id),
    member!(Product; Product; Part::Id),
    member!(Product; ProductTranslation; Part::Id),
    member!(Product; ProductCategory; Part::Id),
    member!(Product; ProductPrice; Part::Field(1)),
];

/// The number of a draft's field that holds the entity of its root.
pub const ROOT_ENTITY: u8 = 1;

/// The number of the field that holds the id of its root.
pub const ROOT: u8 = 2;

/// The number of the field that holds how many commits it has.
pub const COMMITS: u8 = 3;

/// The number of a commit's field that holds how many operations it has.
pub const COUNT: u8 = 1;

/// The greatest number of operations of a commit, as of a batch.
pub const MOST_OPS: usize = 1000;

/// The row that a draft is made of.
#[derive(Drop, Clone, Copy)]
pub struct Root {
    pub entity: Entity,
    pub id: u128,
}

/// Whether rows of the entity may stand in versions beside the live one.
pub fn has_versions(entity: Entity) -> bool
    ensures { result ≡ spec.has_versions entity }
{
    entity_info(entity).has_versions
}

/// Whether a draft may be made of rows of the entity.
pub fn is_root(entity: Entity) -> bool
    ensures { result ≡ spec.is_root entity }
{
    MEMBERS.iter().any(|member| member.root == entity)
}

/// Whether the row is part of what a draft of the root edits. It takes no memory.
pub fn is_part(root: &Root, row: &Row) -> bool
    ensures { result ≡ spec.is_part root.now row.now }
{
    is_part_by(&MEMBERS, root, row)
}

#[tactic(auto, unfolding(crate::specs::Aggregates::is_part_by))]
fn is_part_by(members: &[Member], root: &Root, row: &Row) -> bool
    ensures { result ≡ spec.is_part_by members.now root.now row.now }
{
    members.iter().any(|member| is_member(root, row, member))
}

fn is_member(root: &Root, row: &Row, member: &Member) -> bool
    ensures { result ≡ spec.is_member root.now row.now member.now }
{
    member.root == root.entity
        && member.entity == row.key.entity
        && is_id(part_of(member.part, row), root.id)
}
