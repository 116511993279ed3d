//! A draft is made.
ghost use Rattle.std.specs.Prelude.{◌≡◌, ◌≢◌, ◌≤◌, [], ◌∷◌, None, Some, true, IfOk, find, map, nat_lt, length, is_some};
ghost use Rattle.std.specs.Option.{option_copied, option_map};
ghost use Rattle.shop_defs.specs.Rows.{row_at, row_key, IsInKeyOrder};
ghost use Rattle.shop_defs.specs.declared.broken.Broken.TheVariants as rules;
ghost use Rattle.shop_operations.specs.Operations.{first};
ghost use Rattle.shop_operations.specs.References.{live};
ghost use Rattle.shop_rows.specs.Lookups.{count_rows};
ghost use Rattle.shop_drafts.specs.Aggregates.{is_member, is_part};
ghost use Rattle.shop_drafts.specs.Making as spec;
ghost use Rattle.shop_drafts.specs.Soundness.{AreDrafted};
ghost use Rattle.shop_version.specs.Laws.{LeavesMake};
ghost use Rattle.shop_version.specs.Overlays.{rows_at};
ghost use Rattle.shop_version.specs.Plans.{Plans, TellsCopies};
ghost use Rattle.shop_version.specs.Taking as taking;
ghost use Rattle.shop_write.specs.Growth.{put_in};

use crate::drafts::draft_of;
use crate::dropping::refused;
use crate::joining::key_at;
use crate::overlay::{copies_at, small_count};
use shop_defs::{
    Broken, Delta, Entity, Key, List, MOST_ROWS, NoMemory, PlanFault, Row, Txt, Value, entity_name,
    entity_named,
};
use shop_drafts::{COMMITS, MEMBERS, Member, ROOT, ROOT_ENTITY, Root, draft_key, is_root};
use shop_rows::Rows;
use std::alloc::Global;

/// What making a draft of that version changes: copies of the live row of the entity with that name
/// and that id, and of what belongs to it, are put under the version, and the draft's own row. There
/// is one change for each copied row, and one more.
///
/// It is refused by the first of these that holds: `UnknownEntity` where no entity has the name,
/// `NotVersioned` where it is neither a product nor a category, `VersionExists` where there is a draft
/// of the version, `NoSuchRow` where the row isn't there, and `TooMany` where there would be more rows
/// of an entity than there may be, for the first such. The other error is want of memory. It costs in
/// proportion to what is copied.
pub fn plan_draft(
    alloc: Global,
    rows: &Rows,
    version: u128,
    entity: &[u8],
    root: u128,
) -> Result<Delta, PlanFault>
    requires drafted { AreDrafted rows.now.list }
    requires not_live { version ≢ 0 }
    ensures plan { Plans rows.now.list (spec.make_draft rows.now.list version entity.now root) result }
    ensures copies { TellsCopies rows.now.list version entity.now root result }
    // What they leave, in words.
    ensures leaves { LeavesMake rows.now.list version result }
{
    match entity_named(entity) {
        Some(entity) => make(alloc, rows, version, &Root { entity, id: root }),
        None => Err(refused(Broken::UnknownEntity)),
    }
}

/// The same of that root.
fn make(alloc: Global, rows: &Rows, version: u128, root: &Root) -> Result<Delta, PlanFault>
    requires drafted { AreDrafted rows.now.list }
    requires not_live { version ≢ 0 }
    ensures { taking.Makes rows.now.list version root.now result }
{
    match refusal(rows, version, root) {
        Some(broken) => Err(refused(broken)),
        None => make_there(alloc, rows, version, root),
    }
}

/// The first rule that is broken, of those that tell without a copy.
fn refusal(rows: &Rows, version: u128, root: &Root) -> Option<Broken>
    ensures { result ≡ first (spec.not_root root.now ∷ spec.version_exists rows.now.list version ∷ spec.no_such_root rows.now.list root.now ∷ []) }
{
    if !is_root(root.entity) {
        return Some(Broken::NotVersioned {
            entity: root.entity,
        });
    }
    match draft_of(rows, version) {
        Some(_) => Some(Broken::VersionExists { version }),
        None => missing_root(rows, root),
    }
}

fn missing_root(rows: &Rows, root: &Root) -> Option<Broken>
    ensures { result ≡ spec.no_such_root rows.now.list root.now }
{
    let key = root_key(root);
    match rows.get(&key) {
        Some(_) => None,
        None => Some(Broken::NoSuchRow { key }),
    }
}

/// The key of the live row that a draft is made of.
fn root_key(root: &Root) -> Key
    ensures { result ≡ spec.root_key root.now }
{
    Key {
        entity: root.entity,
        version: 0,
        id: root.id,
        second: 0,
    }
}

/// The changes that make a draft of the root, where only its size may stand against it.
fn make_there(alloc: Global, rows: &Rows, version: u128, root: &Root) -> Result<Delta, PlanFault>
    requires drafted { AreDrafted rows.now.list }
    requires not_live { version ≢ 0 }
    requires unbroken { first (spec.not_root root.now ∷ spec.version_exists rows.now.list version ∷ spec.no_such_root rows.now.list root.now ∷ []) ≡ None }
    ensures { taking.Makes rows.now.list version root.now result }
{
    let made = made_rows(alloc, rows, version, root)?;
    match too_many(rows, made.as_slice()) {
        Some(broken) => Err(refused(broken)),
        None => Ok(puts(alloc, made)?),
    }
}

/// What is put where a draft is made of the root, which is there. Want of memory is the only error,
/// here and below.
fn made_rows(alloc: Global, rows: &Rows, version: u128, root: &Root) -> Result<Vec<Row>, NoMemory>
    requires drafted { AreDrafted rows.now.list }
    requires there { is_some (row_at rows.now.list (spec.root_key root.now)) ≡ true }
    ensures { IfOk result (λ made. made.items ≡ spec.made_rows rows.now.list version root.now) }
{
    let keys = part_keys(alloc, rows, root, &MEMBERS)?;
    let parts = copies_at(alloc, rows, keys.as_slice())?;
    let mut made = moved(alloc, version, parts)?;
    let draft = new_draft(alloc, version, root)?;
    made.push(draft)?;
    Ok(made)
}

/// The keys, ascending, of the live rows that a draft of the root edits by the members.
fn part_keys(
    alloc: Global,
    rows: &Rows,
    root: &Root,
    members: &[Member],
) -> Result<Vec<Key>, NoMemory>
    requires drafted { AreDrafted rows.now.list }
    requires there { is_some (row_at rows.now.list (spec.root_key root.now)) ≡ true }
    requires members { taking.AreMembers members.now }
    ensures { IfOk result (λ keys. keys.items ≡ map row_key (taking.parts (is_member root.now) members.now (live rows.now.list))) }
{
    let mut keys = Vec::new(alloc);
    for member in members {
        let found = member_keys(alloc, rows, root, member)?;
        keys.extend_from_slice(found.as_slice())?;
    }
    Ok(keys)
}

/// The keys of those that it edits by that member: the root itself, or what refers to it.
fn member_keys(
    alloc: Global,
    rows: &Rows,
    root: &Root,
    member: &Member,
) -> Result<List<Key>, NoMemory>
    requires drafted { AreDrafted rows.now.list }
    requires there { is_some (row_at rows.now.list (spec.root_key root.now)) ≡ true }
    requires member { taking.IsMember member.now }
    ensures { IfOk result (λ keys. keys ≡ map row_key (taking.parts_of root.now member.now (live rows.now.list))) }
{
    if member.root != root.entity {
        return Ok(List::new(alloc));
    }
    let key = root_key(root);
    if member.entity == root.entity {
        let mut keys = List::new(alloc);
        keys.push(key)?;
        return Ok(keys);
    }
    rows.referrers_by(alloc, member.entity, 0, &key)
}

/// The rows under the version.
pub(crate) fn moved(alloc: Global, version: u128, parts: Vec<Row>) -> Result<Vec<Row>, NoMemory>
    ensures { IfOk result (λ moved. moved.items ≡ map (spec.at_version version) parts.items) }
{
    let mut moved = Vec::new(alloc);
    for part in parts {
        moved.push(at_version(version, part))?;
    }
    Ok(moved)
}

fn at_version(version: u128, row: Row) -> Row
    ensures { result ≡ spec.at_version version row }
{
    Row {
        key: key_at(version, &row.key),
        fields: row.fields,
        ops: row.ops,
    }
}

/// The row of a draft without commits.
fn new_draft(alloc: Global, version: u128, root: &Root) -> Result<Row, NoMemory>
    ensures { IfOk result (λ row. row ≡ spec.new_draft version root.now) }
{
    let name = Txt::from_str(alloc, entity_name(root.entity))?;
    let mut fields = List::new(alloc);
    fields.push((ROOT_ENTITY, Value::Text(name)))?;
    fields.push((ROOT, Value::Ident(root.id)))?;
    fields.push((COMMITS, Value::Int(0)))?;
    Ok(Row {
        key: draft_key(version),
        fields,
        ops: List::new(alloc),
    })
}

/// The refusal for the first of the rows of whose entity there would be more than there may be.
fn too_many(rows: &Rows, made: &[Row]) -> Option<Broken>
    ensures { result ≡ option_map (λ row. rules.TooMany row.key.entity MOST_ROWS) (find (λ row. taking.is_crowded rows.now.list made.now row.key.entity) made.now) }
{
    match first_crowded(rows, made) {
        Some(row) => Some(Broken::TooMany {
            entity: row.key.entity,
            limit: MOST_ROWS,
        }),
        None => None,
    }
}

fn first_crowded<'a>(rows: &Rows, made: &'a [Row]) -> Option<&'a Row>
    ensures { option_copied result ≡ find (λ row. taking.is_crowded rows.now.list made.entry.now row.key.entity) made.entry.now }
{
    made.iter()
        .find(|row| is_crowded(rows, made, row.key.entity))
}

/// Whether there would be more rows of the entity than there may be. It counts what is made only
/// where that may tell.
#[tactic(auto, unfolding(crate::specs::Taking::is_crowded))]
fn is_crowded(rows: &Rows, made: &[Row], entity: Entity) -> bool
    ensures { result ≡ taking.is_crowded rows.now.list made.now entity }
{
    let found = small_count(rows, entity);
    let most = MOST_ROWS as usize;
    found + made.len() > most && found + count_of(made, entity) > most
}

fn count_of(made: &[Row], entity: Entity) -> usize
    ensures count { result ≡ count_rows made.now entity }
    ensures few { result ≤ length made.now }
{
    made.iter().filter(|row| entity == row.key.entity).count()
}

/// The changes that put the rows.
pub(crate) fn puts(alloc: Global, rows: Vec<Row>) -> Result<Delta, NoMemory>
    ensures { IfOk result (λ delta. delta.changes ≡ map put_in rows.items) }
{
    let mut changes = List::new(alloc);
    for row in rows {
        changes.push((row.key, Some(row)))?;
    }
    Ok(Delta { changes })
}
