//! Where one category stands, by look-ups.
ghost use Rattle.std.specs.Prelude.{◌≡◌, ◌++◌, ◌<◌, ◌+◌, ◌-◌, ℕ, length, IfOk, OnOk};
ghost use Rattle.std.specs.Option.{option_copied, option_map};
ghost use Rattle.shop_defs.specs.declared.entity.Entity.TheVariants as E;
ghost use Rattle.shop_meanings.specs.Live as live;
ghost use Rattle.shop_meanings.specs.Categories as spec;

use shop_defs::{Entity, Key, List, NoMemory};
use shop_meanings::Standing;
use shop_operations::parent_id;
use shop_rows::Rows;
use std::alloc::Global;

/// A category has at most so many levels.
pub(crate) const MOST_LEVELS: u32 = 32;

/// The key of a live category.
pub(crate) fn category_key(id: u128) -> Key
    ensures { result ≡ live.live_key E.Category id }
{
    Key {
        entity: Entity::Category,
        version: 0,
        id,
        second: 0,
    }
}

/// The category that the live one with that id names as its parent.
pub(crate) fn above(rows: &Rows, id: u128) -> Option<u128>
    ensures { result ≡ spec.above rows.now.list id }
{
    match rows.get(&category_key(id)) {
        Some(row) => parent_id(row),
        None => None,
    }
}

/// Puts the ids above a category behind those of the list, from the root on: so many at most.
#[tactic(auto, using(crate::proofs::Steps::walk_zero, crate::proofs::Steps::walk_root, crate::proofs::Steps::walk_step, std::proofs::Common::append_assoc))]
fn add_path(
    alloc: Global,
    rows: &Rows,
    id: u128,
    steps: u32,
    path: &mut List<u128>,
) -> Result<(), NoMemory>
    ensures { OnOk result (path.new ≡ path.old ++ spec.walk (spec.above rows.now.list) steps id) }
{
    if steps == 0 {
        return Ok(());
    }
    match above(rows, id) {
        Some(parent) => {
            add_path(alloc, rows, parent, steps - 1, path)?;
            path.push(parent)
        }
        None => Ok(()),
    }
}

/// The ids of the categories above one, from the root to its parent, by look-ups. Want of memory is
/// the only error.
#[tactic(auto, using(crate::proofs::Steps::as_path))]
pub fn category_path(alloc: Global, rows: &Rows, id: u128) -> Result<List<u128>, NoMemory>
    requires { live.AreOrderly rows.now.list }
    ensures { IfOk result (λ path. path ≡ spec.path rows.now.list id) }
{
    let mut path = List::new(alloc);
    add_path(alloc, rows, id, MOST_LEVELS, &mut path)?;
    Ok(path)
}

/// Where the category with that id stands: none where there is no such live category.
pub(crate) fn find_standing(
    alloc: Global,
    rows: &Rows,
    id: u128,
) -> Result<Option<Standing>, NoMemory>
    requires { live.AreOrderly rows.now.list }
    ensures { IfOk result (λ standing. standing ≡ spec.standing rows.now.list id) }
{
    if rows.get(&category_key(id)).is_none() {
        return Ok(None);
    }
    let path = category_path(alloc, rows, id)?;
    let level = level_below(&path);
    Ok(Some(Standing {
        path,
        level,
        children: child_count(rows, id),
    }))
}

/// One more than the path is long.
fn level_below(path: &List<u128>) -> u32
    requires { length path.now < 32 }
    ensures { result ≡ length path.now + 1 }
{
    path.len() as u32 + 1
}

/// How many categories have that one as their parent.
#[tactic(auto, using(crate::proofs::Steps::children_count, crate::proofs::Steps::children_few))]
fn child_count(rows: &Rows, id: u128) -> u32
    requires { live.AreOrderly rows.now.list }
    ensures { result ≡ length (spec.children_of rows.now.list id) }
{
    rows.count_children(Entity::Category, 0, id) as u32
}
