//! The rows that keep a draft, found by look-ups.
ghost use Rattle.std.specs.Prelude.{◌≡◌, ◌≢◌, ℕ, ◌++◌, List, Some, IfOk, OnOk, map, filter, length};
ghost use Rattle.std.specs.Option.{option_copied};
ghost use Rattle.shop_defs.specs.declared.row.Row.{Row};
ghost use Rattle.shop_defs.specs.Rows.{row_at, row_key, field_of};
ghost use Rattle.shop_operations.specs.References.{of_version};
ghost use Rattle.shop_drafts.specs.Drafts as spec;
ghost use Rattle.shop_drafts.specs.Making.{is_of_draft};
ghost use Rattle.shop_drafts.specs.Soundness.{AreDrafted};
ghost use Rattle.shop_version.specs.Numbers.{number_told, small_number};
ghost use Rattle.shop_version.specs.Taking.{parts, of_member, numbers, commit_keys};

use shop_defs::{Key, NoMemory, Row, Value};
use shop_drafts::{COMMITS, MEMBERS, Member, commit_key, draft_key};
use shop_rows::Rows;
use std::alloc::Global;

/// The row of the version's draft: `None` where there is none. It takes no memory.
pub fn draft_of<'a>(rows: &'a Rows, version: u128) -> Option<&'a Row>
    ensures { option_copied result ≡ row_at rows.entry.now.list (spec.draft_key version) }
{
    rows.get(&draft_key(version))
}

/// How many commits a draft has, as its row tells: 0 where it tells no number below 2^32.
pub fn commit_count(draft: &Row) -> u32
    ensures told { result ≡ number_told (field_of draft.now COMMITS) }
    // Among rows that pass the rule on drafts, it is how many there are.
    ensures commits { (rows : List Row) (version : ℕ) → AreDrafted rows → row_at rows (spec.draft_key version) ≡ Some draft.now → result ≡ length (spec.commits rows version) }
{
    count_in(draft.field(COMMITS))
}

fn count_in(value: Option<&Value>) -> u32
    ensures { result ≡ number_told (option_copied value.entry) }
{
    match value {
        Some(Value::Int(count)) => small(*count),
        _ => 0,
    }
}

/// The number, where it is none below 0 and below 2^32, and else 0.
fn small(count: i64) -> u32
    ensures { result ≡ small_number count }
{
    if count < 0 {
        return 0;
    }
    if count >= 4_294_967_296 {
        return 0;
    }
    count as u32
}

/// The keys, ascending, of the rows of the version, which has a draft or none. It costs in proportion
/// to the draft. Want of memory is the only error, here and below.
pub fn own_keys(alloc: Global, rows: &Rows, version: u128) -> Result<Vec<Key>, NoMemory>
    requires drafted { AreDrafted rows.now.list }
    requires not_live { version ≢ 0 }
    ensures { IfOk result (λ keys. keys.items ≡ map row_key (of_version version rows.now.list)) }
{
    let keys = keys_by(alloc, rows, version, &MEMBERS)?;
    Ok(keys)
}

/// The keys of the rows of the version, member by member.
fn keys_by(
    alloc: Global,
    rows: &Rows,
    version: u128,
    members: &[Member],
) -> Result<Vec<Key>, NoMemory>
    ensures { IfOk result (λ keys. keys.items ≡ map row_key (parts of_member members.now (of_version version rows.now.list))) }
{
    let mut keys = Vec::new(alloc);
    for member in members {
        let found = rows.keys_of(alloc, member.entity, version)?;
        keys.extend_from_slice(found.as_slice())?;
    }
    Ok(keys)
}

/// The keys, ascending, of all rows of the draft, of which this is the row: those of its version, its
/// own and its commits.
pub(crate) fn all_keys(
    alloc: Global,
    rows: &Rows,
    version: u128,
    draft: &Row,
) -> Result<Vec<Key>, NoMemory>
    requires drafted { AreDrafted rows.now.list }
    requires not_live { version ≢ 0 }
    requires draft { row_at rows.now.list (spec.draft_key version) ≡ Some draft.now }
    ensures { IfOk result (λ keys. keys.items ≡ map row_key (filter (is_of_draft version) rows.now.list)) }
{
    let mut keys = own_keys(alloc, rows, version)?;
    keys.push(draft_key(version))?;
    push_commits(&mut keys, version, commit_count(draft))?;
    Ok(keys)
}

/// Pushes the keys of so many commits.
fn push_commits(keys: &mut Vec<Key>, version: u128, count: u32) -> Result<(), NoMemory>
    ensures { OnOk result (keys.new.items ≡ keys.old.items ++ commit_keys version (numbers 1 count)) }
{
    for number in 0..count {
        keys.push(commit_key(version, number + 1))?;
    }
    Ok(())
}
