//! Changes of a list of bytes under their keys, in any order.
ghost use Rattle.std.specs.Prelude.{◌≡◌, ◌≤◌, ◌+◌, ◌∷◌, ◌++◌, [], false, length, IfOk, OnOk, OnErr};
ghost use Rattle.std.specs.Vec.{vec_len, vec_capacity};
ghost use Rattle.std.specs.Ordering.{is_eq};
ghost use Rattle.shop_defs.specs.Keys.{key_cmp};
ghost use Rattle.keyed.specs.Keyed.{Ascends};
ghost use Rattle.shop_outside.specs.Keeping.{kept_key, kept_rows, IsChanged};
ghost use Rattle.shop_outside.specs.Scanning.{keys_ascend, others_of};
ghost use Rattle.shop_outside.specs.Scanning.{ChangesAt, OthersStay, ChangesInTurn};

use shop_defs::{Copied, Key, List, NoMemory};
use std::alloc::Global;

/// Whether the keys ascend.
#[tactic(auto, using(crate::proofs::Ascending::short_ascends))]
pub(crate) fn has_ascending_keys<T>(rows: &[(Key, T)]) -> bool
    ensures { result ≡ keys_ascend rows.now }
{
    let mut rest = rows;
    while let [row, next, ..] = rest {
        if !row.0.order(&next.0).is_lt() {
            return false;
        }
        rest = &rest[1..];
    }
    true
}

fn has_key(row: &(Key, List<u8>), key: &Key) -> bool
    ensures { result ≡ is_eq (key_cmp row.now.0 key.now) }
{
    row.0.order(key).is_eq()
}

/// Removes each row with the key, wherever it stands.
fn remove_each(rows: &mut Vec<(Key, List<u8>)>, key: &Key)
    ensures items { rows.new.items ≡ others_of rows.old.items key.now }
    ensures len { vec_len rows.new ≤ vec_len rows.old }
    ensures capacity { vec_capacity rows.old ≤ vec_capacity rows.new }
{
    rows.retain(|row| !has_key(row, key));
}

fn push_in_room(rows: &mut Vec<(Key, List<u8>)>, row: (Key, List<u8>))
    requires room { vec_len rows.old + 1 ≤ vec_capacity rows.old }
    ensures items { rows.new.items ≡ rows.old.items ++ row ∷ [] }
    ensures len { vec_len rows.new ≡ vec_len rows.old + 1 }
    ensures capacity { vec_capacity rows.old ≤ vec_capacity rows.new }
{
    match rows.push(row) {
        Ok(()) => {}
        Err(_) => unreachable!(),
    }
}

/// Makes one change in any list that has room, also where its keys don't ascend or stand twice.
fn change_by_scan(rows: &mut Vec<(Key, List<u8>)>, key: Key, change: Option<List<u8>>)
    requires { vec_len rows.old + 1 ≤ vec_capacity rows.old }
    ensures bytes { ChangesAt rows.old.items key change rows.new.items }
    ensures others { OthersStay rows.old.items key rows.new.items }
    ensures len { vec_len rows.new ≤ vec_len rows.old + 1 }
    ensures capacity { vec_capacity rows.old ≤ vec_capacity rows.new }
{
    remove_each(rows, &key);
    match change {
        Some(body) => push_in_room(rows, (key, body)),
        None => {}
    }
}

/// Makes the changes in turn in any list that has room.
fn change_all_by_scan(rows: &mut Vec<(Key, List<u8>)>, changes: Vec<(Key, Option<List<u8>>)>)
    requires { vec_len rows.old + length changes.items ≤ vec_capacity rows.old }
    ensures bytes { ChangesInTurn rows.old.items changes.items rows.new.items }
    ensures others { kept_rows changes.items rows.new.items
        ≡ kept_rows changes.items rows.old.items }
{
    for (key, change) in changes {
        change_by_scan(rows, key, change);
    }
}

/// Makes the changes in a list whose keys don't ascend: all of them or, where memory is refused,
/// none.
pub(crate) fn change_list(
    alloc: Global,
    rows: &mut Vec<(Key, List<u8>)>,
    changes: &[(Key, Option<List<u8>>)],
) -> Result<(), NoMemory>
    requires order { keys_ascend rows.old.items ≡ false }
    requires keys { Ascends key_cmp kept_key changes.now }
    ensures ok { OnOk result (IsChanged rows.old.items changes.now rows.new.items) }
    ensures err { OnErr result (rows.new.items ≡ rows.old.items) }
{
    let copies = copy_changes(alloc, changes)?;
    rows.reserve(copies.len())?;
    change_all_by_scan(rows, copies);
    Ok(())
}

fn copy_changes(
    alloc: Global,
    changes: &[(Key, Option<List<u8>>)],
) -> Result<Vec<(Key, Option<List<u8>>)>, NoMemory>
    ensures { IfOk result (λ copies. copies.items ≡ changes.now) }
{
    let mut copies = Vec::new(alloc);
    for change in changes {
        copies.push(change.copy(alloc)?)?;
    }
    Ok(copies)
}
