//! What no clause says: that each call succeeds where memory is ample, over a source with one key.
ghost use Rattle.std.specs.Prelude.{◌≡◌, ◌==◌, [], ◌∷◌, Some, None, if◌then◌else◌};

use crate::meaning::{Meaning, Renewed};
use crate::table::Table;
use shop_defs::{List, NoMemory};
use std::alloc::Global;

/// One key and what stands at it.
#[derive(Drop)]
struct Single {
    key: u128,
    value: u64,
}

struct Singles;

impl Meaning for Singles {
    ghost use Rattle.std.specs.Prelude.{◌≡◌, ◌==◌, [], ◌∷◌, Some, None, if◌then◌else◌};

    type Over = Single;

    type Change = ();

    type Touched = List<u128>;

    type Value = u64;

    ghost of = { λ over key. if over.key == key then Some over.value else None };

    ghost IsFit = { λ _. Unit {0} };

    ghost Leads = { λ _ _ _. Unit {0} };

    ghost IsTouched = { λ before after touched. touched ≡ before.key ∷ after.key ∷ [] };

    ghost keys_of = { λ touched. touched };

    fn value(_: Global, over: &Single, key: u128) -> Result<Option<u64>, NoMemory> {
        if over.key == key {
            Ok(Some(over.value))
        } else {
            Ok(None)
        }
    }

    fn keys(alloc: Global, over: &Single) -> Result<List<u128>, NoMemory> {
        let mut keys = List::new(alloc);
        keys.push(over.key)?;
        Ok(keys)
    }

    fn touched(
        alloc: Global,
        before: &Single,
        after: &Single,
        _: &(),
    ) -> Result<List<u128>, NoMemory> {
        let mut keys = List::new(alloc);
        keys.push(before.key)?;
        keys.push(after.key)?;
        Ok(keys)
    }

    fn touched_keys(touched: &List<u128>) -> &[u128] {
        touched.as_slice()
    }

    fn renew(
        _: Global,
        _: &Single,
        after: &Single,
        _: &List<u128>,
        key: u128,
        _: Option<&u64>,
    ) -> Result<Renewed<u64>, NoMemory> {
        if after.key == key {
            Ok(Renewed::New(after.value))
        } else {
            Ok(Renewed::Gone)
        }
    }
}

/// A key and its value before a change and after it, and what then stands at the key before and at
/// the one after: 0 for nothing.
const CHANGES: [(u128, u64, u128, u64, u64, u64); 3] = [
    (1, 5, 1, 6, 6, 6),
    (1, 5, 2, 6, 0, 6),
    (3, 5, 3, 5, 5, 5),
];

#[test]
fn changes(rt: HostRuntime) {
    for change in &CHANGES {
        assert!(rt; matches!(is_renewed(rt.alloc(), change), Ok(true)));
    }
}

/// Whether a copy of the table before is in step after the change, and the table is as it was.
fn is_renewed(alloc: Global, change: &(u128, u64, u128, u64, u64, u64)) -> Result<bool, NoMemory> {
    let before = Single {
        key: change.0,
        value: change.1,
    };
    let after = Single {
        key: change.2,
        value: change.3,
    };
    let table = Table::build::<Singles>(alloc, &before)?;
    let mut next = table.copy()?;
    next.apply::<Singles>(alloc, &before, &after, &())?;
    Ok(
        stands(&table, change.0, change.1)
            && stands(&next, change.0, change.4)
            && stands(&next, change.2, change.5),
    )
}

/// Whether the value stands at the key: for 0, whether nothing does.
fn stands(table: &Table<u64>, key: u128, value: u64) -> bool {
    match table.get(key) {
        Some(found) => *found == value,
        None => value == 0,
    }
}
