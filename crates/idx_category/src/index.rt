//! The index of categories.
ghost use Rattle.std.specs.Prelude.{◌≡◌, ℕ, OnOk, IfOk, map};
ghost use Rattle.std.specs.Option.{option_copied, option_map};
ghost use Rattle.shop_defs.specs.declared.entity.Entity.TheVariants as E;
ghost use Rattle.shop_defs.specs.Rows.{change_rows};
ghost use Rattle.shop_operations.specs.References.{of_version};
ghost use Rattle.shop_rows.specs.Changing.{StandUnderTheirKeys, HasAscendingKeys};
ghost use Rattle.shop_rows.specs.Lookups.{keys_of as keys_in};
ghost use Rattle.renewed.specs.Showing.{Shows, value_at};
ghost use Rattle.shop_meanings.specs.Live.{AreOrderly};
ghost use Rattle.shop_meanings.specs.Categories.{standing};

use crate::place::find_standing;
use crate::touched::touched_ids;
use renewed::{Meaning, Renewed, Table};
use shop_defs::{Delta, Entity, List, NoMemory};
use shop_meanings::Standing;
use shop_rows::Rows;
use std::alloc::Global;
use std::marker::Model;

/// Where categories stand, as what a table means.
struct Standings;

impl Meaning for Standings {
    type Over = Rows;

    type Change = Delta;

    type Touched = List<u128>;

    type Value = Standing;

    ghost of = { λ rows id. standing rows.list id };

    ghost IsFit = { λ rows. AreOrderly rows.list };

    ghost Leads = { λ before delta after. (after.list ≡ change_rows before.list delta.changes) × StandUnderTheirKeys delta.changes × HasAscendingKeys delta.changes };

    ghost IsTouched = { λ _ _ _. Unit {0} };

    ghost keys_of = { λ touched. touched };

    fn value(alloc: Global, over: &Rows, key: u128) -> Result<Option<Standing>, NoMemory> {
        find_standing(alloc, over, key)
    }

    fn keys(alloc: Global, over: &Rows) -> Result<List<u128>, NoMemory> {
        category_ids(alloc, over)
    }

    fn touched(
        alloc: Global,
        before: &Rows,
        after: &Rows,
        change: &Delta,
    ) -> Result<List<u128>, NoMemory> {
        touched_ids(alloc, before, after, change)
    }

    fn touched_keys(touched: &List<u128>) -> &[u128] {
        touched.as_slice()
    }

    fn renew(
        alloc: Global,
        _: &Rows,
        after: &Rows,
        _: &List<u128>,
        key: u128,
        _: Option<&Standing>,
    ) -> Result<Renewed<Standing>, NoMemory> {
        match find_standing(alloc, after, key)? {
            Some(standing) => Ok(Renewed::New(standing)),
            None => Ok(Renewed::Gone),
        }
    }
}

/// The ids of the live categories.
fn category_ids(alloc: Global, rows: &Rows) -> Result<List<u128>, NoMemory>
    ensures { IfOk result (λ ids. ids ≡ map (λ key. key.id) (keys_in (of_version 0 rows.now.list) E.Category)) }
{
    let keys = rows.keys_of(alloc, Entity::Category, 0)?;
    let mut ids = Vec::new(alloc);
    for key in keys.as_slice() {
        ids.push(key.id)?;
    }
    Ok(List::from_vec(ids))
}

/// Where each live category stands among the others.
///
/// Contracts see the list of the live categories' ids, ascending, each with where it stands.
#[derive(Drop)]
pub struct PathIndex {
    table: Table<Standing>,
}

impl Model for PathIndex {
    ghost use Rattle.std.specs.Prelude.{ℕ, List};
    ghost use Rattle.shop_meanings.specs.declared.standing.Standing.{Standing};

    ghost Value = { List (ℕ × Standing) };

    ghost view = { λ i. i.table };
}

impl PathIndex {
    /// The index of the rows. Want of memory is the only error, here and below.
    pub fn build(alloc: Global, rows: &Rows) -> Result<PathIndex, NoMemory>
        requires { AreOrderly rows.now.list }
        ensures { IfOk result (Shows (standing rows.now.list)) }
    {
        let table = Table::build::<Standings>(alloc, rows)?;
        Ok(PathIndex { table })
    }

    /// Keeps the index in step with a delta that leads from the rows before to those after. After want
    /// of memory the index is only fit to be dropped.
    pub fn apply(
        &mut self,
        alloc: Global,
        before: &Rows,
        after: &Rows,
        delta: &Delta,
    ) -> Result<(), NoMemory>
        requires shows { Shows (standing before.now.list) self.old }
        requires was_orderly { AreOrderly before.now.list }
        requires orderly { AreOrderly after.now.list }
        requires leads { after.now.list ≡ change_rows before.now.list delta.now.changes }
        requires keys { StandUnderTheirKeys delta.now.changes }
        requires once { HasAscendingKeys delta.now.changes }
        ensures { OnOk result (Shows (standing after.now.list) self.new) }
    {
        self.table.apply::<Standings>(alloc, before, after, delta)
    }

    /// The ids of the category's ancestors, from the root to its parent: `None` exactly where there is
    /// no such live category. It takes no memory, and neither do `level` and `child_count`.
    pub fn path(&self, category: u128) -> Option<&[u128]>
        ensures { option_copied result ≡ option_map (λ standing. standing.path) (value_at self.now category) }
    {
        match self.table.get(category) {
            Some(standing) => Some(standing.path.as_slice()),
            None => None,
        }
    }

    /// One more than how many ancestors the category has: from 1 to 32. `None` is as in `path`.
    pub fn level(&self, category: u128) -> Option<u32>
        ensures { result ≡ option_map (λ standing. standing.level) (value_at self.now category) }
    {
        match self.table.get(category) {
            Some(standing) => Some(standing.level),
            None => None,
        }
    }

    /// How many categories have that one as their parent. `None` is as in `path`.
    pub fn child_count(&self, category: u128) -> Option<u32>
        ensures { result ≡ option_map (λ standing. standing.children) (value_at self.now category) }
    {
        match self.table.get(category) {
            Some(standing) => Some(standing.children),
            None => None,
        }
    }

    /// All three, lent: `None` is as in `path`. It takes no memory.
    pub fn standing(&self, category: u128) -> Option<&Standing>
        ensures { option_copied result ≡ value_at self.now category }
    {
        self.table.get(category)
    }

    /// The same index, whose pages are shared.
    pub fn copy(&self) -> Result<PathIndex, NoMemory>
        ensures { IfOk result (λ copy. copy ≡ self.now) }
    {
        let table = self.table.copy()?;
        Ok(PathIndex { table })
    }
}
