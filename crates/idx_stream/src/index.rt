//! The index of streams.
ghost use Rattle.std.specs.Prelude.{◌≡◌, ℕ, List as ListOf, Option as OptionOf, Some, OnOk, IfOk};
ghost use Rattle.std.specs.Option.{option_copied};
ghost use Rattle.shop_defs.specs.Rows.{change_rows};
ghost use Rattle.shop_rows.specs.Changing.{StandUnderTheirKeys, HasAscendingKeys};
ghost use Rattle.renewed.specs.Renewing.{left};
ghost use Rattle.renewed.specs.Showing.{Shows, value_at};
ghost use Rattle.shop_meanings.specs.Live.{AreOrderly};
ghost use Rattle.product_meanings.specs.Streams.{members as the_members};
ghost use Rattle.idx_stream.specs.Affecting.{IsOutside, IsRenewed};

use crate::members::{edited_members, find_members};
use crate::touched::{Affected, Touched, find_affected, looked_at, stream_ids};
use id_sets::Ids;
use renewed::{Meaning, Renewed, Table};
use shop_defs::{Delta, List, NoMemory};
use shop_rows::Rows;
use std::alloc::Global;
use std::marker::Model;

/// The members of streams, as what a table means.
struct Members;

impl Meaning for Members {
    type Over = Rows;

    type Change = Delta;

    type Touched = Touched;

    type Value = Ids;

    ghost of = { λ rows id. the_members rows.list id };

    ghost IsFit = { λ rows. AreOrderly rows.list };

    ghost Leads = { λ before delta after. (after.list ≡ change_rows before.list delta.changes) × StandUnderTheirKeys delta.changes × HasAscendingKeys delta.changes };

    ghost IsTouched = { λ before after touched. IsOutside before.list after.list touched.affected.products touched.affected.streams };

    ghost keys_of = { λ touched. touched.keys.items };

    fn value(alloc: Global, over: &Rows, key: u128) -> Result<Option<Ids>, NoMemory> {
        find_members(alloc, over, key)
    }

    fn keys(alloc: Global, over: &Rows) -> Result<List<u128>, NoMemory> {
        let ids = stream_ids(alloc, over)?;
        Ok(List::from_vec(ids))
    }

    fn touched(
        alloc: Global,
        before: &Rows,
        after: &Rows,
        change: &Delta,
    ) -> Result<Touched, NoMemory> {
        let affected = find_affected(alloc, before, after, change)?;
        let keys = looked_at(alloc, after, &affected)?;
        Ok(Touched { affected, keys })
    }

    fn touched_keys(touched: &Touched) -> &[u128] {
        touched.keys.as_slice()
    }

    fn renew(
        alloc: Global,
        _: &Rows,
        after: &Rows,
        touched: &Touched,
        key: u128,
        old: Option<&Ids>,
    ) -> Result<Renewed<Ids>, NoMemory> {
        match old {
            Some(old) if !touched.affected.streams.has(key) => {
                renew_members(alloc, after, key, old, &touched.affected.products)
            }
            _ => find_anew(alloc, after, key),
        }
    }
}

/// Looks at the products alone.
fn renew_members(
    alloc: Global,
    rows: &Rows,
    stream: u128,
    old: &Ids,
    products: &Ids,
) -> Result<Renewed<Ids>, NoMemory>
    requires { AreOrderly rows.now.list }
    ensures { IfOk result (λ renewed. IsRenewed rows.now.list stream old.now products.now (left renewed (Some old.now))) }
{
    match edited_members(alloc, rows, stream, old, products)? {
        Some(ids) => Ok(Renewed::New(ids)),
        None => Ok(Renewed::Same),
    }
}

/// Finds all members.
fn find_anew(alloc: Global, rows: &Rows, stream: u128) -> Result<Renewed<Ids>, NoMemory>
    requires { AreOrderly rows.now.list }
    ensures { IfOk result (λ renewed. (old : OptionOf (ListOf ℕ)) → left renewed old ≡ the_members rows.now.list stream) }
{
    match find_members(alloc, rows, stream)? {
        Some(ids) => Ok(Renewed::New(ids)),
        None => Ok(Renewed::Gone),
    }
}

/// Which products each live stream has as members.
///
/// Contracts see the list of the live streams' ids, ascending, each with the ids of its members.
#[derive(Drop)]
pub struct StreamIndex {
    table: Table<Ids>,
}

impl Model for StreamIndex {
    ghost use Rattle.std.specs.Prelude.{ℕ, List};

    ghost Value = { List (ℕ × List ℕ) };

    ghost view = { λ i. i.table };
}

impl StreamIndex {
    /// The index of the rows. Want of memory is the only error, here and below.
    pub fn build(alloc: Global, rows: &Rows) -> Result<StreamIndex, NoMemory>
        requires { AreOrderly rows.now.list }
        ensures { IfOk result (Shows (the_members rows.now.list)) }
    {
        let table = Table::build::<Members>(alloc, rows)?;
        Ok(StreamIndex { table })
    }

    /// What the delta may affect, which leads from the rows before to those after: outside of both
    /// lists a membership is the same before and after.
    pub fn affected(
        alloc: Global,
        before: &Rows,
        after: &Rows,
        delta: &Delta,
    ) -> Result<Affected, NoMemory>
        requires was_orderly { AreOrderly before.now.list }
        requires orderly { AreOrderly after.now.list }
        requires leads { after.now.list ≡ change_rows before.now.list delta.now.changes }
        requires keys { StandUnderTheirKeys delta.now.changes }
        requires once { HasAscendingKeys delta.now.changes }
        ensures { IfOk result (λ affected. IsOutside before.now.list after.now.list affected.products affected.streams) }
    {
        find_affected(alloc, before, after, delta)
    }

    /// Keeps the index in step with a delta that leads from the rows before to those after. After want
    /// of memory the index is only fit to be dropped.
    pub fn apply(
        &mut self,
        alloc: Global,
        before: &Rows,
        after: &Rows,
        delta: &Delta,
    ) -> Result<(), NoMemory>
        requires shows { Shows (the_members before.now.list) self.old }
        requires was_orderly { AreOrderly before.now.list }
        requires orderly { AreOrderly after.now.list }
        requires leads { after.now.list ≡ change_rows before.now.list delta.now.changes }
        requires keys { StandUnderTheirKeys delta.now.changes }
        requires once { HasAscendingKeys delta.now.changes }
        ensures { OnOk result (Shows (the_members after.now.list) self.new) }
    {
        self.table.apply::<Members>(alloc, before, after, delta)
    }

    /// The ids of the stream's members, ascending: `None` exactly where there is no such live stream.
    /// It takes no memory.
    pub fn members(&self, stream: u128) -> Option<&[u128]>
        ensures { option_copied result ≡ value_at self.now stream }
    {
        match self.table.get(stream) {
            Some(ids) => Some(ids.as_slice()),
            None => None,
        }
    }

    /// The same index, whose pages are shared.
    pub fn copy(&self) -> Result<StreamIndex, NoMemory>
        ensures { IfOk result (λ copy. copy ≡ self.now) }
    {
        let table = self.table.copy()?;
        Ok(StreamIndex { table })
    }
}
