//! The live rows while operations change them.
ghost use Rattle.std.specs.Prelude.{◌≡◌, ◌<◌, ◌^◌, true, Ok, IfOk, IfErr, OnOk, OnErr, [], ◌++◌, map};
ghost use Rattle.std.specs.Option.{option_copied, option_map, option_to_list};
ghost use Rattle.shop_defs.specs.Entities.{entity_number};
ghost use Rattle.shop_defs.specs.Fitting.{op_fits};
ghost use Rattle.shop_operations.specs.Operations.{operated};
ghost use Rattle.shop_operations.specs.References.{live};
ghost use Rattle.shop_operations.specs.Views.{change_places, drafted};
ghost use Rattle.shop_rows.specs.Changing.{StandUnderTheirKeys, HasAscendingKeys};
ghost use Rattle.shop_rows.specs.Lookups.{count_rows};
ghost use Rattle.shop_rows.specs.Owners.{count_owned};
ghost use Rattle.shop_defs.specs.Rows.{row_at, row_key, change_rows};
ghost use Rattle.shop_write.specs.Growth as spec;
ghost use Rattle.shop_write.specs.Growth.{left_by, grown, grown_view, changes_so_far, AreLive};
ghost use Rattle.shop_write.specs.Planning.{IsPlanFault};
ghost use Rattle.shop_write.specs.Writes.{TakesUpsert};

use crate::live::live_key;
use crate::merging::{joined_keys, merged_keys};
use crate::operation::plan_op;
use crate::view::View;
use shop_defs::{
    Copied, Delta, Entity, Key, List, NoMemory, Op, OpKind, OwnerLimit, PlanFault, Row,
};
use shop_rows::{Rows, Walk};
use std::alloc::{AllocError, Global};
use std::marker::Model;

/// The live rows that operations found, and what they changed of them so far: a view of version 0.
///
/// Contracts see the rows that the operations found, those of them that they replaced or took out, and
/// those that they put. A look-up goes by place, and costs what it finds and searches in these three.
#[derive(Drop)]
pub struct Growing<'a> {
    base: &'a Rows,
    /// The live rows of the base that were replaced or taken out, as they were.
    lost: Rows,
    /// The rows that were put.
    over: Rows,
}

impl<'a> Model for Growing<'a> {
    ghost use Rattle.shop_write.specs.Growth.{Growth, IsGrowth};

    ghost Value = { Growth };

    ghost view = { λ g. record { base = g.base.now.list; lost = g.lost.list; over = g.over.list } };

    ghost invariant = { λ g. IsGrowth (record { base = g.base.now.list; lost = g.lost.list; over = g.over.list }) };
}

impl<'a> Growing<'a> {
    /// The live rows, of which nothing is changed yet. It takes no memory.
    pub fn new(alloc: Global, base: &'a Rows) -> Growing<'a>
        ensures { result ≡ record { base = base.entry.now.list; lost = []; over = [] } }
    {
        let _order = base.len();
        Growing {
            base,
            lost: Rows::empty(alloc),
            over: Rows::empty(alloc),
        }
    }

    /// Does the operation. With `replay` a delete of a row that isn't there changes nothing.
    ///
    /// An upsert asks what `plan_op` asks. The first rule that it breaks refuses it, without a number of
    /// an operation; the other error is want of memory. After both the rows stay as they were.
    pub fn operate(&mut self, alloc: Global, op: &Op, replay: bool) -> Result<(), PlanFault>
        requires takes { op.now.kind ≡ OpKind.Upsert → TakesUpsert (grown_view self.old) op.now }
        requires fits { op_fits op.now ≡ true }
        ensures ok { OnOk result (operated (grown_view self.old) op.now replay ≡ Ok (grown self.new)) }
        ensures fault { IfErr result (IsPlanFault (grown_view self.old) op.now replay) }
        ensures base { self.new.base ≡ self.old.base }
        ensures err { OnErr result (self.new ≡ self.old) }
    {
        let delta = plan_op(alloc, self, op, replay)?;
        match self.take_in(alloc, delta) {
            Ok(()) => Ok(()),
            Err(_) => Err(PlanFault::NoMemory),
        }
    }

    /// Makes the changes, of which each key is live and stands once, and each row under its key.
    /// Where memory is refused, which is the only error, the live rows stay as they were.
    fn take_in(&mut self, alloc: Global, delta: Delta) -> Result<(), NoMemory>
        requires ascend { HasAscendingKeys delta.changes }
        requires stand { StandUnderTheirKeys delta.changes }
        requires live { AreLive delta.changes }
        ensures rows { OnOk result (grown self.new ≡ change_places (grown self.old) delta.changes) }
        ensures base { self.new.base ≡ self.old.base }
        ensures err { OnErr result (self.new ≡ self.old) }
    {
        let lost = losses(alloc, self.base, delta.changes.as_slice())?;
        self.lost.reserve(&lost)?;
        self.over.reserve(&delta)?;
        self.lost.apply(lost);
        self.over.apply(delta);
        Ok(())
    }

    /// What the operations changed so far, as one delta over the rows that they found. Want of memory is
    /// the only error.
    pub fn delta(&self, alloc: Global) -> Result<Delta, NoMemory>
        ensures changes { IfOk result (λ delta. delta.changes ≡ changes_so_far self.now) }
        ensures ascend { IfOk result (λ delta. HasAscendingKeys delta.changes) }
        ensures stand { IfOk result (λ delta. StandUnderTheirKeys delta.changes) }
        ensures live { IfOk result (λ delta. AreLive delta.changes) }
        ensures drafts { IfOk result (λ delta. drafted (change_rows self.now.base delta.changes) ≡ drafted self.now.base) }
    {
        let lost = keys_of(alloc, self.lost.iter())?;
        let over = keys_of(alloc, self.over.iter())?;
        let keys = joined_keys(alloc, lost.as_slice(), over.as_slice())?;
        let changes = changes_by(alloc, &self.over, keys.as_slice())?;
        Ok(Delta { changes })
    }

    /// The row that the batch found at the key, unless it is lost.
    fn get_untouched<'b>(&'b self, key: &Key) -> Option<&'b Row>
        ensures { option_copied result ≡ left_by (row_at self.entry.now.base key.now) (row_at self.entry.now.lost key.now) None }
    {
        match self.lost.get(key) {
            Some(_) => None,
            None => self.base.get(key),
        }
    }
}

impl<'a> View for Growing<'a> {
    ghost use Rattle.shop_write.specs.Growth.{grown_view};

    ghost seen = { grown_view };

    fn version(&self) -> u128 {
        0
    }

    fn get<'b>(&'b self, key: &Key) -> Option<&'b Row> {
        let live = live_key(key);
        match self.over.get(&live) {
            Some(row) => Some(row),
            None => self.get_untouched(&live),
        }
    }

    fn child_keys(
        &self,
        alloc: Global,
        entity: Entity,
        parent: u128,
    ) -> Result<List<Key>, NoMemory> {
        let base = View::child_keys(self.base, alloc, entity, parent)?;
        let over = View::child_keys(&self.over, alloc, entity, parent)?;
        let keys = merged_keys(alloc, &self.lost, base.as_slice(), over.as_slice())?;
        Ok(keys)
    }

    fn referrers_of(&self, alloc: Global, key: &Key) -> Result<List<Key>, NoMemory> {
        let base = View::referrers_of(self.base, alloc, key)?;
        let over = View::referrers_of(&self.over, alloc, key)?;
        let keys = merged_keys(alloc, &self.lost, base.as_slice(), over.as_slice())?;
        Ok(keys)
    }

    fn twins(&self, alloc: Global, row: &Row) -> Result<List<Key>, NoMemory> {
        let base = View::twins(self.base, alloc, row)?;
        let over = View::twins(&self.over, alloc, row)?;
        let keys = merged_keys(alloc, &self.lost, base.as_slice(), over.as_slice())?;
        Ok(keys)
    }

    fn count(&self, entity: Entity) -> usize {
        small_count(self.base, entity) + small_count(&self.over, entity) - self.lost.count(entity)
    }

    fn count_owned(&self, limit: &OwnerLimit, owner: u128) -> usize {
        small_count_owned(self.base, limit, owner) + small_count_owned(&self.over, limit, owner)
            - self.lost.count_owned(limit, owner)
    }
}

/// How many rows of the entity there are: fewer than half of what a number of places holds.
fn small_count(rows: &Rows, entity: Entity) -> usize
    ensures count { result ≡ count_rows rows.now.list entity }
    ensures small { result < 2 ^ 63 }
{
    let _all = rows.len();
    rows.count(entity)
}

/// How many live rows of the limit's entity the owner has: fewer than half of what a number of
/// places holds.
fn small_count_owned(rows: &Rows, limit: &OwnerLimit, owner: u128) -> usize
    ensures count { result ≡ count_owned limit.now (live rows.now.list) owner }
    ensures small { result < 2 ^ 63 }
{
    let _all = rows.len();
    rows.count_owned(limit, owner)
}

/// The keys of the rows.
fn keys_of(alloc: Global, rows: Walk<'_>) -> Result<Vec<Key>, AllocError>
    ensures { IfOk result (λ keys. keys.items ≡ map row_key rows.entry) }
{
    let mut keys = Vec::new(alloc);
    let mut rows = rows;
    while let Some(row) = rows.next() {
        keys.push(row.key)?;
    }
    Ok(keys)
}

/// Of each key what is put there, or else that its row is taken out.
fn changes_by(
    alloc: Global,
    over: &Rows,
    keys: &[Key],
) -> Result<List<(Key, Option<Row>)>, NoMemory>
    ensures { IfOk result (λ changes. changes ≡ map (spec.change_by over.now.list) keys.now) }
{
    let mut changes = List::new(alloc);
    for key in keys {
        let change = change_by(alloc, over, key)?;
        changes.push(change)?;
    }
    Ok(changes)
}

fn change_by(alloc: Global, over: &Rows, key: &Key) -> Result<(Key, Option<Row>), NoMemory>
    ensures { IfOk result (λ change. change ≡ spec.change_by over.now.list key.now) }
{
    match over.get(key) {
        Some(row) => Ok((*key, Some(row.copy(alloc)?))),
        None => Ok((*key, None)),
    }
}

/// The rows that stand where changes are made, as changes that put them.
fn losses(alloc: Global, base: &Rows, changes: &[(Key, Option<Row>)]) -> Result<Delta, NoMemory>
    ensures { IfOk result (λ lost. lost.changes ≡ spec.losses base.now.list changes.now) }
{
    let mut lost = List::new(alloc);
    for (key, _) in changes {
        push_loss(alloc, base, key, &mut lost)?;
    }
    Ok(Delta { changes: lost })
}

/// Pushes the row at the key, if there is one.
fn push_loss(
    alloc: Global,
    base: &Rows,
    key: &Key,
    lost: &mut List<(Key, Option<Row>)>,
) -> Result<(), NoMemory>
    ensures { OnOk result (lost.new ≡ lost.old ++ option_to_list (option_map spec.put_in (row_at base.now.list key.now))) }
{
    match base.get(key) {
        Some(row) => {
            let copy = row.copy(alloc)?;
            lost.push((row.key, Some(copy)))?;
            Ok(())
        }
        None => Ok(()),
    }
}
