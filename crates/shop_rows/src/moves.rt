//! What changes of rows change of what rows are found by.
ghost use Rattle.std.specs.Prelude.{◌≡◌, [], ◌++◌, ◌+◌, ◌-◌, ◌<◌, ◌^◌, get_or, set, is_some, IfOk, OnOk};
ghost use Rattle.std.specs.List.{list_any};
ghost use Rattle.std.specs.Option.{option_copied};
ghost use Rattle.std.specs.Ordering.{is_eq};
ghost use Rattle.keyed.specs.Keyed.{Ascends};
ghost use Rattle.shop_defs.specs.Entities.{entity_number};
ghost use Rattle.shop_rows.specs.Counting.{one};
ghost use Rattle.shop_rows.specs.Mentions as spec;

use crate::counts::Counts;
use crate::mentions::{are_alike, print_topic, topic_by};
use crate::topic::{Mention, Topic};
use shop_defs::{Entity, Key, NoMemory, REFERENCES, Reference, Row};
use std::alloc::{AllocError, Global};

/// The mentions that go and those that come, each once or more and in no order, and how many rows
/// there are then.
#[derive(Drop)]
pub(crate) struct Moves {
    pub(crate) gone: Vec<Mention>,
    pub(crate) come: Vec<Mention>,
    pub(crate) counts: Counts,
}

impl Moves {
    /// Nothing moves.
    pub(crate) fn none(alloc: Global, counts: Counts) -> Moves
        ensures gone { result.gone.items ≡ [] }
        ensures come { result.come.items ≡ [] }
        ensures counts { result.counts ≡ counts }
    {
        Moves {
            gone: Vec::new(alloc),
            come: Vec::new(alloc),
            counts,
        }
    }

    /// Takes in what stood at a key of the entity, and what stands there from now on. Nothing goes or
    /// comes where both are found by the same topics, as they mostly are.
    pub(crate) fn add(
        &mut self,
        entity: Entity,
        old: Option<&Row>,
        new: Option<&Row>,
    ) -> Result<(), NoMemory>
        ensures gone { OnOk result (self.new.gone.items ≡ self.old.gone.items ++ spec.gone_by (option_copied old.entry) (option_copied new.entry)) }
        ensures come { OnOk result (self.new.come.items ≡ self.old.come.items ++ spec.come_by (option_copied old.entry) (option_copied new.entry)) }
        ensures all { OnOk result (self.new.counts.all ≡ (self.old.counts.all + one (is_some (option_copied new.entry))) - one (is_some (option_copied old.entry))) }
        ensures few { OnOk result (self.new.counts.all < 2 ^ 63) }
        ensures of { OnOk result (self.new.counts.of ≡ set self.old.counts.of (entity_number entity) ((get_or self.old.counts.of (entity_number entity) 0 + one (is_some (option_copied new.entry))) - one (is_some (option_copied old.entry)))) }
    {
        self.counts.change(entity, old.is_some(), new.is_some())?;
        move_mentions(&mut self.gone, &mut self.come, old, new)?;
        Ok(())
    }
}

fn move_mentions(
    gone: &mut Vec<Mention>,
    come: &mut Vec<Mention>,
    old: Option<&Row>,
    new: Option<&Row>,
) -> Result<(), AllocError>
    ensures gone { OnOk result (gone.new.items ≡ gone.old.items ++ spec.gone_by (option_copied old.entry) (option_copied new.entry)) }
    ensures come { OnOk result (come.new.items ≡ come.old.items ++ spec.come_by (option_copied old.entry) (option_copied new.entry)) }
{
    if are_alike(old, new) {
        return Ok(());
    }
    push_mentions(gone, old)?;
    push_mentions(come, new)?;
    Ok(())
}

/// Adds the mentions of the row, if there is one.
fn push_mentions(all: &mut Vec<Mention>, row: Option<&Row>) -> Result<(), AllocError>
    ensures { OnOk result (all.new.items ≡ all.old.items ++ spec.found_mentions (option_copied row.entry)) }
{
    match row {
        Some(row) => push_row(all, row),
        None => Ok(()),
    }
}

#[tactic(auto, unfolding(crate::specs::Mentions::row_mentions))]
fn push_row(all: &mut Vec<Mention>, row: &Row) -> Result<(), AllocError>
    ensures { OnOk result (all.new.items ≡ all.old.items ++ spec.row_mentions row.now) }
{
    push_references(&REFERENCES, all, row)?;
    push_topic(all, print_topic(row), &row.key)?;
    Ok(())
}

fn push_references(table: &[Reference], all: &mut Vec<Mention>, row: &Row) -> Result<(), AllocError>
    ensures { OnOk result (all.new.items ≡ all.old.items ++ spec.reference_mentions table.now row.now) }
{
    for reference in table {
        push_topic(all, topic_by(reference, row), &row.key)?;
    }
    Ok(())
}

fn push_topic(all: &mut Vec<Mention>, topic: Option<Topic>, key: &Key) -> Result<(), AllocError>
    ensures { OnOk result (all.new.items ≡ all.old.items ++ spec.topic_mentions key.now topic) }
{
    match topic {
        Some(topic) => Ok(all.push(Mention { topic, key: *key })?),
        None => Ok(()),
    }
}

/// Sorts the items, and leaves each once. It takes no memory.
pub(crate) fn sort_once<T: Ord + Drop>(items: &mut Vec<T>)
    ensures ascends { Ascends T.cmp (λ x. x) items.new.items }
    ensures same { (x : T) → list_any (λ y. is_eq (T.cmp y x)) items.new.items ≡ list_any (λ y. is_eq (T.cmp y x)) items.old.items }
{
    items.sort_unstable();
    items.dedup();
}
