//! Rows in pages, with what they are found by in other pages.
ghost use Rattle.std.specs.Prelude.{◌≡◌, ◌&&◌, ◌||◌, not, [], Bool, map, IfOk, OnOk};
ghost use Rattle.std.specs.List.{flat_map};
ghost use Rattle.std.specs.Option.{option_copied, option_map};
ghost use Rattle.std.specs.Arc.{arc_value};
ghost use Rattle.keyed.specs.Keyed.{Ascends};
ghost use Rattle.paged.specs.Pairs.{key_of};
ghost use Rattle.paged.specs.Paged.{all_pairs};
ghost use Rattle.shop_defs.specs.Keys.{key_cmp};
ghost use Rattle.shop_defs.specs.Rows.{row_at, change_row, change_rows, IsInKeyOrder};
ghost use Rattle.shop_rows.specs.Changing.{StandUnderTheirKeys};
ghost use Rattle.shop_rows.specs.Counting.{AreCounted};
ghost use Rattle.shop_rows.specs.Mentions.{itself, has, among, gone_at, come_at};
ghost use Rattle.shop_rows.specs.Paging as spec;
ghost use Rattle.shop_rows.specs.Topics.{mention_cmp};

use crate::counts::Counts;
use crate::moves::{Moves, sort_once};
use crate::topic::Mention;
use ordered::Ordered;
use paged::{Inline, Paged};
use shop_defs::{Copied, Key, NoMemory, Row};
use std::alloc::{AllocError, Global};
use std::sync::Arc;

/// A change of the rows: what stands at the key from then on.
pub(crate) type Change = (Key, Option<Arc<Row, Global>>);

/// The mentions, each with nothing beside it.
pub(crate) type Mentions = Paged<Mention, (), Inline<()>>;

/// Rows in pages, the mentions of them, and how many there are.
#[derive(Drop)]
pub(crate) struct Pages {
    pub(crate) rows: Paged<Key, Row>,
    pub(crate) mentions: Mentions,
    pub(crate) counts: Counts,
}

impl Pages {
    /// No rows. It takes no memory.
    pub(crate) fn empty(alloc: Global) -> Pages
        ensures rows { result.rows ≡ [] }
        ensures found { spec.AreFound result.rows result.mentions result.counts }
    {
        Pages {
            rows: Paged::empty(alloc),
            mentions: Paged::empty(alloc),
            counts: Counts::none(),
        }
    }

    /// The row with that key: `None` exactly where no row has it.
    pub(crate) fn get<'a>(&'a self, key: &Key) -> Option<&'a Row>
        requires { spec.AreFound self.now.rows self.now.mentions self.now.counts }
        ensures { option_copied result ≡ row_at (spec.rows_in self.entry.now.rows) key.now }
    {
        self.rows.get(key)
    }

    /// The same pages, shared.
    pub(crate) fn share(&self) -> Result<Pages, NoMemory>
        requires { spec.AreFound self.now.rows self.now.mentions self.now.counts }
        ensures rows { IfOk result (λ copy. copy.rows ≡ self.now.rows) }
        ensures found { IfOk result (λ copy. spec.AreFound copy.rows copy.mentions copy.counts) }
    {
        let rows = self.rows.share()?;
        let mentions = self.mentions.share()?;
        Ok(Pages {
            rows,
            mentions,
            counts: self.counts,
        })
    }

    /// The rows after the changes, whose keys ascend, in pages of their own where they differ. The
    /// pages that they are made from stay.
    pub(crate) fn changed(&self, alloc: Global, changes: &[Change]) -> Result<Pages, NoMemory>
        requires found { spec.AreFound self.now.rows self.now.mentions self.now.counts }
        requires order { Ascends key_cmp key_of changes.now }
        requires stand { StandUnderTheirKeys (map spec.read_change changes.now) }
        ensures rows { IfOk result (λ next. spec.rows_in next.rows ≡ change_rows (spec.rows_in self.now.rows) (map spec.read_change changes.now)) }
        ensures found { IfOk result (λ next. spec.AreFound next.rows next.mentions next.counts) }
    {
        let moves = self.moves(alloc, changes)?;
        let rows = self.rows.with(changes)?;
        let mentions = moved(alloc, &self.mentions, moves.gone, moves.come)?;
        Ok(Pages {
            rows,
            mentions,
            counts: moves.counts,
        })
    }

    /// What the changes move.
    fn moves(&self, alloc: Global, changes: &[Change]) -> Result<Moves, NoMemory>
        requires found { spec.AreFound self.now.rows self.now.mentions self.now.counts }
        requires order { Ascends key_cmp key_of changes.now }
        requires stand { StandUnderTheirKeys (map spec.read_change changes.now) }
        ensures gone { IfOk result (λ moves. moves.gone.items ≡ flat_map (gone_at (spec.rows_in self.now.rows)) (map spec.read_change changes.now)) }
        ensures come { IfOk result (λ moves. moves.come.items ≡ flat_map (come_at (spec.rows_in self.now.rows)) (map spec.read_change changes.now)) }
        ensures counts { IfOk result (λ moves. AreCounted (change_rows (spec.rows_in self.now.rows) (map spec.read_change changes.now)) moves.counts.all moves.counts.of) }
    {
        let mut moves = Moves::none(alloc, self.counts);
        for (key, change) in changes {
            moves.add(key.entity, self.get(key), lent(change))?;
        }
        Ok(moves)
    }
}

/// The row that a change puts.
fn lent(change: &Option<Arc<Row, Global>>) -> Option<&Row>
    ensures { option_copied result ≡ option_map arc_value change.now }
{
    match change {
        Some(row) => Some(row),
        None => None,
    }
}

/// The mentions without those that go, and with those that come.
fn moved(
    alloc: Global,
    mentions: &Mentions,
    gone: Vec<Mention>,
    come: Vec<Mention>,
) -> Result<Mentions, NoMemory>
    requires { Ascends mention_cmp itself (spec.mentions_in mentions.now) }
    ensures sorted { IfOk result (λ next. Ascends mention_cmp itself (spec.mentions_in next)) }
    ensures fit { IfOk result (λ next. (mention : Mention) → has (spec.mentions_in next) mention ≡ (among come.items mention || (not (among gone.items mention) && has (spec.mentions_in mentions.now) mention))) }
{
    if gone.is_empty() {
        let next = with_these(alloc, mentions, come)?;
        return Ok(next);
    }
    let fewer = without_these(alloc, mentions, gone)?;
    let next = with_these(alloc, &fewer, come)?;
    Ok(next)
}

/// The mentions without those that go.
fn without_these(
    alloc: Global,
    mentions: &Mentions,
    gone: Vec<Mention>,
) -> Result<Mentions, AllocError>
    requires { Ascends mention_cmp itself (spec.mentions_in mentions.now) }
    ensures sorted { IfOk result (λ next. Ascends mention_cmp itself (spec.mentions_in next)) }
    ensures fit { IfOk result (λ next. (mention : Mention) → has (spec.mentions_in next) mention ≡ (not (among gone.items mention) && has (spec.mentions_in mentions.now) mention)) }
{
    let mut gone = gone;
    sort_once(&mut gone);
    let changes = each_with(alloc, gone.as_slice(), None)?;
    let next = mentions.with(changes.as_slice())?;
    Ok(next)
}

/// The mentions with those that come.
fn with_these(
    alloc: Global,
    mentions: &Mentions,
    come: Vec<Mention>,
) -> Result<Mentions, AllocError>
    requires { Ascends mention_cmp itself (spec.mentions_in mentions.now) }
    ensures sorted { IfOk result (λ next. Ascends mention_cmp itself (spec.mentions_in next)) }
    ensures fit { IfOk result (λ next. (mention : Mention) → has (spec.mentions_in next) mention ≡ (among come.items mention || has (spec.mentions_in mentions.now) mention)) }
{
    let mut come = come;
    sort_once(&mut come);
    let changes = each_with(alloc, come.as_slice(), Some(Inline(())))?;
    let next = mentions.with(changes.as_slice())?;
    Ok(next)
}

/// Each mention with that change.
fn each_with(
    alloc: Global,
    mentions: &[Mention],
    change: Option<Inline<()>>,
) -> Result<Vec<(Mention, Option<Inline<()>>)>, AllocError>
    ensures { IfOk result (λ changes. changes.items ≡ map (λ mention. (mention, change)) mentions.now) }
{
    let mut changes = Vec::with_capacity(alloc, mentions.len())?;
    for mention in mentions {
        changes.push((*mention, change))?;
    }
    Ok(changes)
}

/// The changes of a delta, with copies of its rows that pages can share.
pub(crate) fn shared_changes(
    alloc: Global,
    changes: &[(Key, Option<Row>)],
) -> Result<Vec<Change>, NoMemory>
    ensures { IfOk result (λ shared. map spec.read_change shared.items ≡ changes.now) }
{
    let mut shared = Vec::with_capacity(alloc, changes.len())?;
    for (key, change) in changes {
        shared.push((*key, shared_row(alloc, change)?))?;
    }
    Ok(shared)
}

fn shared_row(alloc: Global, row: &Option<Row>) -> Result<Option<Arc<Row, Global>>, NoMemory>
    ensures { IfOk result (λ shared. option_map arc_value shared ≡ row.now) }
{
    match row {
        Some(row) => Ok(Some(Arc::new(alloc, row.copy(alloc)?)?)),
        None => Ok(None),
    }
}

/// The last change of each key, under the key of the row that it puts, in the order of the keys.
pub(crate) fn settled_changes(alloc: Global, changes: &[Change]) -> Result<Vec<Change>, NoMemory>
    ensures changes { IfOk result (λ settled. map spec.read_change settled.items ≡ spec.settled (map spec.read_change changes.now)) }
    ensures order { IfOk result (λ settled. Ascends key_cmp key_of settled.items) }
{
    let mut settled = Ordered::new(alloc);
    for change in changes {
        settled.put(own_change(change)?)?;
    }
    Ok(settled.into_vec())
}

/// The change under the key of the row that it puts.
fn own_change(change: &Change) -> Result<Change, AllocError>
    ensures { IfOk result (λ own. spec.read_change own ≡ spec.own_change (spec.read_change change.now)) }
{
    match change {
        (_, Some(row)) => Ok((row.key, Some(Arc::try_clone(row)?))),
        (key, None) => Ok((*key, None)),
    }
}

/// Changes that put the rows.
pub(crate) fn putting(alloc: Global, rows: Vec<Row>) -> Result<Vec<Change>, NoMemory>
    ensures { IfOk result (λ changes. map spec.read_change changes.items ≡ map spec.put_in rows.items) }
{
    let mut changes = Vec::with_capacity(alloc, rows.len())?;
    for row in rows {
        changes.push((row.key, Some(Arc::new(alloc, row)?)))?;
    }
    Ok(changes)
}
