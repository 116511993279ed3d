//! What a keeper in memory holds.
ghost use Rattle.std.specs.Prelude.{◌≡◌, ◌++◌, true, map, Some, IfOk, OnOk, OnErr};
ghost use Rattle.shop_defs.specs.Keys.{key_cmp};
ghost use Rattle.keyed.specs.Keyed.{Ascends};
ghost use Rattle.paged.specs.Pairs.{pair_of};
ghost use Rattle.paged.specs.Paged.{all_pairs};
ghost use Rattle.shop_outside.specs.Keeping.{kept_key, body_change, body_changes, IsChanged};
ghost use Rattle.shop_outside.specs.Bodies.{bodies_of, read_body, IsInOrder, IsSettled};
ghost use Rattle.shop_outside.specs.Scanning.{keys_ascend};

use crate::bodies::{change_list, has_ascending_keys};
use paged::Paged;
use shop_defs::{Copied, Key, List, NoMemory};
use std::alloc::Global;
use std::sync::Arc;

/// A change of a body in pages: what stands at the key from then on.
type Change = (Key, Option<Arc<List<u8>, Global>>);

/// Bodies under their keys.
#[derive(Drop)]
pub(crate) enum Holding {
    /// As they were handed in, in any order, and a key may stand there more than once.
    Listed(Vec<(Key, List<u8>)>),
    /// In pages, in the order of their keys: a change costs the pages that it touches.
    InPages(Paged<Key, List<u8>>),
}

impl Holding {
    /// Copies of the bodies, in their order.
    pub(crate) fn copied(&self, alloc: Global) -> Result<List<(Key, List<u8>)>, NoMemory>
        ensures { IfOk result (λ rows. rows ≡ bodies_of self.now) }
    {
        match self {
            Holding::Listed(rows) => copied_list(alloc, rows),
            Holding::InPages(pages) => copied_pages(alloc, pages),
        }
    }

    /// Makes the changes: all of them or, where memory is refused, none. The first change of bodies
    /// whose keys ascend puts them into pages.
    pub(crate) fn change(
        &mut self,
        alloc: Global,
        changes: &[(Key, Option<List<u8>>)],
    ) -> Result<(), NoMemory>
        requires order { IsInOrder self.old }
        requires keys { Ascends key_cmp kept_key changes.now }
        ensures ok { OnOk result (IsChanged (bodies_of self.old) changes.now (bodies_of self.new)) }
        ensures err { OnErr result (bodies_of self.new ≡ bodies_of self.old) }
        ensures order { IsInOrder self.new }
    {
        self.settle(alloc)?;
        match self {
            Holding::Listed(rows) => change_list(alloc, rows, changes),
            Holding::InPages(pages) => change_pages(alloc, pages, changes),
        }
    }

    /// Puts a list whose keys ascend into pages.
    fn settle(&mut self, alloc: Global) -> Result<(), NoMemory>
        requires { IsInOrder self.old }
        ensures same { bodies_of self.new ≡ bodies_of self.old }
        ensures order { IsInOrder self.new }
        ensures settled { OnOk result (IsSettled self.new) }
    {
        match self {
            Holding::Listed(rows) if has_ascending_keys(rows) => {
                let pages = pages_of(alloc, rows)?;
                *self = Holding::InPages(pages);
                Ok(())
            }
            Holding::Listed(_) => Ok(()),
            Holding::InPages(_) => Ok(()),
        }
    }
}

/// The rows in pages, copied.
fn pages_of(alloc: Global, rows: &[(Key, List<u8>)]) -> Result<Paged<Key, List<u8>>, NoMemory>
    requires { keys_ascend rows.now ≡ true }
    ensures rows { IfOk result (λ pages. all_pairs pages ≡ rows.now) }
    ensures order { IfOk result (λ pages. keys_ascend (all_pairs pages) ≡ true) }
{
    let mut pages = Paged::empty(alloc);
    let mut rest = rows;
    while let [row, more @ ..] = rest {
        put_copy(alloc, &mut pages, row)?;
        rest = more;
    }
    Ok(pages)
}

#[tactic(auto, using(crate::proofs::InPages::change_is))]
fn put_copy(
    alloc: Global,
    pages: &mut Paged<Key, List<u8>>,
    row: &(Key, List<u8>),
) -> Result<(), NoMemory>
    ensures { OnOk result (all_pairs pages.new ≡ body_change (all_pairs pages.old) row.now.0 (Some row.now.1)) }
{
    let (key, body) = row;
    let copy = Arc::new(alloc, body.copy(alloc)?)?;
    Ok(pages.change(*key, Some(copy))?)
}

/// Makes the changes in pages. A single one is made in place.
#[tactic(auto, using(crate::proofs::InPages::changed_in_pages, crate::proofs::InPages::still_ascend))]
fn change_pages(
    alloc: Global,
    pages: &mut Paged<Key, List<u8>>,
    changes: &[(Key, Option<List<u8>>)],
) -> Result<(), NoMemory>
    requires order { keys_ascend (all_pairs pages.old) ≡ true }
    requires keys { Ascends key_cmp kept_key changes.now }
    ensures ok { OnOk result (IsChanged (all_pairs pages.old) changes.now (all_pairs pages.new)) }
    ensures order { OnOk result (keys_ascend (all_pairs pages.new) ≡ true) }
    ensures err { OnErr result (pages.new ≡ pages.old) }
{
    match changes {
        [change] => change_one(alloc, pages, change),
        _ => change_several(alloc, pages, changes),
    }
}

#[tactic(auto, using(crate::proofs::InPages::change_is))]
fn change_one(
    alloc: Global,
    pages: &mut Paged<Key, List<u8>>,
    change: &(Key, Option<List<u8>>),
) -> Result<(), NoMemory>
    ensures list { OnOk result (all_pairs pages.new ≡ body_change (all_pairs pages.old) change.now.0 change.now.1) }
    ensures err { OnErr result (pages.new ≡ pages.old) }
{
    let (key, body) = shared_change(alloc, change)?;
    Ok(pages.change(key, body)?)
}

#[tactic(auto, using(crate::proofs::InPages::changes_are, crate::proofs::InPages::shared_ascend))]
fn change_several(
    alloc: Global,
    pages: &mut Paged<Key, List<u8>>,
    changes: &[(Key, Option<List<u8>>)],
) -> Result<(), NoMemory>
    requires { Ascends key_cmp kept_key changes.now }
    ensures list { OnOk result (all_pairs pages.new ≡ body_changes (all_pairs pages.old) changes.now) }
    ensures err { OnErr result (pages.new ≡ pages.old) }
{
    let shared = shared_changes(alloc, changes)?;
    let next = pages.with(shared.as_slice())?;
    *pages = next;
    Ok(())
}

/// The changes, with copies of their bodies that pages can share.
fn shared_changes(
    alloc: Global,
    changes: &[(Key, Option<List<u8>>)],
) -> Result<Vec<Change>, NoMemory>
    ensures { IfOk result (λ shared. map read_body shared.items ≡ changes.now) }
{
    let mut shared = Vec::with_capacity(alloc, changes.len())?;
    for change in changes {
        shared.push(shared_change(alloc, change)?)?;
    }
    Ok(shared)
}

fn shared_change(alloc: Global, change: &(Key, Option<List<u8>>)) -> Result<Change, NoMemory>
    ensures { IfOk result (λ shared. read_body shared ≡ change.now) }
{
    match change {
        (key, Some(body)) => Ok((*key, Some(Arc::new(alloc, copied_body(alloc, body)?)?))),
        (key, None) => Ok((*key, None)),
    }
}

/// A copy of the bytes, at once and not one by one.
fn copied_body(alloc: Global, body: &List<u8>) -> Result<List<u8>, NoMemory>
    ensures { IfOk result (λ copy. copy ≡ body.now) }
{
    Ok(List::from_vec(Vec::from_slice(alloc, body.as_slice())?))
}

fn copied_list(alloc: Global, rows: &[(Key, List<u8>)]) -> Result<List<(Key, List<u8>)>, NoMemory>
    ensures { IfOk result (λ copies. copies ≡ rows.now) }
{
    let mut copies = List::new(alloc);
    for row in rows {
        copies.push(row.copy(alloc)?)?;
    }
    Ok(copies)
}

fn copied_pages(
    alloc: Global,
    pages: &Paged<Key, List<u8>>,
) -> Result<List<(Key, List<u8>)>, NoMemory>
    ensures { IfOk result (λ copies. copies ≡ all_pairs pages.now) }
{
    let mut copies = List::new(alloc);
    let mut runs = pages.runs();
    while let Some(run) = runs.next() {
        push_run(alloc, &mut copies, run)?;
    }
    Ok(copies)
}

/// Puts copies of the pairs of a page at the end.
fn push_run(
    alloc: Global,
    copies: &mut List<(Key, List<u8>)>,
    run: &[(Key, Arc<List<u8>, Global>)],
) -> Result<(), NoMemory>
    ensures { OnOk result (copies.new ≡ copies.old ++ map pair_of run.now) }
{
    for (key, body) in run {
        copies.push((*key, body.copy(alloc)?))?;
    }
    Ok(())
}
