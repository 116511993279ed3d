//! Rows in the order of their keys, looked up by key and changed by deltas.
ghost use Rattle.std.specs.Prelude.{◌≡◌, ◌<◌, ◌^◌, ◌↔◌, [], Some, None, length, map, filter, IsTrue, IfOk, OnOk, OnErr};
ghost use Rattle.std.specs.Option.{option_copied};
ghost use Rattle.std.specs.Ordering.{is_gt};
ghost use Rattle.paged.specs.Sizes.{Tells};
ghost use Rattle.paged.specs.Paged.{all_pairs, IsPaged};
ghost use Rattle.shop_defs.specs.Keys.{key_cmp};
ghost use Rattle.shop_defs.specs.Rows.{row_at, change_rows, IsInKeyOrder};
ghost use Rattle.shop_defs.specs.Joined.{last_in, change_at};
ghost use Rattle.shop_rows.specs.Changing.{row_after, StandUnderTheirKeys, HasAscendingKeys};
ghost use Rattle.shop_rows.specs.Lookups.{IsShapeOf};
ghost use Rattle.shop_rows.specs.Paging as spec;

use crate::pages::{Change, Pages, putting, settled_changes, shared_changes};
use crate::walk::Walk;
use paged::Shape;
use shop_defs::{Delta, Key, Look, NoMemory, Row};
use std::alloc::Global;
use std::marker::Model;

/// The rows of a shop in the order of their keys, each key once.
///
/// Contracts see the list of the rows, and the delta that can be applied without memory, if there is
/// one. The rows stand in pages, and so does what they are found by: what they refer to, and the
/// hashes of their unique fields. A look-up costs the logarithm of the number of rows and what it
/// finds; a change makes the pages anew that it touches, and copies share the others.
#[derive(Drop)]
pub struct Rows {
    alloc: Global,
    pub(crate) pages: Pages,
    aside: Option<Aside>,
}

/// The rows after a delta, made ready aside.
#[derive(Drop)]
pub(crate) struct Aside {
    changes: Vec<Change>,
    next: Pages,
}

impl Model for Rows {
    ghost use Rattle.std.specs.Prelude.{map};
    ghost use Rattle.std.specs.Option.{option_map};
    ghost use Rattle.shop_rows.specs.Held.{Held};
    ghost use Rattle.shop_rows.specs.Paging.{rows_in, read_change, AreFound};
    ghost use Rattle.shop_rows.specs.Ready.{AreReady};

    ghost Value = { Held };

    ghost view = { λ r. record { list = rows_in r.pages.rows; spare = option_map (λ aside. record { changes = map read_change aside.changes.items }) r.aside } };

    ghost invariant = { λ r. AreFound r.pages.rows r.pages.mentions r.pages.counts × AreReady (rows_in r.pages.rows) r.aside };
}

impl Rows {
    /// No rows. It takes no memory.
    pub fn empty(alloc: Global) -> Rows
        ensures { result.list ≡ [] }
    {
        Rows {
            alloc,
            pages: Pages::empty(alloc),
            aside: None,
        }
    }

    /// These rows, which ascend by key. Want of memory is the only error.
    pub fn from_ascending(alloc: Global, rows: Vec<Row>) -> Result<Rows, NoMemory>
        requires { IsInKeyOrder rows.items }
        ensures { IfOk result (λ found. found.list ≡ rows.items) }
    {
        let changes = putting(alloc, rows)?;
        let pages = Pages::empty(alloc).changed(alloc, changes.as_slice())?;
        Ok(Rows {
            alloc,
            pages,
            aside: None,
        })
    }

    /// The row with that key: `None` exactly where no row has it. It takes no memory.
    pub fn get<'a>(&'a self, key: &Key) -> Option<&'a Row>
        ensures { option_copied result ≡ row_at self.entry.now.list key.now }
    {
        self.pages.get(key)
    }

    /// A walk over the rows in the order of their keys, each key once. It takes no memory.
    pub fn iter(&self) -> Walk<'_>
        ensures rows { result ≡ self.now.list }
        ensures order { IsInKeyOrder self.now.list }
    {
        Walk::over(self.pages.rows.runs())
    }

    /// How many rows there are, fewer than 2^63. It takes no memory.
    pub fn len(&self) -> usize
        ensures count { result ≡ length self.now.list }
        ensures few { result < 2 ^ 63 }
        ensures order { IsInKeyOrder self.now.list }
    {
        self.pages.counts.all
    }

    /// Whether there are no rows. It takes no memory.
    pub fn is_empty(&self) -> bool
        ensures { IsTrue result ↔ (self.now.list ≡ []) }
    {
        self.pages.counts.all == 0
    }

    /// How many pages of rows there are, and the least and the greatest number of rows of one. Where
    /// there are several, each has 16 to 64 rows; a single one has 1 to 64. It takes no memory.
    pub fn shape(&self) -> Shape
        ensures { IsShapeOf self.now.list result }
    {
        self.pages.rows.shape()
    }

    /// Makes the rows after the delta aside, so that it can be applied without memory. The rows stay
    /// as they were, also where memory is refused, which is the only error: no delta can be applied
    /// then.
    pub fn reserve(&mut self, delta: &Delta) -> Result<(), NoMemory>
        ensures list { self.new.list ≡ self.old.list }
        ensures spare { OnOk result (self.new.spare ≡ Some delta.now) }
        ensures missing { OnErr result (self.new.spare ≡ None) }
    {
        self.aside = None;
        let aside = after_delta(self.alloc, &self.pages, delta)?;
        self.aside = Some(aside);
        Ok(())
    }

    /// Makes the changes of the delta, for which the rows are ready: each key has the delta's row or
    /// none, and all else stays. It takes no memory.
    #[tactic(auto, using(crate::proofs::InPages::last_after, crate::proofs::InPages::once_after))]
    pub fn apply(&mut self, delta: Delta)
        requires { self.old.spare ≡ Some delta }
        ensures list { self.new.list ≡ change_rows self.old.list delta.changes }
        ensures spare { self.new.spare ≡ None }
        ensures order { IsInKeyOrder self.new.list }
        // Under each key stands what the last change there says, and else what stood there before.
        ensures last { StandUnderTheirKeys delta.changes → (key : Key) → row_at self.new.list key ≡ row_after (last_in delta.changes key) (row_at self.old.list key) }
        // Where the delta has each key once, that is its change of the key.
        ensures once { StandUnderTheirKeys delta.changes → HasAscendingKeys delta.changes → (key : Key) → row_at self.new.list key ≡ row_after (change_at delta.changes key) (row_at self.old.list key) }
    {
        let _ = delta;
        match self.aside.take() {
            Some(aside) => {
                let Aside { changes: _, next } = aside;
                self.pages = next;
            }
            None => unreachable!(),
        }
    }

    /// Rows with the same list, whose pages are shared: the cost hardly grows with the rows. Want of
    /// memory is the only error.
    pub fn copy(&self, alloc: Global) -> Result<Rows, NoMemory>
        ensures { IfOk result (λ copy. copy.list ≡ self.now.list) }
    {
        let pages = self.pages.share()?;
        Ok(Rows {
            alloc,
            pages,
            aside: None,
        })
    }
}

/// The rows after the delta, beside its changes.
fn after_delta(alloc: Global, pages: &Pages, delta: &Delta) -> Result<Aside, NoMemory>
    requires { spec.AreFound pages.now.rows pages.now.mentions pages.now.counts }
    ensures changes { IfOk result (λ aside. map spec.read_change aside.changes.items ≡ delta.now.changes) }
    ensures rows { IfOk result (λ aside. spec.rows_in aside.next.rows ≡ change_rows (spec.rows_in pages.now.rows) delta.now.changes) }
    ensures found { IfOk result (λ aside. spec.AreFound aside.next.rows aside.next.mentions aside.next.counts) }
{
    let changes = shared_changes(alloc, delta.changes.as_slice())?;
    let settled = settled_changes(alloc, changes.as_slice())?;
    let next = pages.changed(alloc, settled.as_slice())?;
    Ok(Aside { changes, next })
}

impl Look for Rows {
    ghost shown = { λ r. row_at r.list };

    fn row<'a>(&'a self, key: &Key) -> Option<&'a Row> {
        self.get(key)
    }
}
