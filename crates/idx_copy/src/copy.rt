//! The copy.
ghost use Rattle.std.specs.Prelude.{◌≡◌, ◌+◌, ◌<◌, ◌^◌, length, IfOk};
ghost use Rattle.std.specs.Arc.{arc_value};
ghost use Rattle.shop_check.specs.Soundness.{AreSound};
ghost use Rattle.idx_copy.specs.Answers.{AreTablesOf, Answers};
ghost use Rattle.idx_copy.specs.Copies.{IsCopy};
ghost use Rattle.idx_copy.specs.Fronts.{rows_after, changes_in, EachFits};

use crate::answer::{Answer, AskFault};
use crate::join::join;
use crate::tables::Tables;
use shop_defs::{Copied, Delta, NoMemory};
use shop_requests::Query;
use shop_rows::Rows;
use std::alloc::Global;
use std::marker::Model;
use std::sync::Arc;

/// A shop's rows after so many entries, and the tables that answer what is asked of them.
///
/// Contracts see the front, which is the number of entries, the rows and the tables. The rows are
/// sound, and the tables are their direct ones.
#[derive(Drop)]
pub struct IndexCopy {
    front: u64,
    rows: Rows,
    tables: Arc<Tables>,
}

impl Model for IndexCopy {
    ghost use Rattle.std.specs.Arc.{arc_value};
    ghost use Rattle.idx_copy.specs.Copies.{CopyView, IsCopy};

    ghost Value = { CopyView };

    ghost view = { λ c. record { front = c.front; rows = c.rows.list; tables = arc_value c.tables } };

    ghost invariant = { λ c. IsCopy (record { front = c.front; rows = c.rows.list; tables = arc_value c.tables }) };
}

impl IndexCopy {
    /// The copy of these rows, which stand after so many entries. Want of memory is the only error.
    pub fn first(alloc: Global, front: u64, rows: Rows) -> Result<IndexCopy, NoMemory>
        requires { AreSound rows.list }
        ensures front { IfOk result (λ copy. copy.front ≡ front) }
        ensures rows { IfOk result (λ copy. copy.rows ≡ rows.list) }
        ensures copy { IfOk result IsCopy }
    {
        let tables = Tables::build(alloc, &rows)?;
        let tables = Arc::new(alloc, tables)?;
        Ok(IndexCopy {
            front,
            rows,
            tables,
        })
    }

    /// The copy after these deltas, one after the other, each of which is one entry. This one stays.
    /// Want of memory is the only error.
    pub fn next(&self, alloc: Global, deltas: &[Arc<Delta>]) -> Result<IndexCopy, NoMemory>
        requires fits { self.now.front + length deltas.now < 2 ^ 64 }
        requires keys { EachFits (changes_in deltas.now) }
        requires sound { AreSound (rows_after self.now.rows (changes_in deltas.now)) }
        ensures front { IfOk result (λ copy. copy.front ≡ self.now.front + length deltas.now) }
        ensures rows { IfOk result (λ copy. copy.rows ≡ rows_after self.now.rows (changes_in deltas.now)) }
        ensures copy { IfOk result IsCopy }
    {
        let delta = join(alloc, deltas)?;
        let mut rows = self.rows.copy(alloc)?;
        rows.reserve(&delta)?;
        rows.apply(delta.copy(alloc)?);
        let tables = self.tables.after(alloc, &self.rows, &rows, &delta)?;
        let tables = Arc::new(alloc, tables)?;
        Ok(IndexCopy {
            front: self.front + deltas.len() as u64,
            rows,
            tables,
        })
    }

    /// What the question is answered over the rows. It takes memory for a page of a listing alone.
    ///
    /// # Errors
    ///
    /// Those of `ask` of its tables.
    pub fn ask<'a>(&'a self, alloc: Global, query: &Query) -> Result<Answer<'a>, AskFault>
        ensures { Answers self.entry.now.rows query.now result }
    {
        self.tables.ask(alloc, query)
    }

    /// The tables, which are the direct ones of the rows. It takes no memory.
    pub fn tables(&self) -> &Arc<Tables>
        ensures tables { arc_value result.now ≡ self.now.tables }
        ensures direct { AreTablesOf self.now.rows (arc_value result.now) }
    {
        &self.tables
    }

    /// How many entries the rows stand after. It takes no memory.
    pub fn front(&self) -> u64
        ensures { result ≡ self.now.front }
    {
        self.front
    }

    /// The rows. It takes no memory.
    pub fn rows(&self) -> &Rows
        ensures rows { result.now.list ≡ self.now.rows }
        ensures copy { IsCopy self.now }
    {
        &self.rows
    }
}
