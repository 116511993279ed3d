//! A walk over rows.
ghost use Rattle.std.specs.Prelude.{◌≡◌, map, drop};
ghost use Rattle.std.specs.Iterator.{YieldsFirstRef, item_count};
ghost use Rattle.paged.specs.Pairs.{value_of};
ghost use Rattle.paged.specs.Paged.{all_pairs};

use crate::pairs::Pairs;
use paged::Runs;
use shop_defs::{Key, Row};
use std::alloc::Global;
use std::marker::Model;
use std::sync::Arc;

/// The rows that a walk has left, in the order of their keys, each lent. It takes no memory.
#[derive(Drop)]
pub struct Walk<'a> {
    pairs: Pairs<'a, Key, Row, Arc<Row, Global>>,
}

impl<'a> Model for Walk<'a> {
    ghost use Rattle.std.specs.Prelude.{List, map};
    ghost use Rattle.paged.specs.Pairs.{value_of};
    ghost use Rattle.shop_defs.specs.declared.row.Row.{Row};

    ghost Value = { List Row };

    ghost view = { λ w. map value_of w.pairs };
}

impl<'a> Walk<'a> {
    /// The rows of the pages.
    pub(crate) fn over(runs: Runs<'a, Key, Row>) -> Walk<'a>
        ensures { result ≡ map value_of (all_pairs runs.entry) }
    {
        Walk {
            pairs: Pairs::of(runs),
        }
    }

    /// The rows without the first, if there is one.
    pub(crate) fn without_first(self) -> Walk<'a>
        ensures { result ≡ drop 1 self.entry }
    {
        let mut walk = self;
        let _ = walk.next();
        walk
    }
}

impl<'a> Iterator for Walk<'a> {
    type Item = &'a Row;

    ghost next_gives = { YieldsFirstRef (λ rows. rows) };

    ghost remaining = { item_count (λ rows. rows) };

    fn next(&mut self) -> Option<&'a Row> {
        match self.pairs.next() {
            Some((_, row)) => Some(row),
            None => None,
        }
    }
}
