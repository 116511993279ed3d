//! A walk over the pairs of pages, one after the other.
ghost use Rattle.std.specs.Prelude.{◌≡◌, ◌++◌, [], map};
ghost use Rattle.std.specs.Iterator.{YieldsFirstBy, item_count};
ghost use Rattle.paged.specs.Pairs.{pair_by};
ghost use Rattle.paged.specs.Paged.{all_pairs};

use paged::{Leaf, Runs};
use std::marker::Model;

/// The pairs that a walk has left, in order.
#[derive(Drop)]
pub(crate) struct Pairs<'a, K: Copy + Drop, V: Drop, C: Leaf<V>> {
    run: &'a [(K, C)],
    runs: Runs<'a, K, V, C>,
}

impl<'a, K: Copy + Drop, V: Drop, C: Leaf<V>> Model for Pairs<'a, K, V, C> {
    ghost use Rattle.std.specs.Prelude.{List, map, ◌++◌};
    ghost use Rattle.paged.specs.Pairs.{pair_by};
    ghost use Rattle.paged.specs.Paged.{all_pairs};

    ghost Value = { List (K × V) };

    ghost view = { λ w. map (pair_by C.leaf_value) w.run.now ++ all_pairs w.runs };
}

impl<'a, K: Copy + Drop, V: Drop, C: Leaf<V>> Pairs<'a, K, V, C> {
    /// The pairs of the pages.
    pub(crate) fn of(runs: Runs<'a, K, V, C>) -> Pairs<'a, K, V, C>
        ensures { result ≡ all_pairs runs.entry }
    {
        Pairs { run: &[], runs }
    }
}

impl<'a, K: Copy + Drop, V: Drop, C: Leaf<V>> Iterator for Pairs<'a, K, V, C> {
    type Item = &'a (K, C);

    ghost next_gives = { YieldsFirstBy (λ pair. pair_by C.leaf_value pair.now) (λ pairs. pairs) };

    ghost remaining = { item_count (λ pairs. pairs) };

    fn next(&mut self) -> Option<&'a (K, C)> {
        match self.run {
            [first, more @ ..] => {
                self.run = more;
                Some(first)
            }
            [] => match first_run(&mut self.runs) {
                [first, more @ ..] => {
                    self.run = more;
                    Some(first)
                }
                [] => None,
            },
        }
    }
}

/// The pairs of the next page that has some: none where no page has.
fn first_run<'a, K: Copy + Drop, V: Drop, C: Leaf<V>>(runs: &mut Runs<'a, K, V, C>) -> &'a [(K, C)]
    ensures pairs { map (pair_by C.leaf_value) result.now ++ all_pairs runs.new ≡ all_pairs runs.old }
    ensures none { result.now ≡ [] → all_pairs runs.new ≡ [] }
{
    while let Some(run) = runs.next() {
        if !run.is_empty() {
            return run;
        }
    }
    &[]
}
