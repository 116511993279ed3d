//! The pairs that stand at one place of the order of keys.
ghost use Rattle.std.specs.Prelude.{◌≡◌};
ghost use Rattle.std.specs.declared.cmp.Ordering.{Ordering};
ghost use Rattle.std.specs.Iterator.{YieldsFirstBy, item_count};
ghost use Rattle.std.specs.Ordering.{is_eq};
ghost use Rattle.paged.specs.Pairs.{pair_by};
ghost use Rattle.paged.specs.Paged.{all_pairs};
ghost use Rattle.shop_rows.specs.Fronts.{front};

use crate::pairs::Pairs;
use paged::{Leaf, Runs};
use std::cmp::Ordering;
use std::marker::Model;

/// A place in an order of keys: a front part of what they are ordered by.
pub(crate) trait Place<K>: Drop {
    ghost order: { Self → K → Ordering };

    /// Whether the key stands before the place, at it or behind it.
    fn order(&self, key: &K) -> Ordering
        ensures { result ≡ order self.now key.now };
}

/// The pairs that a walk has left as long as they stand at a place.
#[derive(Drop)]
pub(crate) struct Found<'a, K: Copy + Drop, V: Drop, C: Leaf<V>, P: Place<K>> {
    place: P,
    pairs: Pairs<'a, K, V, C>,
    ended: bool,
}

impl<'a, K: Copy + Drop, V: Drop, C: Leaf<V>, P: Place<K>> Model for Found<'a, K, V, C, P> {
    ghost use Rattle.std.specs.Prelude.{List, [], if◌then◌else◌};
    ghost use Rattle.std.specs.Ordering.{is_eq};
    ghost use Rattle.shop_rows.specs.Fronts.{front};

    ghost Value = { List (K × V) };

    ghost view = { λ f. if f.ended then [] else front (λ pair. is_eq (P.order f.place pair.0)) f.pairs };
}

impl<'a, K: Copy + Drop, V: Drop, C: Leaf<V>, P: Place<K>> Found<'a, K, V, C, P> {
    /// The pairs from the first on, as long as they stand at the place.
    pub(crate) fn at(place: P, runs: Runs<'a, K, V, C>) -> Found<'a, K, V, C, P>
        ensures { result ≡ front (λ pair. is_eq (P.order place pair.0)) (all_pairs runs.entry) }
    {
        Found {
            place,
            pairs: Pairs::of(runs),
            ended: false,
        }
    }
}

impl<'a, K: Copy + Drop, V: Drop, C: Leaf<V>, P: Place<K>> Iterator for Found<'a, K, V, C, P> {
    type Item = &'a (K, C);

    ghost next_gives = { YieldsFirstBy (λ pair. pair_by C.leaf_value pair.now) (λ pairs. pairs) };

    ghost remaining = { item_count (λ pairs. pairs) };

    fn next(&mut self) -> Option<&'a (K, C)> {
        if self.ended {
            return None;
        }
        match self.pairs.next() {
            Some(pair) if self.place.order(&pair.0).is_eq() => Some(pair),
            _ => {
                self.ended = true;
                None
            }
        }
    }

    fn size_hint(&self) -> (usize, Option<usize>) {
        (0, None)
    }
}
