//! A walk over the pages of a map, which lends the pairs of one page at a time.
ghost use Rattle.std.specs.Prelude.{◌≡◌, ◌++◌, map};
ghost use Rattle.std.specs.Iterator.{YieldsFirstBy, item_count};
ghost use Rattle.std.specs.List.{AllByRecursion};
ghost use Rattle.keyed.specs.Keyed.{Ascends};
ghost use Rattle.paged.specs.Pairs.{key_of, value_of, pair_by, pair_of};
ghost use Rattle.paged.specs.Parts.{HasHead, parts};
ghost use Rattle.paged.specs.Paged.{all_pairs, ArePages, AreChunks};
ghost use Rattle.paged.specs.Walk.{from, parts_from};

use crate::binder::{Chunk, Page};
use crate::leaf::Leaf;
use crate::search::{count_below, count_up_to};
use std::alloc::Global;
use std::marker::Model;
use std::sync::Arc;

/// The pages that a walk has left, in order. Each is lent as the slice of its pairs.
///
/// Contracts see the list of those pages. It takes no memory.
#[derive(Drop)]
pub struct Runs<'a, K: Copy + Drop, V: Drop, C: Leaf<V> = Arc<V, Global>> {
    run: &'a [(K, C)],
    pages: &'a [(K, Arc<Page<K, V, C>, Global>)],
    chunks: &'a [(K, Arc<Chunk<K, V, C>, Global>)],
}

impl<'a, K: Copy + Drop, V: Drop, C: Leaf<V>> Model for Runs<'a, K, V, C> {
    ghost use Rattle.std.specs.Prelude.{List, map};
    ghost use Rattle.paged.specs.Pairs.{pair_by, pair_of, value_of};
    ghost use Rattle.paged.specs.Walk.{with_run, ahead, AreAhead};

    ghost Value = { List (List (K × V)) };

    ghost view = { λ r. with_run (map (pair_by C.leaf_value) r.run.now) (map value_of (ahead (map pair_of r.pages.now) (map pair_of r.chunks.now))) };

    ghost invariant = { λ r. AreAhead (map pair_of r.pages.now) (map pair_of r.chunks.now) };
}

impl<'a, K: Copy + Drop, V: Drop, C: Leaf<V>> Iterator for Runs<'a, K, V, C> {
    type Item = &'a [(K, C)];

    ghost next_gives = { YieldsFirstBy (λ run. map (pair_by C.leaf_value) run.now) (λ pages. pages) };

    ghost remaining = { item_count (λ pages. pages) };

    fn next(&mut self) -> Option<&'a [(K, C)]> {
        let run = self.run;
        if !run.is_empty() {
            self.run = &[];
            return Some(run);
        }
        match self.pages {
            [(_, page), more @ ..] => {
                self.pages = more;
                Some(page.entries())
            }
            [] => match self.chunks {
                [(_, chunk), more @ ..] => {
                    self.chunks = more;
                    match chunk.entries() {
                        [(_, page), others @ ..] => {
                            self.pages = others;
                            Some(page.entries())
                        }
                        [] => None,
                    }
                }
                [] => None,
            },
        }
    }
}

impl<'a, K: Ord + Copy + Drop, V: Drop, C: Leaf<V>> Runs<'a, K, V, C> {
    /// All pages of the chunks.
    pub(crate) fn over(chunks: &'a [(K, Arc<Chunk<K, V, C>, Global>)]) -> Runs<'a, K, V, C>
        requires { AreChunks K.cmp (map pair_of chunks.now) }
        ensures { result ≡ map value_of (parts (map pair_of chunks.entry.now)) }
    {
        Runs {
            run: &[],
            pages: &[],
            chunks,
        }
    }

    /// The pages of the chunks from the key on.
    pub(crate) fn in_chunks(
        chunks: &'a [(K, Arc<Chunk<K, V, C>, Global>)],
        key: &K,
    ) -> Runs<'a, K, V, C>
        requires { AreChunks K.cmp (map pair_of chunks.now) }
        ensures { all_pairs result ≡ from K.cmp (parts (parts (map pair_of chunks.entry.now))) key.now }
    {
        match first_parts(chunks, key) {
            [(_, chunk), more @ ..] => Runs::in_chunk(chunk, more, key),
            [] => Runs {
                run: &[],
                pages: &[],
                chunks: &[],
            },
        }
    }

    /// The pages of the chunk from the key on, and those of the chunks behind it.
    fn in_chunk(
        chunk: &'a Chunk<K, V, C>,
        more: &'a [(K, Arc<Chunk<K, V, C>, Global>)],
        key: &K,
    ) -> Runs<'a, K, V, C>
        requires pages { ArePages K.cmp chunk.now }
        requires chunk_heads { AllByRecursion HasHead (map pair_of more.now) }
        requires page_heads { AllByRecursion HasHead (parts (map pair_of more.now)) }
        ensures { all_pairs result ≡ from K.cmp (parts chunk.entry.now) key.now ++ parts (parts (map pair_of more.entry.now)) }
    {
        match first_parts(chunk.entries(), key) {
            [(_, page), others @ ..] => Runs {
                run: run_from(page, key),
                pages: others,
                chunks: more,
            },
            [] => Runs {
                run: &[],
                pages: &[],
                chunks: more,
            },
        }
    }
}

/// The parts from the one on in which the key belongs.
fn first_parts<'a, K: Ord + Copy + Drop, P>(entries: &'a [(K, P)], key: &K) -> &'a [(K, P)]
    requires { Ascends K.cmp key_of entries.now }
    ensures { result.now ≡ parts_from K.cmp entries.entry.now key.now }
{
    let count = count_up_to(entries, key);
    if count == 0 {
        return entries;
    }
    &entries[count - 1..]
}

/// The pairs of the page from the key on.
fn run_from<'a, K: Ord + Copy + Drop, V: Drop, C: Leaf<V>>(
    page: &'a Page<K, V, C>,
    key: &K,
) -> &'a [(K, C)]
    requires { Ascends K.cmp key_of page.now }
    ensures { map (pair_by C.leaf_value) result.now ≡ from K.cmp page.entry.now key.now }
{
    let pairs = page.entries();
    &pairs[count_below(pairs, key)..]
}
