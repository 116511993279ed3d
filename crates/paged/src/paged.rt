//! A map in pages, sorted by key.
ghost use Rattle.std.specs.Prelude.{◌≡◌, [], IfOk, OnOk, OnErr, IsTrue, ◌↔◌, length, map};
ghost use Rattle.std.specs.Option.{option_copied, option_map};
ghost use Rattle.std.specs.List.{AllByRecursion};
ghost use Rattle.keyed.specs.Keyed.{Ascends, find};
ghost use Rattle.paged.specs.Pairs.{key_of, value_of, both, first_above, first_of, within};
ghost use Rattle.paged.specs.Parts.{HasHead, parts};
ghost use Rattle.paged.specs.Changed.{changed, changed_at};
ghost use Rattle.paged.specs.Paged.{all_pairs, IsPaged};
ghost use Rattle.paged.specs.Sizes.{Tells};
ghost use Rattle.paged.specs.Walk.{from};

use crate::binder::{Chunk, Chunks};
use crate::changing::change_chunks;
use crate::editing::edit_chunks;
use crate::leaf::Leaf;
use crate::maker::Maker;
use crate::runs::Runs;
use crate::shape::{Shape, add_pages};
use crate::sheet::Sheet;
use std::alloc::{AllocError, Global};
use std::marker::Model;
use std::sync::Arc;

/// Pairs of a key and a value in the order of their keys, in pages.
///
/// Contracts see the list of the pages, each the list of its pairs. Where there are several pages,
/// each has 16 to 64 pairs; a single one has 1 to 64, and an empty map has none. Pages are shared
/// with copies and with what `with` makes, and so are the values, but for those that stand inline.
#[derive(Drop)]
pub struct Paged<K: Ord + Copy + Drop, V: Drop, C: Leaf<V> = Arc<V, Global>> {
    alloc: Global,
    chunks: Chunks<K, V, C>,
}

impl<K: Ord + Copy + Drop, V: Drop, C: Leaf<V>> Model for Paged<K, V, C> {
    ghost use Rattle.std.specs.Prelude.{List, map};
    ghost use Rattle.paged.specs.Pairs.{value_of};
    ghost use Rattle.paged.specs.Parts.{parts};
    ghost use Rattle.paged.specs.Paged.{AreChunks};

    ghost Value = { List (List (K × V)) };

    ghost view = { λ r. map value_of (parts r.chunks) };

    ghost invariant = { λ r. AreChunks K.cmp r.chunks };
}

impl<K: Ord + Copy + Drop, V: Drop, C: Leaf<V>> Paged<K, V, C> {
    /// No pairs. It takes no memory.
    pub fn empty(alloc: Global) -> Paged<K, V, C>
        ensures { result ≡ [] }
    {
        Paged {
            alloc,
            chunks: Sheet::new(alloc),
        }
    }

    /// How many pages there are and how large they are. It takes no memory.
    pub fn shape(&self) -> Shape
        ensures shape { Tells result (map length self.now) }
        ensures pages { IsPaged K.cmp self.now }
    {
        let mut shape = Shape::none();
        for (_, chunk) in self.chunks.entries() {
            add_pages(&mut shape, chunk.entries());
        }
        shape
    }

    /// The value of the key: `None` exactly where the key isn't there. It takes no memory.
    pub fn get(&self, key: &K) -> Option<&V>
        ensures { option_copied result ≡ option_map value_of (find K.cmp key_of (all_pairs self.now) key.now) }
    {
        match self.chunks.part(key) {
            Some(chunk) => get_in(chunk, key),
            None => None,
        }
    }

    /// The first pair with a greater key. It takes no memory.
    pub fn after(&self, key: &K) -> Option<(&K, &V)>
        ensures { option_map both result ≡ first_above K.cmp (all_pairs self.now) key.now }
    {
        match self.chunks.part(key) {
            Some(chunk) => match after_in(chunk, key) {
                Some(found) => Some(found),
                None => chunk_behind(&self.chunks, key),
            },
            None => chunk_behind(&self.chunks, key),
        }
    }

    /// A walk over all pages, which lends the pairs of one page at a time. It takes no memory.
    pub fn runs(&self) -> Runs<'_, K, V, C>
        ensures { result ≡ self.now }
    {
        Runs::over(self.chunks.entries())
    }

    /// A walk over the pages from the first pair on whose key isn't below this one. It takes no
    /// memory.
    pub fn runs_from(&self, key: &K) -> Runs<'_, K, V, C>
        ensures { all_pairs result ≡ from K.cmp (all_pairs self.now) key.now }
    {
        Runs::in_chunks(self.chunks.entries(), key)
    }

    /// The same pages, shared. Want of memory is the only error.
    pub fn share(&self) -> Result<Paged<K, V, C>, AllocError>
        ensures { IfOk result (λ copy. copy ≡ self.now) }
    {
        let mut chunks = Sheet::new(self.alloc);
        chunks.share_all(self.chunks.entries())?;
        Ok(Paged {
            alloc: self.alloc,
            chunks,
        })
    }

    /// The pairs after these changes, each of which puts a value under its key or takes out what is
    /// there. What isn't changed is shared. Want of memory is the only error.
    pub fn with(&self, changes: &[(K, Option<C>)]) -> Result<Paged<K, V, C>, AllocError>
        requires { Ascends K.cmp key_of changes.now }
        ensures { IfOk result (λ next. all_pairs next ≡ changed K.cmp (option_map C.leaf_value) (all_pairs self.now) changes.now) }
    {
        let mut next = self.share()?;
        for at in 0..changes.len() {
            next.change_one(&changes[at..at + 1])?;
        }
        Ok(next)
    }

    /// Makes one change: puts the leaf under the key, or takes out what is there. Where nobody
    /// shares the page, it is changed in place. Want of memory is the only error, and all is as
    /// before then.
    pub fn change(&mut self, key: K, leaf: Option<C>) -> Result<(), AllocError>
        ensures ok { OnOk result (all_pairs self.new ≡ changed_at K.cmp (all_pairs self.old) key (option_map C.leaf_value leaf)) }
        ensures err { OnErr result (self.new ≡ self.old) }
    {
        let mut change = Vec::new(self.alloc);
        change.push((key, leaf))?;
        self.change_one(change.as_slice())
    }

    /// Makes one change, in place where the sizes of pages allow it.
    fn change_one(&mut self, change: &[(K, Option<C>)]) -> Result<(), AllocError>
        requires { length change.now ≡ 1 }
        ensures ok { OnOk result (all_pairs self.new ≡ changed K.cmp (option_map C.leaf_value) (all_pairs self.old) change.now) }
        ensures err { OnErr result (self.new ≡ self.old) }
    {
        let (key, leaf) = &change[0];
        if edit_chunks(self.alloc, &mut self.chunks, *key, leaf) {
            return Ok(());
        }
        let next = self.remade(change)?;
        *self = next;
        Ok(())
    }

    /// The pairs after the changes, in pages that are made anew where they are touched.
    fn remade(&self, changes: &[(K, Option<C>)]) -> Result<Paged<K, V, C>, AllocError>
        requires { Ascends K.cmp key_of changes.now }
        ensures { IfOk result (λ next. all_pairs next ≡ changed K.cmp (option_map C.leaf_value) (all_pairs self.now) changes.now) }
    {
        let mut maker = Maker::new(self.alloc);
        change_chunks(&mut maker, self.chunks.entries(), changes)?;
        let chunks = maker.finish()?;
        Ok(Paged {
            alloc: self.alloc,
            chunks,
        })
    }
}

/// The value of the key in a chunk.
fn get_in<'a, K: Ord + Copy + Drop, V: Drop, C: Leaf<V>>(
    chunk: &'a Chunk<K, V, C>,
    key: &K,
) -> Option<&'a V>
    requires heads { AllByRecursion HasHead chunk.now }
    requires order { Ascends K.cmp key_of (parts chunk.now) }
    ensures { option_copied result ≡ option_map value_of (find K.cmp key_of (parts chunk.entry.now) key.now) }
{
    match chunk.part(key) {
        Some(page) => page.get(key),
        None => None,
    }
}

/// The first pair of a chunk with a greater key.
fn after_in<'a, K: Ord + Copy + Drop, V: Drop, C: Leaf<V>>(
    chunk: &'a Chunk<K, V, C>,
    key: &K,
) -> Option<(&'a K, &'a V)>
    requires heads { AllByRecursion HasHead chunk.now }
    requires order { Ascends K.cmp key_of (parts chunk.now) }
    ensures { option_map both result ≡ first_above K.cmp (parts chunk.entry.now) key.now }
{
    match chunk.part(key) {
        Some(page) => match page.above(key) {
            Some(found) => Some(found),
            None => page_behind(chunk, key),
        },
        None => page_behind(chunk, key),
    }
}

/// The first pair of the first page whose key is greater.
fn page_behind<'a, K: Ord + Copy + Drop, V: Drop, C: Leaf<V>>(
    chunk: &'a Chunk<K, V, C>,
    key: &K,
) -> Option<(&'a K, &'a V)>
    requires { Ascends K.cmp key_of chunk.now }
    ensures { option_map both result ≡ within (first_above K.cmp chunk.entry.now key.now) (λ e. first_of e.1) }
{
    match chunk.above(key) {
        Some((_, page)) => page.first(),
        None => None,
    }
}

/// The first pair of the first chunk whose key is greater.
fn chunk_behind<'a, K: Ord + Copy + Drop, V: Drop, C: Leaf<V>>(
    chunks: &'a Chunks<K, V, C>,
    key: &K,
) -> Option<(&'a K, &'a V)>
    requires order { Ascends K.cmp key_of chunks.now }
    requires heads { AllByRecursion HasHead (parts chunks.now) }
    ensures { option_map both result ≡ within (first_above K.cmp chunks.entry.now key.now) (λ e. first_of (parts e.1)) }
{
    match chunks.above(key) {
        Some((_, chunk)) => first_in(chunk),
        None => None,
    }
}

/// The first pair of a chunk.
fn first_in<'a, K: Ord + Copy + Drop, V: Drop, C: Leaf<V>>(
    chunk: &'a Chunk<K, V, C>,
) -> Option<(&'a K, &'a V)>
    requires { AllByRecursion HasHead chunk.now }
    ensures { option_map both result ≡ first_of (parts chunk.entry.now) }
{
    match chunk.first() {
        Some((_, page)) => page.first(),
        None => None,
    }
}
