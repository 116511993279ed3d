//! Pairs put one behind another, cut into pages.
ghost use Rattle.std.specs.Prelude.{◌≡◌, ◌≤◌, ◌<◌, ◌+◌, ◌++◌, ◌∷◌, ◌⊎◌, [], length, map, IfOk, OnOk};
ghost use Rattle.std.specs.Bool.{OnTrue};
ghost use Rattle.std.specs.List.{AllByRecursion};
ghost use Rattle.std.specs.Arc.{arc_value};
ghost use Rattle.paged.specs.Pairs.{pair_by, pair_of};
ghost use Rattle.paged.specs.Parts.{HasHead, HasMost, IsSized, AreSized, parts};
ghost use Rattle.paged.specs.Bound.{bound, IsBound, made, IsMade};

use crate::binder::{Binder, Chunk, Chunks, Page};
use crate::leaf::Leaf;
use crate::sheet::Sheet;
use std::alloc::{AllocError, Global};
use std::mem::replace;
use std::sync::Arc;

/// How many pairs a page has at least, where there are several, and at most.
pub(crate) const LEAST: usize = 16;

pub(crate) const MOST: usize = 64;

/// At so many open pairs a page of the first half is cut off.
const FULL: usize = 48;

const HALF: usize = 24;

/// Pages of 16 to 64 pairs, and fewer than 80 pairs behind them.
#[derive(Drop)]
pub(crate) struct Maker<K: Copy + Drop, V: Drop, C: Leaf<V>> {
    pub(crate) alloc: Global,
    pages: Binder<K, V, C>,
    tail: Page<K, V, C>,
}

impl<K: Copy + Drop, V: Drop, C: Leaf<V>> Maker<K, V, C> {
    pub(crate) fn new(alloc: Global) -> Maker<K, V, C>
        ensures pairs { made result ≡ [] }
        ensures makes { IsMade result }
    {
        Maker {
            alloc,
            pages: Binder::new(alloc),
            tail: Sheet::new(alloc),
        }
    }

    /// Adds a pair that shares the value.
    pub(crate) fn share(&mut self, key: K, leaf: &C) -> Result<(), AllocError>
        requires { IsMade self.old }
        ensures pairs { OnOk result (made self.new ≡ made self.old ++ (key, C.leaf_value leaf.now) ∷ []) }
        ensures makes { OnOk result (IsMade self.new) }
    {
        self.make_room()?;
        self.tail.share(key, leaf)
    }

    /// Adds pairs that share the values.
    pub(crate) fn share_all(&mut self, pairs: &[(K, C)]) -> Result<(), AllocError>
        requires { IsMade self.old }
        ensures pairs { OnOk result (made self.new ≡ made self.old ++ map (pair_by C.leaf_value) pairs.now) }
        ensures makes { OnOk result (IsMade self.new) }
    {
        for (key, leaf) in pairs {
            self.share(*key, leaf)?;
        }
        Ok(())
    }

    /// Adds a page, and shares it where it can be.
    pub(crate) fn share_page(
        &mut self,
        key: K,
        page: &Arc<Page<K, V, C>, Global>,
    ) -> Result<(), AllocError>
        requires makes { IsMade self.old }
        requires head { HasHead (key, arc_value page.now) }
        requires most { length (arc_value page.now) ≤ 64 }
        ensures pairs { OnOk result (made self.new ≡ made self.old ++ arc_value page.now) }
        ensures makes { OnOk result (IsMade self.new) }
    {
        let open = self.tail.len();
        if page.len() < LEAST || open > 0 && open < LEAST {
            self.share_all(page.entries())
        } else {
            self.settle()?;
            self.pages.share_page(key, page)
        }
    }

    /// Adds the pages of a chunk.
    fn share_pages(&mut self, pages: &[(K, Arc<Page<K, V, C>, Global>)]) -> Result<(), AllocError>
        requires makes { IsMade self.old }
        requires heads { AllByRecursion HasHead (map pair_of pages.now) }
        requires most { AllByRecursion HasMost (map pair_of pages.now) }
        ensures pairs { OnOk result (made self.new ≡ made self.old ++ parts (map pair_of pages.now)) }
        ensures makes { OnOk result (IsMade self.new) }
    {
        for (key, page) in pages {
            self.share_page(*key, page)?;
        }
        Ok(())
    }

    /// Adds a chunk, and shares it where it can be.
    pub(crate) fn share_chunk(
        &mut self,
        key: K,
        chunk: &Arc<Chunk<K, V, C>, Global>,
    ) -> Result<(), AllocError>
        requires makes { IsMade self.old }
        requires head { HasHead (key, arc_value chunk.now) }
        requires heads { AllByRecursion HasHead (arc_value chunk.now) }
        requires sized { AreSized (arc_value chunk.now) }
        ensures pairs { OnOk result (made self.new ≡ made self.old ++ parts (arc_value chunk.now)) }
        ensures makes { OnOk result (IsMade self.new) }
    {
        if self.can_share(chunk) {
            self.settle()?;
            self.pages.share_chunk(key, chunk)?;
            Ok(())
        } else {
            self.share_pages(chunk.entries())
        }
    }

    /// Whether the pages of the chunk have their sizes beside others, and so have the open pairs.
    fn can_share(&self, chunk: &Chunk<K, V, C>) -> bool
        ensures several { OnTrue result (2 ≤ length chunk.now) }
        ensures enough { OnTrue result ((length self.now.tail ≡ 0) ⊎ (16 ≤ length self.now.tail)) }
    {
        if chunk.len() < 2 {
            return false;
        }
        let open = self.tail.len();
        open == 0 || open >= LEAST
    }

    /// Leaves room for one more pair among the open ones.
    fn make_room(&mut self) -> Result<(), AllocError>
        requires { IsMade self.old }
        ensures pairs { OnOk result (made self.new ≡ made self.old) }
        ensures makes { OnOk result (IsMade self.new) }
        ensures room { OnOk result (length self.new.tail + 1 < 80) }
    {
        if self.tail.len() < FULL {
            Ok(())
        } else {
            self.cut()
        }
    }

    /// Cuts a page of 24 pairs off the open ones.
    fn cut(&mut self) -> Result<(), AllocError>
        requires makes { IsMade self.old }
        requires many { 40 ≤ length self.old.tail }
        ensures pairs { OnOk result (made self.new ≡ made self.old) }
        ensures makes { OnOk result (IsMade self.new) }
        ensures open { OnOk result (length self.new.tail + 24 ≡ length self.old.tail) }
    {
        let rest = self.tail.split_off(HALF)?;
        let page = replace(&mut self.tail, rest);
        self.pages.push(page)?;
        Ok(())
    }

    /// Leaves at most a page of open pairs.
    fn trim(&mut self) -> Result<(), AllocError>
        requires makes { IsMade self.old }
        ensures pairs { OnOk result (made self.new ≡ made self.old) }
        ensures makes { OnOk result (IsMade self.new) }
        ensures most { OnOk result (length self.new.tail ≤ 64) }
        ensures long { OnOk result (64 < length self.old.tail → 16 ≤ length self.new.tail) }
        ensures short { OnOk result (length self.old.tail ≤ 64 → (self.new.tail ≡ self.old.tail) × (bound self.new.pages ≡ bound self.old.pages)) }
    {
        if self.tail.len() <= MOST {
            Ok(())
        } else {
            self.cut()
        }
    }

    /// Makes pages of the open pairs, which are at least 16 or none.
    fn settle(&mut self) -> Result<(), AllocError>
        requires makes { IsMade self.old }
        requires enough { (length self.old.tail ≡ 0) ⊎ (16 ≤ length self.old.tail) }
        ensures pairs { OnOk result (made self.new ≡ made self.old) }
        ensures makes { OnOk result (IsMade self.new) }
        ensures open { OnOk result (self.new.tail ≡ []) }
    {
        self.trim()?;
        let open = replace(&mut self.tail, Sheet::new(self.alloc));
        self.pages.push(open)
    }

    /// Takes in the last page where fewer than 16 pairs are open.
    fn take_in(&mut self) -> Result<(), AllocError>
        requires { IsMade self.old }
        ensures pairs { OnOk result (made self.new ≡ made self.old) }
        ensures makes { OnOk result (IsMade self.new) }
        ensures enough { OnOk result ((length self.new.tail ≡ 0) ⊎ ((16 ≤ length self.new.tail) ⊎ (bound self.new.pages ≡ []))) }
    {
        let open = self.tail.len();
        if open == 0 || open >= LEAST {
            return Ok(());
        }
        match self.pages.pop()? {
            Some((_, last)) => {
                let open = replace(&mut self.tail, Sheet::new(self.alloc));
                self.tail.share_all(last.entries())?;
                self.tail.share_all(open.entries())?;
                Ok(())
            }
            None => Ok(()),
        }
    }

    /// The chunks of all pairs.
    pub(crate) fn finish(mut self) -> Result<Chunks<K, V, C>, AllocError>
        requires { IsMade self }
        ensures pairs { IfOk result (λ chunks. parts (parts chunks) ≡ made self) }
        ensures chunk_heads { IfOk result (λ chunks. AllByRecursion HasHead chunks) }
        ensures page_heads { IfOk result (λ chunks. AllByRecursion HasHead (parts chunks)) }
        ensures sized { IfOk result (λ chunks. AreSized (parts chunks)) }
    {
        self.take_in()?;
        self.trim()?;
        let Maker {
            alloc: _,
            mut pages,
            tail,
        } = self;
        pages.push(tail)?;
        let chunks = pages.into_chunks()?;
        Ok(chunks)
    }
}
