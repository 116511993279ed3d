//! Pages put one behind another, bound into chunks.
ghost use Rattle.std.specs.Prelude.{◌≡◌, ◌++◌, ◌∷◌, [], IfOk, OnOk, MatchOption};
ghost use Rattle.std.specs.List.{AllByRecursion};
ghost use Rattle.std.specs.Arc.{arc_value};
ghost use Rattle.paged.specs.Pairs.{pair_of};
ghost use Rattle.paged.specs.Parts.{HasHead, parts, keyed};
ghost use Rattle.paged.specs.Bound.{bound, IsBound};

use crate::leaf::Leaf;
use crate::sheet::Sheet;
use std::alloc::{AllocError, Global};
use std::mem::replace;
use std::sync::Arc;

/// A list whose values are shared.
pub(crate) type Shared<K, T> = Sheet<K, T, Arc<T, Global>>;

pub(crate) type Page<K, V, C> = Sheet<K, V, C>;

pub(crate) type Chunk<K, V, C> = Shared<K, Page<K, V, C>>;

pub(crate) type Chunks<K, V, C> = Shared<K, Chunk<K, V, C>>;

/// How many pages a chunk gets at most while pages are bound, and how many it is cut to then.
const MOST_BOUND: usize = 128;

const BOUND: usize = 64;
/// A chunk with fewer pages takes in the next one.
const FEW: usize = 16;

/// Pages, of which the last are not bound into a chunk yet.
#[derive(Drop)]
pub(crate) struct Binder<K: Copy + Drop, V: Drop, C: Leaf<V>> {
    alloc: Global,
    chunks: Chunks<K, V, C>,
    pages: Chunk<K, V, C>,
}

impl<K: Copy + Drop, V: Drop, C: Leaf<V>> Binder<K, V, C> {
    pub(crate) fn new(alloc: Global) -> Binder<K, V, C>
        ensures pages { bound result ≡ [] }
        ensures binds { IsBound result }
    {
        Binder {
            alloc,
            chunks: Sheet::new(alloc),
            pages: Sheet::new(alloc),
        }
    }

    /// Adds a page, or nothing where it has no pairs.
    #[tactic(auto, using(crate::proofs::Bounds::bind_page, crate::proofs::Heads::keyed_some))]
    pub(crate) fn push(&mut self, page: Page<K, V, C>) -> Result<(), AllocError>
        requires { IsBound self.old }
        ensures pages { OnOk result (bound self.new ≡ bound self.old ++ keyed page) }
        ensures binds { OnOk result (IsBound self.new) }
    {
        match page.first_key() {
            Some(key) => {
                let page = Arc::new(self.alloc, page)?;
                self.pages.push(key, page)?;
                self.bind_full()
            }
            None => Ok(()),
        }
    }

    /// Adds a page that is shared.
    pub(crate) fn share_page(
        &mut self,
        key: K,
        page: &Arc<Page<K, V, C>, Global>,
    ) -> Result<(), AllocError>
        requires binds { IsBound self.old }
        requires head { HasHead (key, arc_value page.now) }
        ensures pages { OnOk result (bound self.new ≡ bound self.old ++ (key, arc_value page.now) ∷ []) }
        ensures binds { OnOk result (IsBound self.new) }
    {
        self.pages.share(key, page)?;
        self.bind_full()
    }

    /// Adds the pages of a chunk that is shared.
    #[tactic(auto, using(crate::proofs::Bounds::bind_chunk, crate::proofs::Bounds::bind_pages))]
    pub(crate) fn share_chunk(
        &mut self,
        key: K,
        chunk: &Arc<Chunk<K, V, C>, Global>,
    ) -> Result<(), AllocError>
        requires binds { IsBound self.old }
        requires head { HasHead (key, arc_value chunk.now) }
        requires heads { AllByRecursion HasHead (arc_value chunk.now) }
        ensures pages { OnOk result (bound self.new ≡ bound self.old ++ arc_value chunk.now) }
        ensures binds { OnOk result (IsBound self.new) }
    {
        let open = self.pages.len();
        if open > 0 && open < FEW {
            self.pages.share_all(chunk.entries())?;
            self.bind_full()
        } else {
            self.bind()?;
            self.chunks.share(key, chunk)?;
            Ok(())
        }
    }

    /// Takes out the last page.
    #[tactic(auto, using(crate::proofs::Bounds::unbind_page))]
    pub(crate) fn pop(&mut self) -> Result<Option<(K, Arc<Page<K, V, C>, Global>)>, AllocError>
        requires { IsBound self.old }
        ensures pages { IfOk result (λ found. MatchOption found (bound self.old ≡ []) (λ last. bound self.old ≡ bound self.new ++ pair_of last ∷ [])) }
        ensures none { IfOk result (λ found. MatchOption found (bound self.new ≡ []) (λ _. Unit {0})) }
        ensures binds { OnOk result (IsBound self.new) }
    {
        self.open_last()?;
        match self.pages.pop() {
            Some(last) => Ok(Some(last)),
            None => Ok(None),
        }
    }

    /// Opens the last chunk, where no pages are open.
    #[tactic(auto, using(crate::proofs::Bounds::unbind, crate::proofs::Bounds::unbound, crate::proofs::Bounds::unbind_some))]
    fn open_last(&mut self) -> Result<(), AllocError>
        requires { IsBound self.old }
        ensures pages { OnOk result (bound self.new ≡ bound self.old) }
        ensures binds { OnOk result (IsBound self.new) }
        ensures open { OnOk result (self.new.pages ≡ [] → bound self.new ≡ []) }
    {
        if !self.pages.is_empty() {
            return Ok(());
        }
        match self.chunks.pop() {
            Some((_, chunk)) => self.pages.share_all(chunk.entries()),
            None => Ok(()),
        }
    }

    /// The chunks of the pages.
    pub(crate) fn into_chunks(mut self) -> Result<Chunks<K, V, C>, AllocError>
        requires { IsBound self }
        ensures pages { IfOk result (λ chunks. parts chunks ≡ bound self) }
        ensures chunk_heads { IfOk result (λ chunks. AllByRecursion HasHead chunks) }
        ensures page_heads { IfOk result (λ chunks. AllByRecursion HasHead (parts chunks)) }
    {
        self.bind()?;
        let Binder {
            alloc: _,
            chunks,
            pages: _,
        } = self;
        Ok(chunks)
    }

    /// Binds the open pages into a chunk.
    #[tactic(auto, using(crate::proofs::Bounds::rebind_all))]
    fn bind(&mut self) -> Result<(), AllocError>
        requires { IsBound self.old }
        ensures pages { OnOk result (bound self.new ≡ bound self.old) }
        ensures open { OnOk result (self.new.pages ≡ []) }
        ensures binds { OnOk result (IsBound self.new) }
    {
        let pages = replace(&mut self.pages, Sheet::new(self.alloc));
        bind_these(self.alloc, &mut self.chunks, pages)
    }

    /// Binds the first of the open pages where there are many.
    fn bind_full(&mut self) -> Result<(), AllocError>
        requires { IsBound self.old }
        ensures pages { OnOk result (bound self.new ≡ bound self.old) }
        ensures binds { OnOk result (IsBound self.new) }
    {
        if self.pages.len() < MOST_BOUND {
            return Ok(());
        }
        let rest = self.pages.split_off(BOUND)?;
        let pages = replace(&mut self.pages, rest);
        bind_these(self.alloc, &mut self.chunks, pages)?;
        Ok(())
    }
}

/// Adds a chunk of these pages.
#[tactic(auto, using(crate::proofs::Heads::keyed_some, crate::proofs::Heads::keyed_none))]
fn bind_these<K: Copy + Drop, V: Drop, C: Leaf<V>>(
    alloc: Global,
    chunks: &mut Chunks<K, V, C>,
    pages: Chunk<K, V, C>,
) -> Result<(), AllocError>
    ensures { OnOk result (chunks.new ≡ chunks.old ++ keyed pages) }
{
    match pages.first_key() {
        Some(key) => {
            let chunk = Arc::new(alloc, pages)?;
            chunks.push(key, chunk)?;
            Ok(())
        }
        None => Ok(()),
    }
}
