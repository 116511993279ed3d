//! How many pages a map has, and how large they are.
ghost use Rattle.std.specs.Prelude.{◌≡◌, ◌≤◌, ◌++◌, ◌∷◌, ℕ, List, [], min, map};
ghost use Rattle.paged.specs.Pairs.{pair_of};
ghost use Rattle.paged.specs.Parts.{size_of};
ghost use Rattle.paged.specs.Sizes.{Tells};

use crate::binder::Page;
use crate::leaf::Leaf;
use std::alloc::Global;
use std::sync::Arc;

/// How many pages there are, and the least and the greatest number of pairs of one, 0 where there is
/// none.
#[derive(Clone, Copy)]
pub struct Shape {
    pub pages: usize,
    pub least: usize,
    pub most: usize,
}

impl Shape {
    /// The shape of no pages.
    pub(crate) fn none() -> Shape
        ensures { Tells result [] }
    {
        Shape {
            pages: 0,
            least: 0,
            most: 0,
        }
    }

    /// Takes in one page more.
    pub(crate) fn add(&mut self, size: usize)
        ensures { (sizes : List ℕ) → Tells self.old sizes → Tells self.new (sizes ++ size ∷ []) }
    {
        self.least = self.least_with(size);
        self.most = self.most.max(size);
        self.pages = self.pages.saturating_add(1);
    }

    /// The least size with one page more.
    fn least_with(&self, size: usize) -> usize
        ensures first { self.now.pages ≡ 0 → result ≡ size }
        ensures others { 1 ≤ self.now.pages → result ≡ min self.now.least size }
    {
        if self.pages == 0 {
            size
        } else {
            self.least.min(size)
        }
    }
}

/// Takes in the pages of a chunk.
pub(crate) fn add_pages<K: Copy + Drop, V: Drop, C: Leaf<V>>(
    shape: &mut Shape,
    pages: &[(K, Arc<Page<K, V, C>, Global>)],
)
    ensures { (sizes : List ℕ) → Tells shape.old sizes → Tells shape.new (sizes ++ map size_of (map pair_of pages.now)) }
{
    for (_, page) in pages {
        shape.add(page.len());
    }
}
