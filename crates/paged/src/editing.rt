//! A change in place, in pages that nobody shares.
ghost use Rattle.std.specs.Prelude.{◌≡◌};
ghost use Rattle.std.specs.Bool.{OnTrue, OnFalse};
ghost use Rattle.std.specs.Option.{option_map};
ghost use Rattle.std.specs.List.{AllByRecursion};
ghost use Rattle.std.specs.Arc.{arc_value};
ghost use Rattle.keyed.specs.Keyed.{Ascends};
ghost use Rattle.keyed.proofs.Places.{IsAt, IsGap};
ghost use Rattle.paged.specs.Pairs.{key_of};
ghost use Rattle.paged.specs.Parts.{HasHead, parts};
ghost use Rattle.paged.specs.Paged.{ArePages, AreChunks};
ghost use Rattle.paged.specs.Edited.{IsEdited, AreEdited};

use crate::binder::{Chunk, Chunks, Page};
use crate::leaf::Leaf;
use crate::maker::{LEAST, MOST};
use crate::search::{count_up_to, search};
use crate::sheet::Sheet;
use std::alloc::Global;
use std::sync::Arc;

/// Makes the change in the page where the key belongs, which is copied first where it is shared, and
/// says whether it did: not where the page's first pair or its size stands against it, or where
/// there is no memory. The pages are as before then.
pub(crate) fn edit_chunks<K: Ord + Copy + Drop, V: Drop, C: Leaf<V>>(
    alloc: Global,
    chunks: &mut Chunks<K, V, C>,
    key: K,
    leaf: &Option<C>,
) -> bool
    requires { AreChunks K.cmp chunks.old }
    ensures done { OnTrue result (AreEdited K.cmp (parts chunks.old) (parts chunks.new) key (option_map C.leaf_value leaf.now)) }
    ensures heads { OnTrue result (AllByRecursion HasHead chunks.new) }
    ensures kept { OnFalse result (chunks.new ≡ chunks.old) }
{
    let count = count_up_to(chunks.entries.as_slice(), &key);
    if count == 0 {
        return false;
    }
    unshare(alloc, &mut chunks.entries[count - 1].1);
    let Some(chunk) = Arc::get_mut(&mut chunks.entries[count - 1].1) else {
        return false;
    };
    edit_chunk(alloc, chunk, key, leaf)
}

/// Makes the change in the page where the key belongs, and says whether it did.
fn edit_chunk<K: Ord + Copy + Drop, V: Drop, C: Leaf<V>>(
    alloc: Global,
    chunk: &mut Chunk<K, V, C>,
    key: K,
    leaf: &Option<C>,
) -> bool
    requires { ArePages K.cmp chunk.old }
    ensures done { OnTrue result (AreEdited K.cmp chunk.old chunk.new key (option_map C.leaf_value leaf.now)) }
    ensures kept { OnFalse result (chunk.new ≡ chunk.old) }
{
    let count = count_up_to(chunk.entries.as_slice(), &key);
    if count == 0 {
        return false;
    }
    unshare(alloc, &mut chunk.entries[count - 1].1);
    let Some(page) = Arc::get_mut(&mut chunk.entries[count - 1].1) else {
        return false;
    };
    edit_page(page, key, leaf)
}

/// Room is taken for so many entries at a time, so that blocks of few sizes are asked for.
const ROOM: usize = 16;

/// For how many entries a copy of so many has room: for one more at least.
fn room_for(count: usize) -> usize {
    (count / ROOM).saturating_add(1).saturating_mul(ROOM)
}

/// Copies a part that is shared, where there is memory, so that it can be changed in place.
fn unshare<K: Copy + Drop, V, C: Leaf<V>>(alloc: Global, part: &mut Arc<Sheet<K, V, C>, Global>)
    ensures { arc_value part.new ≡ arc_value part.old }
{
    if Arc::strong_count(part) == 1 {
        return;
    }
    let mut copy = Sheet::new(alloc);
    let Ok(()) = copy.reserve(room_for(part.len())) else {
        return;
    };
    let Ok(()) = copy.share_all(part.entries()) else {
        return;
    };
    let Ok(own) = Arc::new(alloc, copy) else {
        return;
    };
    *part = own;
}

/// Makes the change in the page, and says whether it did.
fn edit_page<K: Ord + Copy + Drop, V: Drop, C: Leaf<V>>(
    page: &mut Page<K, V, C>,
    key: K,
    leaf: &Option<C>,
) -> bool
    requires { Ascends K.cmp key_of page.old }
    ensures done { OnTrue result (IsEdited K.cmp page.old page.new key (option_map C.leaf_value leaf.now)) }
    ensures kept { OnFalse result (page.new ≡ page.old) }
{
    match search(page.entries.as_slice(), &key) {
        Ok(at) => edit_found(page, at, key, leaf),
        Err(at) => edit_absent(page, at, key, leaf),
    }
}

/// Puts the leaf in place of the pair with the key, or takes that out.
fn edit_found<K: Ord + Copy + Drop, V: Drop, C: Leaf<V>>(
    page: &mut Page<K, V, C>,
    at: usize,
    key: K,
    leaf: &Option<C>,
) -> bool
    requires order { Ascends K.cmp key_of page.old }
    requires found { IsAt K.cmp key_of page.old key at }
    ensures done { OnTrue result (IsEdited K.cmp page.old page.new key (option_map C.leaf_value leaf.now)) }
    ensures kept { OnFalse result (page.new ≡ page.old) }
{
    if at == 0 {
        return false;
    }
    match leaf {
        Some(leaf) => {
            let Ok(shared) = leaf.share() else {
                return false;
            };
            page.entries[at] = (key, shared);
            true
        }
        None => {
            if page.entries.len() <= LEAST {
                return false;
            }
            let _ = page.entries.remove(at);
            true
        }
    }
}

/// Inserts the leaf where the key has a gap.
fn edit_absent<K: Ord + Copy + Drop, V: Drop, C: Leaf<V>>(
    page: &mut Page<K, V, C>,
    at: usize,
    key: K,
    leaf: &Option<C>,
) -> bool
    requires order { Ascends K.cmp key_of page.old }
    requires absent { IsGap K.cmp key_of page.old key at }
    ensures done { OnTrue result (IsEdited K.cmp page.old page.new key (option_map C.leaf_value leaf.now)) }
    ensures kept { OnFalse result (page.new ≡ page.old) }
{
    match leaf {
        Some(leaf) => {
            if at == 0 || page.entries.len() >= MOST {
                return false;
            }
            let Ok(shared) = leaf.share() else {
                return false;
            };
            let Ok(()) = page.entries.insert(at, (key, shared)) else {
                return false;
            };
            true
        }
        None => true,
    }
}
