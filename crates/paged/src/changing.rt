//! Changes to pairs, as what is put behind other pairs.
ghost use Rattle.std.specs.Prelude.{◌≡◌, ◌++◌, ◌≤◌, [], map, false, length, OnOk, IfSome};
ghost use Rattle.std.specs.declared.cmp.Ordering.TheVariants.{Less};
ghost use Rattle.std.specs.Ordering.{is_lt};
ghost use Rattle.std.specs.Option.{option_map};
ghost use Rattle.std.specs.List.{AllByRecursion};
ghost use Rattle.std.specs.Arc.{arc_value};
ghost use Rattle.keyed.specs.Keyed.{Ascends};
ghost use Rattle.paged.specs.Pairs.{key_of, pair_by, pair_of, first_of};
ghost use Rattle.paged.specs.Parts.{HasHead, parts};
ghost use Rattle.paged.specs.Bound.{made, IsMade};
ghost use Rattle.paged.specs.Changed.{changed, given};
ghost use Rattle.paged.specs.Paged.{ArePages, AreChunks};

use crate::binder::{Chunk, Page};
use crate::leaf::Leaf;
use crate::maker::Maker;
use crate::search::{around, count_below};
use std::alloc::{AllocError, Global};
use std::sync::Arc;

/// Adds the pairs of the chunks after the changes.
pub(crate) fn change_chunks<K: Ord + Copy + Drop, V: Drop, C: Leaf<V>>(
    maker: &mut Maker<K, V, C>,
    chunks: &[(K, Arc<Chunk<K, V, C>, Global>)],
    changes: &[(K, Option<C>)],
) -> Result<(), AllocError>
    requires makes { IsMade maker.old }
    requires chunks { AreChunks K.cmp (map pair_of chunks.now) }
    requires changes { Ascends K.cmp key_of changes.now }
    ensures pairs { OnOk result (made maker.new ≡ made maker.old ++ changed K.cmp (option_map C.leaf_value) (parts (parts (map pair_of chunks.now))) changes.now) }
    ensures makes { OnOk result (IsMade maker.new) }
{
    let mut later = changes;
    for at in 0..chunks.len() {
        let (here, behind) = split_changes(&chunks[at + 1..], later);
        let (key, chunk) = &chunks[at];
        change_chunk(maker, *key, chunk, here)?;
        later = behind;
    }
    change_none(maker, later)
}

/// Adds the pairs of the pages after the changes.
fn change_pages<K: Ord + Copy + Drop, V: Drop, C: Leaf<V>>(
    maker: &mut Maker<K, V, C>,
    pages: &[(K, Arc<Page<K, V, C>, Global>)],
    changes: &[(K, Option<C>)],
) -> Result<(), AllocError>
    requires makes { IsMade maker.old }
    requires pages { ArePages K.cmp (map pair_of pages.now) }
    requires changes { Ascends K.cmp key_of changes.now }
    ensures pairs { OnOk result (made maker.new ≡ made maker.old ++ changed K.cmp (option_map C.leaf_value) (parts (map pair_of pages.now)) changes.now) }
    ensures makes { OnOk result (IsMade maker.new) }
{
    let mut later = changes;
    for at in 0..pages.len() {
        let (here, behind) = split_changes(&pages[at + 1..], later);
        let (key, page) = &pages[at];
        change_page(maker, *key, page, here)?;
        later = behind;
    }
    change_none(maker, later)
}

/// Adds the pairs of a chunk after the changes, and shares it where there are none.
fn change_chunk<K: Ord + Copy + Drop, V: Drop, C: Leaf<V>>(
    maker: &mut Maker<K, V, C>,
    key: K,
    chunk: &Arc<Chunk<K, V, C>, Global>,
    changes: &[(K, Option<C>)],
) -> Result<(), AllocError>
    requires makes { IsMade maker.old }
    requires head { HasHead (key, arc_value chunk.now) }
    requires pages { ArePages K.cmp (arc_value chunk.now) }
    requires changes { Ascends K.cmp key_of changes.now }
    ensures pairs { OnOk result (made maker.new ≡ made maker.old ++ changed K.cmp (option_map C.leaf_value) (parts (arc_value chunk.now)) changes.now) }
    ensures makes { OnOk result (IsMade maker.new) }
{
    if changes.is_empty() {
        maker.share_chunk(key, chunk)?;
        Ok(())
    } else {
        change_pages(maker, chunk.entries(), changes)?;
        Ok(())
    }
}

/// Adds the pairs of a page after the changes, and shares it where there are none.
fn change_page<K: Ord + Copy + Drop, V: Drop, C: Leaf<V>>(
    maker: &mut Maker<K, V, C>,
    key: K,
    page: &Arc<Page<K, V, C>, Global>,
    changes: &[(K, Option<C>)],
) -> Result<(), AllocError>
    requires makes { IsMade maker.old }
    requires head { HasHead (key, arc_value page.now) }
    requires most { length (arc_value page.now) ≤ 64 }
    requires order { Ascends K.cmp key_of (arc_value page.now) }
    requires changes { Ascends K.cmp key_of changes.now }
    ensures pairs { OnOk result (made maker.new ≡ made maker.old ++ changed K.cmp (option_map C.leaf_value) (arc_value page.now) changes.now) }
    ensures makes { OnOk result (IsMade maker.new) }
{
    if changes.is_empty() {
        maker.share_page(key, page)?;
        Ok(())
    } else {
        change_pairs(maker, page.entries(), changes)?;
        Ok(())
    }
}

/// The changes below the first key of what follows, or all where nothing does, and the others.
fn split_changes<'a, K: Ord + Copy + Drop, P, C>(
    more: &'a [(K, P)],
    changes: &'a [(K, C)],
) -> (&'a [(K, C)], &'a [(K, C)])
    requires { Ascends K.cmp key_of changes.now }
    ensures whole { changes.entry.now ≡ result.0.now ++ result.1.now }
    ensures below { IfSome (first_of more.now) (λ next. AllByRecursion (λ c. K.cmp c.0 next.0 ≡ Less) result.0.now) }
    ensures others { IfSome (first_of more.now) (λ next. AllByRecursion (λ c. is_lt (K.cmp c.0 next.0) ≡ false) result.1.now) }
    ensures none { more.now ≡ [] → result.1.now ≡ [] }
    ensures order { Ascends K.cmp key_of result.0.now }
    ensures later_order { Ascends K.cmp key_of result.1.now }
{
    match more.first() {
        Some((next, _)) => changes.split_at(count_below(changes, next)),
        None => changes.split_at(changes.len()),
    }
}

/// Adds what the changes leave of no pairs.
fn change_none<K: Ord + Copy + Drop, V: Drop, C: Leaf<V>>(
    maker: &mut Maker<K, V, C>,
    changes: &[(K, Option<C>)],
) -> Result<(), AllocError>
    requires makes { IsMade maker.old }
    requires changes { Ascends K.cmp key_of changes.now }
    ensures pairs { OnOk result (made maker.new ≡ made maker.old ++ changed K.cmp (option_map C.leaf_value) [] changes.now) }
    ensures makes { OnOk result (IsMade maker.new) }
{
    let none = Vec::new(maker.alloc);
    change_pairs(maker, none.as_slice(), changes)?;
    Ok(())
}

/// Adds the pairs after the changes.
fn change_pairs<K: Ord + Copy + Drop, V: Drop, C: Leaf<V>>(
    maker: &mut Maker<K, V, C>,
    pairs: &[(K, C)],
    changes: &[(K, Option<C>)],
) -> Result<(), AllocError>
    requires makes { IsMade maker.old }
    requires order { Ascends K.cmp key_of pairs.now }
    requires changes { Ascends K.cmp key_of changes.now }
    ensures pairs { OnOk result (made maker.new ≡ made maker.old ++ changed K.cmp (option_map C.leaf_value) (map (pair_by C.leaf_value) pairs.now) changes.now) }
    ensures makes { OnOk result (IsMade maker.new) }
{
    let mut rest = pairs;
    for (key, change) in changes {
        let (before, behind) = around(rest, key);
        maker.share_all(before)?;
        give(maker, *key, change)?;
        rest = behind;
    }
    maker.share_all(rest)?;
    Ok(())
}

/// Adds what the change puts under the key, if it puts something.
fn give<K: Copy + Drop, V: Drop, C: Leaf<V>>(
    maker: &mut Maker<K, V, C>,
    key: K,
    change: &Option<C>,
) -> Result<(), AllocError>
    requires { IsMade maker.old }
    ensures pairs { OnOk result (made maker.new ≡ made maker.old ++ given key (option_map C.leaf_value change.now)) }
    ensures makes { OnOk result (IsMade maker.new) }
{
    match change {
        Some(leaf) => {
            maker.share(key, leaf)?;
            Ok(())
        }
        None => Ok(()),
    }
}
