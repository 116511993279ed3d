//! Lists of keys in order, made one.
ghost use Rattle.std.specs.Prelude.{◌≡◌, ◌++◌, IfOk, OnOk, map, filter};
ghost use Rattle.keyed.specs.Keyed.{Ascends};
ghost use Rattle.shop_defs.specs.Keys.{key_cmp};
ghost use Rattle.shop_write.specs.Growth as spec;

use shop_defs::{Key, List, NoMemory, Row};
use shop_rows::Rows;
use std::alloc::{AllocError, Global};
use std::cmp::Ordering;

/// The keys without those of lost rows, and with the others, which ascend. Want of memory is the
/// only error, here and below.
pub(crate) fn merged_keys(
    alloc: Global,
    lost: &Rows,
    keys: &[Key],
    over: &[Key],
) -> Result<List<Key>, NoMemory>
    requires { Ascends key_cmp (λ key. key) over.now }
    ensures { IfOk result (λ merged. merged ≡ spec.merged_keys lost.now.list keys.now over.now) }
{
    let kept = kept_keys(alloc, lost, keys)?;
    let merged = joined_keys(alloc, kept.as_slice(), over)?;
    Ok(List::from_vec(merged))
}

/// The keys that no lost row has.
fn kept_keys(alloc: Global, lost: &Rows, keys: &[Key]) -> Result<Vec<Key>, AllocError>
    ensures { IfOk result (λ kept. kept.items ≡ filter (spec.is_kept lost.now.list) keys.now) }
{
    keys.iter()
        .filter(|key| is_kept(lost, key))
        .copied()
        .collect(alloc)
}

fn is_kept(lost: &Rows, key: &Key) -> bool
    ensures { result ≡ spec.is_kept lost.now.list key.now }
{
    lost.get(key).is_none()
}

/// The keys and the others, which ascend, each key once and all in order.
pub(crate) fn joined_keys(alloc: Global, keys: &[Key], others: &[Key]) -> Result<Vec<Key>, NoMemory>
    requires { Ascends key_cmp (λ key. key) others.now }
    ensures { IfOk result (λ joined. joined.items ≡ spec.joined_keys keys.now others.now) }
{
    let mut joined = Vec::new(alloc);
    let mut rest = keys;
    for other in others {
        rest = push_below(&mut joined, rest, other)?;
        joined.push(*other)?;
    }
    joined.extend_from_slice(rest)?;
    Ok(joined)
}

/// Pushes the keys before the first that isn't below the given one, and lends those behind.
fn push_below<'a>(joined: &mut Vec<Key>, keys: &'a [Key], key: &Key) -> Result<&'a [Key], NoMemory>
    ensures joined { OnOk result (joined.new.items ≡ joined.old.items ++ spec.keys_below keys.entry.now key.now) }
    ensures rest { IfOk result (λ rest. rest.now ≡ spec.keys_above keys.entry.now key.now) }
{
    let mut rest = keys;
    while let [first, more @ ..] = rest {
        match first.order(key) {
            Ordering::Less => joined.push(*first)?,
            Ordering::Equal => return Ok(more),
            Ordering::Greater => return Ok(rest),
        }
        rest = more;
    }
    Ok(rest)
}
