//! Lists of keys in the order of places, made one.
ghost use Rattle.std.specs.Prelude.{◌≡◌, ◌++◌, IfOk, OnOk};
ghost use Rattle.keyed.specs.Keyed.{Ascends};
ghost use Rattle.shop_operations.specs.Upserts.{place_cmp};
ghost use Rattle.shop_version.specs.Overlays as spec;

use shop_defs::{Key, NoMemory};
use std::alloc::Global;
use std::cmp::Ordering;

/// The key of that version at the key's place.
pub(crate) fn key_at(version: u128, key: &Key) -> Key
    ensures { result ≡ spec.at_version_key version key.now }
{
    Key { version, ..*key }
}

/// How the places of two keys stand to each other.
fn order_of_places(a: &Key, b: &Key) -> Ordering
    ensures { result ≡ place_cmp a.now b.now }
{
    key_at(0, a).order(&key_at(0, b))
}

/// The keys and the others, whose places ascend, each place once and all in order. Want of memory is
/// the only error, here and below.
pub(crate) fn joined_places(
    alloc: Global,
    keys: &[Key],
    others: &[Key],
) -> Result<Vec<Key>, NoMemory>
    requires { Ascends place_cmp (λ key. key) others.now }
    ensures { IfOk result (λ joined. joined.items ≡ spec.joined_places keys.now others.now) }
{
    let mut joined = Vec::new(alloc);
    let mut rest = keys;
    for other in others {
        rest = push_below(&mut joined, rest, other)?;
        joined.push(*other)?;
    }
    joined.extend_from_slice(rest)?;
    Ok(joined)
}

/// Pushes the keys before the first whose place isn't below the given one's, and lends those behind.
fn push_below<'a>(joined: &mut Vec<Key>, keys: &'a [Key], key: &Key) -> Result<&'a [Key], NoMemory>
    ensures joined { OnOk result (joined.new.items ≡ joined.old.items ++ spec.places_below keys.entry.now key.now) }
    ensures rest { IfOk result (λ rest. rest.now ≡ spec.places_above keys.entry.now key.now) }
{
    let mut rest = keys;
    while let [first, more @ ..] = rest {
        match order_of_places(first, key) {
            Ordering::Less => joined.push(*first)?,
            Ordering::Equal => return Ok(more),
            Ordering::Greater => return Ok(rest),
        }
        rest = more;
    }
    Ok(rest)
}
