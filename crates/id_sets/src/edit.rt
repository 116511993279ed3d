//! Sets that are kept in step with what picks their ids.
ghost use Rattle.std.specs.Prelude.{◌≡◌, ℕ, ◌∷◌, [], ◌++◌, filter, fold, IfOk, OnOk, unwrap_or, if◌then◌else◌};
ghost use Rattle.id_sets.specs.Sets as spec;

use crate::pick::Pick;
use crate::set::{Ids, place_of};
use shop_defs::NoMemory;
use std::alloc::Global;

/// The set in which each of the ids is where it is picked, and in which all others are as before:
/// `None` where that is the set as it was. Want of memory is the only error.
pub fn edited<P: Pick>(
    alloc: Global,
    old: &Ids,
    ids: &Ids,
    pick: &P,
) -> Result<Option<Ids>, NoMemory>
    requires { P.IsReady pick.now }
    ensures has { IfOk result (λ edited. (id : ℕ) → spec.has (unwrap_or edited old.now) id ≡ (if spec.has ids.now id then P.picks pick.now id else spec.has old.now id)) }
    ensures ascends { IfOk result (λ edited. spec.AreAscending (unwrap_or edited old.now)) }
{
    let before = old.as_slice();
    let looked_at = ids.as_slice();
    let turned = turned_ids(alloc, old, looked_at, pick)?;
    let coming = turned.as_slice();
    if coming.is_empty() {
        return Ok(None);
    }
    let all = turned_over(alloc, before, coming)?;
    Ok(Some(Ids::from_ascending(all)))
}

/// Those of the ids that come or go.
fn turned_ids<P: Pick>(
    alloc: Global,
    old: &Ids,
    ids: &[u128],
    pick: &P,
) -> Result<Vec<u128>, NoMemory>
    requires { P.IsReady pick.now }
    ensures { IfOk result (λ turned. turned.items ≡ filter (spec.is_turned old.now (P.picks pick.now)) ids.now) }
{
    let mut turned = Vec::new(alloc);
    for id in ids {
        push_if_turned(alloc, &mut turned, old, *id, pick)?;
    }
    Ok(turned)
}

fn push_if_turned<P: Pick>(
    alloc: Global,
    turned: &mut Vec<u128>,
    old: &Ids,
    id: u128,
    pick: &P,
) -> Result<(), NoMemory>
    requires { P.IsReady pick.now }
    ensures { OnOk result (turned.new.items ≡ turned.old.items ++ filter (spec.is_turned old.now (P.picks pick.now)) (id ∷ [])) }
{
    if differ(old.has(id), pick.picks(alloc, id)?) {
        turned.push(id)?;
    }
    Ok(())
}

fn differ(one: bool, other: bool) -> bool
    ensures { result ≡ spec.differ one other }
{
    if other { !one } else { one }
}

/// The set without those of the ids that it has, and with the others. What stands between them is
/// copied at once.
fn turned_over(alloc: Global, old: &[u128], turned: &[u128]) -> Result<Vec<u128>, NoMemory>
    requires old { spec.AreAscending old.now }
    requires turned { spec.AreAscending turned.now }
    ensures { IfOk result (λ ids. ids.items ≡ fold spec.turn old.now turned.now) }
{
    let mut ids = Vec::new(alloc);
    let mut left = old;
    let mut rest = turned;
    while let [id, more @ ..] = rest {
        left = take_turned(&mut ids, left, *id)?;
        rest = more;
    }
    ids.extend_from_slice(left)?;
    Ok(ids)
}

/// Puts what stands before the id at the end, and behind it the id where it isn't there. What stands
/// behind the id is left.
fn take_turned<'a>(ids: &mut Vec<u128>, left: &'a [u128], id: u128) -> Result<&'a [u128], NoMemory>
    requires { spec.AreAscending left.now }
    ensures { IfOk result (λ behind. spec.IsSplit ids.old.items ids.new.items left.entry.now id behind.now) }
{
    match place_of(left, id) {
        Ok(at) => {
            ids.extend_from_slice(&left[..at])?;
            Ok(&left[at + 1..])
        }
        Err(at) => {
            ids.extend_from_slice(&left[..at])?;
            ids.push(id)?;
            Ok(&left[at..])
        }
    }
}
