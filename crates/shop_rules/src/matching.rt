//! Which rules hold of a cart.
ghost use Rattle.std.specs.Prelude.{◌≡◌, ◌<◌, List as ListOf, length, map, IfOk, OnErr};
ghost use Rattle.shop_defs.specs.declared.row.Row.{Row as RowOf};
ghost use Rattle.shop_rules.specs.Days.{IsMoment};
ghost use Rattle.shop_rules.specs.Ranking as spec;

use crate::asking::matches;
use crate::facts::CartFacts;
use crate::ranked::Ranked;
use shop_defs::{List, NoMemory};
use std::alloc::{AllocError, Global};
use trees::Tree;

/// The ids of the rules that hold of the facts, at that moment: by priority, from the highest on, and
/// then by id. Each rule stands as its id, its priority and its conditions. Want of memory is the only
/// error.
pub fn matched(
    alloc: Global,
    trees: &List<(u128, i64, Tree)>,
    facts: &CartFacts,
    moment: i64,
) -> Result<List<u128>, NoMemory>
    requires { IsMoment moment }
    ensures value { IfOk result (λ ids. ids ≡ spec.matched trees.now facts.now moment) }
    ensures ranked { IfOk result (spec.AreRanked trees.now facts.now moment) }
    // Where no rule holds no memory is wanted.
    ensures wanted { OnErr result (0 < length (spec.holding trees.now facts.now moment)) }
    // Where all live rules of some rows are handed in, with their priorities and conditions, they are
    // the rules of these rows that hold.
    ensures rows { (rows : ListOf RowOf) → trees.now ≡ spec.rules rows → IfOk result (λ ids. ids ≡ spec.matched_in rows facts.now moment) }
{
    let mut ranked = holding(alloc, trees.as_slice(), facts, moment)?;
    rank(&mut ranked);
    let ids = ids_of(alloc, ranked.as_slice())?;
    Ok(List::from_vec(ids))
}

/// The rules that hold, in no order.
fn holding(
    alloc: Global,
    trees: &[(u128, i64, Tree)],
    facts: &CartFacts,
    moment: i64,
) -> Result<Vec<Ranked>, AllocError>
    requires { IsMoment moment }
    ensures rules { IfOk result (λ ranked. ranked.items ≡ spec.holding trees.now facts.now moment) }
    ensures wanted { OnErr result (0 < length (spec.holding trees.now facts.now moment)) }
{
    let mut ranked = Vec::new(alloc);
    for (id, priority, tree) in trees {
        if matches(tree, facts, moment) {
            ranked.push(Ranked {
                priority: *priority,
                id: *id,
            })?;
        }
    }
    Ok(ranked)
}

/// Puts rules in the order in which they count, each once. It takes no memory.
fn rank(ranked: &mut Vec<Ranked>)
    ensures { ranked.new.items ≡ spec.in_rank ranked.old.items }
{
    ranked.sort_unstable();
    ranked.dedup();
}

fn ids_of(alloc: Global, ranked: &[Ranked]) -> Result<Vec<u128>, AllocError>
    ensures ids { IfOk result (λ ids. ids.items ≡ map (λ rule. rule.id) ranked.now) }
    ensures wanted { OnErr result (0 < length ranked.now) }
{
    if ranked.is_empty() {
        return Ok(Vec::new(alloc));
    }
    ranked.iter().map(|rule| rule.id).collect(alloc)
}
