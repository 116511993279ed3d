//! The rules of a shop, with their conditions.
ghost use Rattle.std.specs.Prelude.{◌≡◌, pos, map, unwrap_or, IfOk};
ghost use Rattle.shop_defs.specs.declared.entity.Entity.TheVariants as E;
ghost use Rattle.shop_defs.specs.declared.words.FieldName.TheVariants as N;
ghost use Rattle.row_fields.specs.Fields.{int_at as number_in, number_of};
ghost use Rattle.cart_price.specs.Lent.{lent_rows};
ghost use Rattle.shop_rules.specs.Ranking as spec;

use crate::numbers::RULE_PRIORITY;
use cart_collect::live_rows;
use row_fields::int_at;
use shop_defs::{Entity, List, NoMemory, Row};
use shop_rows::Rows;
use shop_rules::{Tree, read_tree};
use std::alloc::Global;

/// All live rules, each with its id, its priority and its conditions. Want of memory is the only error.
pub(crate) fn rules_of(alloc: Global, rows: &Rows) -> Result<List<(u128, i64, Tree)>, NoMemory>
    ensures { IfOk result (λ rules. rules ≡ spec.rules rows.now.list) }
{
    let found = live_rows(alloc, rows, Entity::Rule)?;
    read_rules(alloc, rows, found.as_slice())
}

fn read_rules(
    alloc: Global,
    rows: &Rows,
    found: &[&Row],
) -> Result<List<(u128, i64, Tree)>, NoMemory>
    ensures { IfOk result (λ rules. rules ≡ map (spec.rule_in rows.now.list) (lent_rows found.now)) }
{
    let mut rules = Vec::with_capacity(alloc, found.len())?;
    let mut rest = found;
    while let [row, more @ ..] = rest {
        let tree = read_tree(alloc, rows, row.key.id)?;
        rules.push((row.key.id, priority_of(row), tree))?;
        rest = more;
    }
    Ok(List::from_vec(rules))
}

#[tactic(auto, using(crate::proofs::FieldNumbers::numbers))]
fn priority_of(rule: &Row) -> i64
    ensures { result ≡ unwrap_or (number_in rule.now (number_of E.Rule N.Priority)) (pos 0) }
{
    int_at(rule, RULE_PRIORITY).unwrap_or(0)
}
