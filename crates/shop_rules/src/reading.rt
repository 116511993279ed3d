//! The conditions of rules, read from the rows of a shop.
ghost use Rattle.std.specs.Prelude.{◌≡◌, ◌++◌, IfOk, OnOk};
ghost use Rattle.std.specs.Option.{option_copied, option_to_list};
ghost use Rattle.shop_rules.specs.Conditions.{conditions};
ghost use Rattle.shop_rules.specs.Reading as spec;

use shop_defs::{Copied, Entity, Key, List, NoMemory, Row};
use shop_rows::Rows;
use std::alloc::Global;
use trees::Tree;

/// The conditions of the rule with that id: none where there is no such rule. Want of memory is the
/// only error. It costs a look-up for each of them, whatever else refers to the rule.
pub fn read_tree(alloc: Global, rows: &Rows, rule: u128) -> Result<Tree, NoMemory>
    ensures { IfOk result (λ tree. tree ≡ conditions rows.now.list rule) }
{
    // Of this call just its promise is wanted: the rows stand in the order of their keys.
    let _all = rows.len();
    let keys = rows.referrers_by(alloc, Entity::RuleCondition, 0, &rule_key(rule))?;
    let nodes = copies_at(alloc, rows, keys.as_slice())?;
    Ok(Tree::from_nodes(List::from_vec(nodes)))
}

fn rule_key(id: u128) -> Key
    ensures { result ≡ spec.rule_key id }
{
    Key {
        entity: Entity::Rule,
        version: 0,
        id,
        second: 0,
    }
}

/// Copies of the rows at these keys.
fn copies_at(alloc: Global, rows: &Rows, keys: &[Key]) -> Result<Vec<Row>, NoMemory>
    ensures { IfOk result (λ nodes. nodes.items ≡ spec.rows_at rows.now.list keys.now) }
{
    let mut nodes = Vec::new(alloc);
    let mut rest = keys;
    while let [key, more @ ..] = rest {
        push_if_any(alloc, &mut nodes, rows.get(key))?;
        rest = more;
    }
    Ok(nodes)
}

/// Puts a copy of the row at the end, if there is one.
fn push_if_any(alloc: Global, nodes: &mut Vec<Row>, row: Option<&Row>) -> Result<(), NoMemory>
    ensures { OnOk result (nodes.new.items ≡ nodes.old.items ++ option_to_list (option_copied row.entry)) }
{
    match row {
        Some(row) => Ok(nodes.push(row.copy(alloc)?)?),
        None => Ok(()),
    }
}
