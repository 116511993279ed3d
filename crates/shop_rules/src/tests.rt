//! What no clause says: that the words mean what was worked by hand, with days and weekdays by another
//! calendar, at the ends of each leaf's bounds and of the moments.

use crate::{CartFacts, matched, matches, read_tree};
use shop_defs::{Delta, Entity, Key, List, NoMemory, Row, Txt, Value};
use shop_rows::Rows;
use std::alloc::Global;
use std::test::Fail;
use trees::Tree;

/// What a field of a condition holds.
#[derive(Clone, Copy)]
enum Held {
    Int(i64),
    Text(&'static str),
    Id(u128),
}

/// A condition: its id, that of the one above (0 for none), its kind, and what other fields hold.
type Node<'a> = (u128, u128, &'a str, &'a [(u8, Held)]);

/// The last moment.
const LAST: i64 = 250_000_000_000;

/// Trees, each at a moment, and whether it holds.
const WORKED: [(&[Node<'static>], i64, bool); 53] = [
    (&[], 0, false),
    (&[(1, 0, "not", &[])], 0, false),
    (&[(1, 0, "not", &[]), (2, 1, "or", &[])], 0, true),
    (&[(1, 0, "not", &[]), (2, 1, "and", &[])], 0, false),
    (
        &[(1, 0, "not", &[]), (2, 1, "or", &[]), (3, 1, "or", &[])],
        0,
        false,
    ),
    (&[(1, 0, "and", &[])], 0, true),
    (&[(1, 0, "or", &[])], 0, false),
    (&[(1, 0, "and", &[]), (2, 0, "or", &[])], 0, false),
    (&[(2, 1, "and", &[])], 0, false),
    (&[(1, 0, "amount", &[]), (2, 1, "or", &[])], 0, true),
    (
        &[(1, 0, "weekday", &[(4, Held::Int(4)), (5, Held::Int(4))])],
        0,
        true,
    ),
    (
        &[(1, 0, "weekday", &[(4, Held::Int(1)), (5, Held::Int(1))])],
        345_599,
        false,
    ),
    (
        &[(1, 0, "weekday", &[(4, Held::Int(1)), (5, Held::Int(1))])],
        345_600,
        true,
    ),
    (&[(1, 0, "weekday", &[(4, Held::Int(7))])], 345_599, true),
    (&[(1, 0, "weekday", &[(4, Held::Int(7))])], 345_600, false),
    (
        &[(1, 0, "weekday", &[(4, Held::Int(2)), (5, Held::Int(2))])],
        LAST,
        true,
    ),
    (
        &[(1, 0, "weekday", &[(4, Held::Int(6)), (5, Held::Int(3))])],
        0,
        false,
    ),
    (&[(1, 0, "day", &[(6, Held::Int(1))])], 86_399, false),
    (&[(1, 0, "day", &[(6, Held::Int(1))])], 86_400, true),
    (&[(1, 0, "day", &[(7, Held::Int(0))])], 86_399, true),
    (&[(1, 0, "day", &[(7, Held::Int(0))])], 86_400, false),
    (
        &[(1, 0, "day", &[(6, Held::Int(0)), (7, Held::Int(0))])],
        0,
        true,
    ),
    (
        &[(
            1,
            0,
            "day",
            &[(6, Held::Int(2_893_518)), (7, Held::Int(2_893_518))],
        )],
        LAST,
        true,
    ),
    (&[(1, 0, "day", &[(6, Held::Int(2_893_519))])], LAST, false),
    (&[(1, 0, "day", &[(7, Held::Int(2_932_895))])], LAST, true),
    (
        &[(
            1,
            0,
            "amount",
            &[(4, Held::Int(10_000)), (5, Held::Int(10_000))],
        )],
        0,
        true,
    ),
    (&[(1, 0, "amount", &[(4, Held::Int(10_001))])], 0, false),
    (&[(1, 0, "amount", &[(5, Held::Int(9_999))])], 0, false),
    (
        &[(1, 0, "amount", &[(5, Held::Int(1_000_000_000_000_000_000))])],
        0,
        true,
    ),
    (&[(1, 0, "amount", &[])], 0, true),
    (
        &[(1, 0, "count", &[(4, Held::Int(3)), (5, Held::Int(3))])],
        0,
        true,
    ),
    (&[(1, 0, "count", &[(4, Held::Int(4))])], 0, false),
    (&[(1, 0, "count", &[(5, Held::Int(2))])], 0, false),
    (
        &[(1, 0, "weight", &[(4, Held::Int(250)), (5, Held::Int(250))])],
        0,
        true,
    ),
    (&[(1, 0, "weight", &[(4, Held::Int(251))])], 0, false),
    (&[(1, 0, "weight", &[(5, Held::Int(249))])], 0, false),
    (&[(1, 0, "group", &[(8, Held::Text("vip"))])], 0, true),
    (&[(1, 0, "group", &[(8, Held::Text("VIP"))])], 0, false),
    (&[(1, 0, "group", &[(8, Held::Text("DE"))])], 0, false),
    (&[(1, 0, "group", &[])], 0, false),
    (&[(1, 0, "country", &[(8, Held::Text("DE"))])], 0, true),
    (&[(1, 0, "country", &[(8, Held::Text("vip"))])], 0, false),
    (&[(1, 0, "country", &[])], 0, false),
    (&[(1, 0, "product", &[(9, Held::Id(20))])], 0, true),
    (&[(1, 0, "product", &[(9, Held::Id(21))])], 0, true),
    (&[(1, 0, "product", &[(9, Held::Id(22))])], 0, false),
    (&[(1, 0, "product", &[])], 0, false),
    (&[(1, 0, "product", &[(10, Held::Id(20))])], 0, false),
    (&[(1, 0, "method", &[(10, Held::Id(30))])], 0, true),
    (&[(1, 0, "method", &[(10, Held::Id(31))])], 0, false),
    (&[(1, 0, "method", &[])], 0, false),
    (&[(1, 0, "equals", &[])], 0, false),
    (
        &[
            (1, 0, "and", &[]),
            (2, 1, "or", &[]),
            (3, 2, "count", &[(4, Held::Int(4))]),
            (4, 2, "not", &[]),
            (5, 4, "or", &[]),
        ],
        0,
        true,
    ),
];

/// A cart of 10,000 with three pieces of 250 grams in all, of a variant 21 of the product 20.
fn facts(alloc: Global) -> Result<CartFacts, NoMemory> {
    let mut products = List::new(alloc);
    products.push(21)?;
    products.push(20)?;
    Ok(CartFacts {
        goods: 10_000,
        count: 3,
        weight: 250,
        products,
        group: Txt::from_str(alloc, "vip")?,
        country: Txt::from_str(alloc, "DE")?,
        method: 30,
    })
}

/// Whether it is so; without memory it isn't.
fn is_well(is: Result<bool, NoMemory>) -> bool {
    match is {
        Ok(is) => is,
        Err(_) => false,
    }
}

fn value_of(alloc: Global, held: Held) -> Result<Value, NoMemory> {
    match held {
        Held::Int(number) => Ok(Value::Int(number)),
        Held::Text(text) => Ok(Value::Text(Txt::from_str(alloc, text)?)),
        Held::Id(id) => Ok(Value::Ident(id)),
    }
}

/// A condition of the rule.
fn row_of(alloc: Global, rule: u128, node: &Node<'_>) -> Result<Row, NoMemory> {
    let (id, above, kind, held) = node;
    let mut fields = List::new(alloc);
    fields.push((1, Value::Ident(rule)))?;
    if *above != 0 {
        fields.push((2, Value::Ident(*above)))?;
    }
    fields.push((3, Value::Text(Txt::from_str(alloc, kind)?)))?;
    for (number, value) in *held {
        fields.push((*number, value_of(alloc, *value)?))?;
    }
    Ok(Row {
        key: Key {
            entity: Entity::RuleCondition,
            version: 0,
            id: *id,
            second: 0,
        },
        fields,
        ops: List::new(alloc),
    })
}

fn tree_of(alloc: Global, nodes: &[Node<'_>]) -> Result<Tree, NoMemory> {
    let mut rows = List::new(alloc);
    for node in nodes {
        rows.push(row_of(alloc, 80, node)?)?;
    }
    Ok(Tree::from_nodes(rows))
}

/// Whether the worked tree gives the answer; without memory it doesn't.
fn is_as_worked(
    alloc: Global,
    nodes: &[Node<'_>],
    moment: i64,
    want: bool,
) -> Result<bool, NoMemory> {
    if moment < 0 || moment > LAST {
        return Ok(false);
    }
    Ok(matches(&tree_of(alloc, nodes)?, &facts(alloc)?, moment) == want)
}

#[test]
fn worked_trees(rt: HostRuntime) -> Result<(), Fail> {
    for (at, (nodes, moment, want)) in WORKED.iter().enumerate() {
        let holds = is_well(is_as_worked(rt.alloc(), nodes, *moment, *want));
        assert!(rt; holds, "tree {at}");
    }
    Ok(())
}

/// Whether a chain of `not` down to an empty `and`, so many levels deep, gives the answer.
fn is_chain(alloc: Global, levels: u128, want: bool) -> Result<bool, NoMemory> {
    let mut rows = List::new(alloc);
    for level in 1..levels {
        rows.push(row_of(alloc, 80, &(level, level - 1, "not", &[]))?)?;
    }
    if levels > 0 {
        rows.push(row_of(alloc, 80, &(levels, levels - 1, "and", &[]))?)?;
    }
    Ok(matches(&Tree::from_nodes(rows), &facts(alloc)?, 0) == want)
}

/// Whether an `and` over so many leaves, which all hold, and over one more gives the answer.
fn is_wide(alloc: Global, leaves: u8, last: &[(u8, Held)], want: bool) -> Result<bool, NoMemory> {
    let mut rows = List::new(alloc);
    rows.push(row_of(alloc, 80, &(1, 0, "and", &[]))?)?;
    for leaf in 0..leaves {
        rows.push(row_of(alloc, 80, &(1_000 - u128::from(leaf), 1, "amount", &[]))?)?;
    }
    rows.push(row_of(alloc, 80, &(2, 1, "amount", last))?)?;
    Ok(matches(&Tree::from_nodes(rows), &facts(alloc)?, 0) == want)
}

/// A tree has up to 8 levels and 64 nodes.
#[test]
fn large_trees(rt: HostRuntime) -> Result<(), Fail> {
    let alloc = rt.alloc();
    for (levels, want) in [(1, true), (2, false), (7, true), (8, false)] {
        let holds = is_well(is_chain(alloc, levels, want));
        assert!(rt; holds, "{levels} levels");
    }
    let all = is_well(is_wide(alloc, 62, &[], true));
    let last = is_well(is_wide(alloc, 62, &[(4, Held::Int(10_001))], false));
    assert!(rt; all && last);
    Ok(())
}

/// Rules, each by its id, its priority and the kind of its only condition, and whether they are matched
/// in this order.
fn are_matched(
    alloc: Global,
    rules: &[(u128, i64, &str)],
    want: &[u128],
) -> Result<bool, NoMemory> {
    let mut trees = List::new(alloc);
    for (id, priority, kind) in rules {
        trees.push((*id, *priority, tree_of(alloc, &[(1, 0, *kind, &[])])?))?;
    }
    Ok(matched(alloc, &trees, &facts(alloc)?, 0)?.as_slice() == want)
}

/// Whether the conditions of the rule among these, each with its rule and its version, are those with
/// the ids.
fn are_read(
    alloc: Global,
    conditions: &[(u128, u128, u128)],
    rule: u128,
    want: &[u128],
) -> Result<bool, NoMemory> {
    let mut changes = List::new(alloc);
    for (id, of, version) in conditions {
        let mut row = row_of(alloc, *of, &(*id, 0, "and", &[]))?;
        row.key.version = *version;
        changes.push((row.key, Some(row)))?;
    }
    let delta = Delta { changes };
    let mut rows = Rows::empty(alloc);
    rows.reserve(&delta)?;
    rows.apply(delta);
    let tree = read_tree(alloc, &rows, rule)?;
    Ok(
        tree.as_slice()
            .iter()
            .map(|row| row.key.id)
            .eq(want.iter().copied()),
    )
}

#[test]
fn rules_in_order(rt: HostRuntime) -> Result<(), Fail> {
    let alloc = rt.alloc();
    let rules = [
        (5, 10, "and"),
        (3, 10, "and"),
        (9, 20, "and"),
        (1, 99, "or"),
        (5, 10, "and"),
    ];
    let order = is_well(are_matched(alloc, &rules, &[9, 3, 5]));
    let conditions = [(4, 80, 0), (2, 80, 0), (3, 81, 0), (5, 80, 7)];
    let read = is_well(are_read(alloc, &conditions, 80, &[2, 4]));
    let none = is_well(are_read(alloc, &conditions, 82, &[]));
    assert!(rt; order && read && none);
    Ok(())
}
