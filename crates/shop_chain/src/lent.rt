//! What is shown of a product or a category beside the fields of its own row.
ghost use Rattle.std.specs.Prelude.{◌≡◌, option_and_then};
ghost use Rattle.std.specs.Option.{option_copied};
ghost use Rattle.shop_chain.specs.Showing as spec;

use crate::inheritance::effective;
use crate::languages::Chain;
use crate::numbers::{GROSS, MAX_ORDER, MIN_ORDER, NET, PRODUCT_PARENT, TAX, WEIGHT};
use crate::texts::{Asked, both_translated};
use crate::walk::id_in;
use shop_defs::{Entity, FieldName, Key, Look, Row, Value};
use std::marker::Model;

/// A name with the value that is shown for it.
#[derive(Drop, Clone, Copy)]
pub struct ShownValue<'a> {
    /// The name of the field.
    pub name: FieldName,
    /// The value, lent by the row that holds it: `None` where there is none.
    pub value: Option<&'a Value>,
}

/// What is shown beside a row: names with their values, in the order of the names' bytes. Contracts
/// see the list of these.
#[derive(Drop)]
pub struct Shown<'a> {
    values: [ShownValue<'a>; 8],
    len: usize,
}

impl<'a> Model for Shown<'a> {
    ghost use Rattle.std.specs.Prelude.{◌≤◌, take};
    ghost use Rattle.shop_chain.specs.Showing.{ShownList, lent};

    ghost Value = { ShownList };

    ghost view = { λ s. lent (take s.len s.values) };

    ghost invariant = { λ s. s.len ≤ 8 };
}

impl<'a> Shown<'a> {
    /// The names and values, lent by the rows that hold the values.
    pub fn as_slice(&self) -> &[ShownValue<'a>]
        ensures { spec.lent result.now ≡ self.now }
    {
        &self.values[..self.len]
    }
}

/// Stands in the places of a list that is shorter than its room.
const UNUSED: ShownValue<'static> = ShownValue {
    name: FieldName::Name,
    value: None,
};

/// What is shown beside that row, which the rows show under that version: nothing where it is neither
/// a product's nor a category's. Where `inherits`, a product's parent is asked too. It takes no
/// memory, and what it lends lives as long as the rows.
pub fn shown_of<'a, L: Look>(
    rows: &'a L,
    version: u128,
    row: &'a Row,
    inherits: bool,
    chain: &Chain,
) -> Shown<'a>
    ensures { result ≡ spec.shown (L.shown rows.entry.now) version row.entry.now inherits chain.now }
{
    if row.key.entity == Entity::Product {
        return product_shown(rows, version, row, inherits, chain);
    }
    if row.key.entity == Entity::Category {
        return category_shown(rows, version, row, chain);
    }
    Shown {
        values: [UNUSED; 8],
        len: 0,
    }
}

/// What is shown of a product: texts in the first language of the chain that has one, and values. The
/// parent that its row names is asked exactly where `inherits`. It takes no memory.
#[tactic(auto, using(crate::proofs::FieldNumbers::numbers))]
fn product_shown<'a, L: Look>(
    rows: &'a L,
    version: u128,
    row: &'a Row,
    inherits: bool,
    chain: &Chain,
) -> Shown<'a>
    ensures { result ≡ spec.product_shown (L.shown rows.entry.now) version row.entry.now inherits chain.now }
{
    let asked = Asked {
        entity: Entity::ProductTranslation,
        version,
        id: row.key.id,
        parent: asked_parent(row, inherits),
    };
    let above = product_row(rows, version, asked.parent);
    let texts = both_translated(rows, &asked, chain.as_slice());
    Shown {
        values: [
            named(FieldName::Description, texts.description),
            named(FieldName::Gross, effective(row, above, GROSS)),
            named(FieldName::MaxOrder, effective(row, above, MAX_ORDER)),
            named(FieldName::MinOrder, effective(row, above, MIN_ORDER)),
            named(FieldName::Name, texts.name),
            named(FieldName::Net, effective(row, above, NET)),
            named(FieldName::Tax, effective(row, above, TAX)),
            named(FieldName::Weight, effective(row, above, WEIGHT)),
        ],
        len: 8,
    }
}

/// What is shown of a category: its texts, each in the first language of the chain that has one. It
/// takes no memory.
#[tactic(auto, using(crate::proofs::FieldNumbers::numbers))]
fn category_shown<'a, L: Look>(rows: &'a L, version: u128, row: &'a Row, chain: &Chain) -> Shown<'a>
    ensures { result ≡ spec.category_shown (L.shown rows.entry.now) version row.entry.now chain.now }
{
    let asked = Asked {
        entity: Entity::CategoryTranslation,
        version,
        id: row.key.id,
        parent: None,
    };
    let texts = both_translated(rows, &asked, chain.as_slice());
    let mut values = [UNUSED; 8];
    values[0] = named(FieldName::Description, texts.description);
    values[1] = named(FieldName::Name, texts.name);
    Shown { values, len: 2 }
}

fn named(name: FieldName, value: Option<&Value>) -> ShownValue<'_>
    ensures name { result.name ≡ name }
    ensures value { option_copied result.value ≡ option_copied value.entry }
{
    ShownValue { name, value }
}

/// The parent that is asked for what a product hasn't: the one that its row names, where `inherits`.
#[tactic(auto, using(crate::proofs::FieldNumbers::numbers))]
fn asked_parent(row: &Row, inherits: bool) -> Option<u128>
    ensures { result ≡ spec.asked_parent row.now inherits }
{
    if inherits {
        id_in(row, PRODUCT_PARENT)
    } else {
        None
    }
}

/// The row of the product, if one is given.
fn product_row<L: Look>(rows: &L, version: u128, product: Option<u128>) -> Option<&Row>
    ensures { option_copied result ≡ option_and_then (λ id. L.shown rows.entry.now (spec.product_key version id)) product }
{
    match product {
        Some(id) => rows.row(&Key {
            entity: Entity::Product,
            version,
            id,
            second: 0,
        }),
        None => None,
    }
}
