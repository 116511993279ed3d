//! Whether a product passes a filter's test.
ghost use Rattle.std.specs.Prelude.{◌≡◌, ◌&&◌, codes};
ghost use Rattle.std.specs.Option.{option_copied};
ghost use Rattle.std.specs.Str.{bytes_eq};
ghost use Rattle.product_meanings.specs.Products.{is_among as is_one_of};
ghost use Rattle.product_meanings.specs.Streams as spec;

use crate::numbers::{CATEGORY, FIELD, HIGH, KIND, LOW, VALUE};
use itoa::Buffer;
use row_fields::{id_at, int_at, is_text_at, lies, text_at};
use shop_chain::effective;
use shop_defs::{Entity, Row, Value, field_named};
use shop_requests::print_id;
use trees::Test;

/// A product, as filters ask for it.
#[derive(Drop)]
pub(crate) struct Asked<'a> {
    /// Its row.
    pub(crate) row: &'a Row,
    /// Its parent's.
    pub(crate) parent: Option<&'a Row>,
    /// The categories that it stands in.
    pub(crate) categories: &'a [u128],
}

impl Test for Asked<'_> {
    ghost use Rattle.std.specs.Option.{option_copied};
    ghost use Rattle.product_meanings.specs.Streams.{passes};

    ghost says = { λ a. passes a.row.now (option_copied a.parent) a.categories.now };

    fn is_met(&self, leaf: &Row) -> bool {
        passes(self.row, self.parent, self.categories, leaf)
    }
}

/// Whether the product passes the filter's test. It takes no memory.
#[tactic(auto, using(crate::proofs::FieldNumbers::numbers))]
fn passes(row: &Row, parent: Option<&Row>, categories: &[u128], node: &Row) -> bool
    ensures { result ≡ spec.passes row.now (option_copied parent.entry) categories.now node.now }
{
    if is_text_at(node, KIND, "equals".as_bytes()) {
        return equals(row, parent, node);
    }
    if is_text_at(node, KIND, "range".as_bytes()) {
        return is_in_range(row, parent, node);
    }
    asks_category(categories, node)
}

/// Whether the filter asks for a category, and the product stands in it.
fn asks_category(categories: &[u128], node: &Row) -> bool
    ensures { result ≡ (spec.is_kind node.now (codes "in_category") && spec.is_in_category categories.now node.now) }
{
    is_category_filter(node) && is_in_category(categories, node)
}

#[tactic(auto, using(crate::proofs::FieldNumbers::numbers))]
fn is_category_filter(node: &Row) -> bool
    ensures { result ≡ spec.is_kind node.now (codes "in_category") }
{
    is_text_at(node, KIND, "in_category".as_bytes())
}

/// What counts of the product in the field that the filter names.
#[tactic(auto, using(crate::proofs::FieldNumbers::numbers))]
fn looked_at<'a>(row: &'a Row, parent: Option<&'a Row>, node: &Row) -> Option<&'a Value>
    ensures { option_copied result ≡ spec.looked_at row.entry.now (option_copied parent.entry) node.now }
{
    match field_of(node) {
        Some(field) => effective(row, parent, field),
        None => None,
    }
}

/// The number of the field that the filter names.
#[tactic(auto, using(crate::proofs::FieldNumbers::numbers))]
fn field_of(node: &Row) -> Option<u8>
    ensures { result ≡ spec.field_of node.now }
{
    match text_at(node, FIELD) {
        Some(name) => field_named(Entity::Product, name),
        None => None,
    }
}

#[tactic(auto, using(crate::proofs::FieldNumbers::numbers))]
fn equals(row: &Row, parent: Option<&Row>, node: &Row) -> bool
    ensures { result ≡ spec.equals row.now (option_copied parent.entry) node.now }
{
    match (text_at(node, VALUE), looked_at(row, parent, node)) {
        (Some(text), Some(value)) => has_text(value, text),
        _ => false,
    }
}

/// Whether the value's text is that one.
fn has_text(value: &Value, text: &[u8]) -> bool
    ensures { result ≡ bytes_eq (spec.value_text value.now) text.now }
{
    match value {
        Value::Flag(flag) => flag_word(*flag).as_bytes() == text,
        Value::Int(number) => is_decimal(*number, text),
        Value::Text(own) => own.as_bytes() == text,
        Value::Ident(id) => print_id(*id).as_slice() == text,
    }
}

fn flag_word(flag: bool) -> &'static str
    ensures { result.now ≡ spec.flag_text flag }
{
    if flag { "true" } else { "false" }
}

/// Whether the text is the number's, in decimal.
fn is_decimal(number: i64, text: &[u8]) -> bool
    ensures { result ≡ bytes_eq (spec.decimal_text number) text.now }
{
    let mut buffer = Buffer::new();
    buffer.format(number).as_bytes() == text
}

#[tactic(auto, using(crate::proofs::FieldNumbers::numbers))]
fn is_in_range(row: &Row, parent: Option<&Row>, node: &Row) -> bool
    ensures { result ≡ spec.is_in_range row.now (option_copied parent.entry) node.now }
{
    if !names_number(node) {
        return false;
    }
    match looked_at(row, parent, node) {
        Some(Value::Int(number)) => lies(int_at(node, LOW), int_at(node, HIGH), *number),
        _ => false,
    }
}

/// Whether the filter names a number that may lie in a range.
#[tactic(auto, using(crate::proofs::FieldNumbers::numbers))]
fn names_number(node: &Row) -> bool
    ensures { result ≡ spec.names_number node.now }
{
    is_text_at(node, FIELD, "gross".as_bytes())
        || is_text_at(node, FIELD, "net".as_bytes())
        || is_text_at(node, FIELD, "weight".as_bytes())
}

#[tactic(auto, using(crate::proofs::FieldNumbers::numbers))]
fn is_in_category(categories: &[u128], node: &Row) -> bool
    ensures { result ≡ spec.is_in_category categories.now node.now }
{
    match id_at(node, CATEGORY) {
        Some(id) => categories.contains(&id),
        None => false,
    }
}
