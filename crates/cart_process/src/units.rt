//! The price of one piece of a line.
ghost use Rattle.std.specs.Prelude.{◌≡◌, ◌<◌, ◌≤◌, ◌^◌, filter};
ghost use Rattle.std.specs.List.{list_any};
ghost use Rattle.std.specs.Option.{option_copied};
ghost use Rattle.cart_price.specs.Lent.{lent_rows};
ghost use Rattle.cart_process.specs.Units as spec;

use crate::numbers::{
    PRICE_GROSS, PRICE_HIGH, PRICE_LOW, PRICE_NET, PRICE_RULE, PRODUCT_GROSS, PRODUCT_NET,
};
use crate::words::{count_at, effective_count, names, or_nothing};
use cart_price::TaxState;
use row_fields::{int_at, lies};
use shop_defs::Row;

/// The price of one piece: by the price row that decides, and without one by
/// what counts for the product.
pub(crate) fn unit_of(
    state: TaxState,
    rules: &[u128],
    quantity: u64,
    prices: &[&Row],
    product: &Row,
    parent: Option<&Row>,
) -> Option<u64>
    requires { quantity ≤ 10 ^ 4 }
    ensures { result ≡ spec.unit_by state product.now (option_copied parent.entry) (spec.deciding rules.now quantity (lent_rows prices.now)) }
{
    match deciding(rules, quantity, prices) {
        Some(row) => price_in(state, row),
        None => own_price(state, product, parent),
    }
}

#[tactic(auto, using(crate::proofs::FieldNumbers::numbers))]
fn price_in(state: TaxState, row: &Row) -> Option<u64>
    ensures { result ≡ spec.price_in state row.now }
{
    match state {
        TaxState::Gross => count_at(row, PRICE_GROSS),
        _ => count_at(row, PRICE_NET),
    }
}

#[tactic(auto, using(crate::proofs::FieldNumbers::numbers))]
fn own_price(state: TaxState, product: &Row, parent: Option<&Row>) -> Option<u64>
    ensures { result ≡ spec.own_price state product.now (option_copied parent.entry) }
{
    match state {
        TaxState::Gross => effective_count(product, parent, PRODUCT_GROSS),
        _ => effective_count(product, parent, PRODUCT_NET),
    }
}

/// The price row that decides for so many pieces, if one does.
pub(crate) fn deciding<'a>(rules: &[u128], quantity: u64, prices: &[&'a Row]) -> Option<&'a Row>
    requires { quantity < 2 ^ 63 }
    ensures { option_copied result ≡ spec.deciding rules.now quantity (lent_rows prices.now) }
{
    let mut rest = rules;
    while let [rule, more @ ..] = rest {
        if has_price_for(*rule, prices) {
            return highest(*rule, quantity, prices);
        }
        rest = more;
    }
    None
}

/// Whether there is a price row for the rule.
fn has_price_for(rule: u128, prices: &[&Row]) -> bool
    ensures { result ≡ list_any (spec.is_for rule) (lent_rows prices.now) }
{
    let mut rest = prices;
    while let [row, more @ ..] = rest {
        if is_for(rule, row) {
            return true;
        }
        rest = more;
    }
    false
}

/// Of the price rows for the rule and for so many pieces, the one from the most pieces on.
fn highest<'a>(rule: u128, quantity: u64, prices: &[&'a Row]) -> Option<&'a Row>
    requires { quantity < 2 ^ 63 }
    ensures { option_copied result ≡ spec.highest (filter (spec.takes quantity) (filter (spec.is_for rule) (lent_rows prices.now))) }
{
    let mut best = None;
    for row in prices {
        if is_for(rule, row) && takes(quantity, row) {
            best = Some(higher(best, row));
        }
    }
    best
}

/// Of two rows, the one from more pieces on, and of equal ones the earlier.
fn higher<'a>(best: Option<&'a Row>, row: &'a Row) -> &'a Row
    ensures { result.now ≡ spec.higher (option_copied best.entry) row.entry.now }
{
    match best {
        Some(best) if low_of(row) <= low_of(best) => best,
        _ => row,
    }
}

/// From how many pieces on the price row is.
#[tactic(auto, using(crate::proofs::FieldNumbers::numbers))]
fn low_of(row: &Row) -> u64
    ensures { result ≡ spec.low_of row.now }
{
    or_nothing(count_at(row, PRICE_LOW))
}

/// Whether the price row is for carts that meet the rule.
#[tactic(auto, using(crate::proofs::FieldNumbers::numbers))]
fn is_for(rule: u128, row: &Row) -> bool
    ensures { result ≡ spec.is_for rule row.now }
{
    names(row, PRICE_RULE, rule)
}

/// Whether it is for so many pieces.
#[tactic(auto, using(crate::proofs::FieldNumbers::numbers))]
fn takes(quantity: u64, row: &Row) -> bool
    requires { quantity < 2 ^ 63 }
    ensures { result ≡ spec.takes quantity row.now }
{
    lies(
        int_at(row, PRICE_LOW),
        int_at(row, PRICE_HIGH),
        quantity as i64,
    )
}
