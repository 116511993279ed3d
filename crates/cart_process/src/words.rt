//! What the rows of a cart say, in the words of its prices.
ghost use Rattle.std.specs.Prelude.{◌≡◌, ◌==◌};
ghost use Rattle.std.specs.List.{list_any};
ghost use Rattle.std.specs.Option.{option_copied};
ghost use Rattle.cart_process.specs.Words as spec;

use crate::numbers::{CART_TAX_MODE, CART_TAX_STATE};
use cart_price::{TaxMode, TaxState};
use row_fields::{id_at, int_at, is_text_at};
use shop_chain::effective;
use shop_defs::{Row, Value};

/// Which prices a cart has.
#[tactic(auto, using(crate::proofs::FieldNumbers::numbers))]
pub(crate) fn state_of(cart: &Row) -> TaxState
    ensures { result ≡ spec.state_of cart.now }
{
    if is_text_at(cart, CART_TAX_STATE, b"net") {
        return TaxState::Net;
    }
    if is_text_at(cart, CART_TAX_STATE, b"free") {
        return TaxState::Free;
    }
    TaxState::Gross
}

/// How the tax of a cart is summed up.
#[tactic(auto, using(crate::proofs::FieldNumbers::numbers))]
pub(crate) fn mode_of(cart: &Row) -> TaxMode
    ensures { result ≡ spec.mode_of cart.now }
{
    if is_text_at(cart, CART_TAX_MODE, b"vertical") {
        TaxMode::Vertical
    } else {
        TaxMode::Horizontal
    }
}

/// The number, where it is none below 0.
fn natural(number: i64) -> Option<u64>
    ensures { result ≡ spec.natural number }
{
    if number < 0 {
        None
    } else {
        Some(number as u64)
    }
}

/// The amount or the count that a field holds.
pub(crate) fn count_at(row: &Row, field: u8) -> Option<u64>
    ensures { result ≡ spec.count_at row.now field }
{
    match int_at(row, field) {
        Some(number) => natural(number),
        None => None,
    }
}

/// The number, or 0 where it is missing.
pub(crate) fn or_nothing(number: Option<u64>) -> u64
    ensures { result ≡ spec.or_nothing number }
{
    match number {
        Some(number) => number,
        None => 0,
    }
}

/// The amount or the count that counts for a field of a product.
pub(crate) fn effective_count(own: &Row, parent: Option<&Row>, field: u8) -> Option<u64>
    ensures { result ≡ spec.effective_count own.now (option_copied parent.entry) field }
{
    match effective(own, parent, field) {
        Some(Value::Int(number)) => natural(*number),
        _ => None,
    }
}

/// Whether the field holds that id.
pub(crate) fn names(row: &Row, field: u8, id: u128) -> bool
    ensures { result ≡ spec.names row.now field id }
{
    match id_at(row, field) {
        Some(held) => held == id,
        None => false,
    }
}

/// Whether a rule holds that is given.
pub(crate) fn meets_rule(rules: &[u128], rule: Option<u128>) -> bool
    ensures { result ≡ spec.meets_rule rules.now rule }
{
    match rule {
        Some(id) => is_among(rules, id),
        None => true,
    }
}

fn is_among(rules: &[u128], id: u128) -> bool
    ensures { result ≡ list_any (λ other. other == id) rules.now }
{
    let mut rest = rules;
    while let [other, more @ ..] = rest {
        if *other == id {
            return true;
        }
        rest = more;
    }
    false
}
