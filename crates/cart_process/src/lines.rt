//! What a line of a cart costs, step by step.
ghost use Rattle.std.specs.Prelude.{◌≡◌, ◌≤◌, ◌^◌, IfSome, is_some};
ghost use Rattle.std.specs.Option.{option_copied};
ghost use Rattle.shop_defs.specs.declared.entity.Entity.TheVariants as E;
ghost use Rattle.row_fields.specs.Checked.{IsRowOf};
ghost use Rattle.cart_price.specs.Lent.{lent_rows, line_rows};
ghost use Rattle.cart_process.specs.Kept.{IsLineKept, IsRowIfAny};
ghost use Rattle.cart_process.specs.LinePrices as spec;
ghost use Rattle.cart_process.specs.Units as units;

use crate::line_price::{Cause, LinePrice};
use crate::numbers::{
    LINE_QUANTITY, PRODUCT_ACTIVE, PRODUCT_MAX, PRODUCT_MIN, PRODUCT_WEIGHT, TAX_RATE,
};
use crate::units::unit_of;
use crate::words::{count_at, effective_count, or_nothing};
use cart_price::{LentLine, TaxState};
use row_fields::is_set;
use shop_defs::Row;

/// What a line of a cart costs, by the rules that hold.
#[tactic(auto, unfolding(crate::specs::LinePrices::line_price))]
pub(crate) fn line_price(state: TaxState, rules: &[u128], lent: &LentLine<'_>) -> LinePrice
    requires { IsLineKept (line_rows lent.now) }
    ensures { result ≡ spec.line_price state rules.now (line_rows lent.now) }
{
    match lent.product {
        Some(product) => price_of(state, rules, lent, product),
        None => without_price(Some(Cause::Absent)),
    }
}

/// What a line costs whose product is there.
fn price_of(state: TaxState, rules: &[u128], lent: &LentLine<'_>, product: &Row) -> LinePrice
    requires lent { IsLineKept (line_rows lent.now) }
    requires product { IsRowOf E.Product product.now }
    ensures { result ≡ spec.price_of state rules.now (line_rows lent.now) product.now (spec.quantity_of (line_rows lent.now).line) }
{
    let quantity = quantity_of(lent.line);
    let unit = unit_of(
        state,
        rules,
        quantity,
        lent.prices.as_slice(),
        product,
        lent.parent,
    );
    let cause = cause_of(lent, product, quantity, unit);
    if !has_price(cause) {
        return without_price(cause);
    }
    LinePrice {
        unit: or_nothing(unit),
        rate: rate_of(state, lent.tax),
        pieces: quantity,
        weight: quantity * weight_of(product, lent.parent),
        cause,
    }
}

fn without_price(cause: Option<Cause>) -> LinePrice
    ensures { result ≡ spec.without_price cause }
{
    LinePrice {
        unit: 0,
        rate: 0,
        pieces: 0,
        weight: 0,
        cause,
    }
}

/// How many pieces a line is of.
#[tactic(auto, using(crate::proofs::FieldNumbers::numbers))]
pub(crate) fn quantity_of(line: &Row) -> u64
    requires { IsRowOf E.CartLine line.now }
    ensures value { result ≡ spec.quantity_of line.now }
    ensures bound { result ≤ 10 ^ 4 }
{
    or_nothing(count_at(line, LINE_QUANTITY))
}

/// The weight of a piece in grams.
#[tactic(auto, using(crate::proofs::FieldNumbers::numbers))]
fn weight_of(product: &Row, parent: Option<&Row>) -> u64
    requires product { IsRowOf E.Product product.now }
    requires parent { IsRowIfAny E.Product (option_copied parent) }
    ensures value { result ≡ spec.weight_of product.now (option_copied parent.entry) }
    ensures bound { result ≤ 10 ^ 9 }
{
    or_nothing(effective_count(product, parent, PRODUCT_WEIGHT))
}

/// The tax rate: none in a cart without tax.
pub(crate) fn rate_of(state: TaxState, tax: Option<&Row>) -> u32
    requires { IsRowIfAny E.Tax (option_copied tax) }
    ensures value { result ≡ spec.rate_of state (option_copied tax.entry) }
    ensures bound { result ≤ 10 ^ 4 }
{
    match (state, tax) {
        (TaxState::Free, _) => 0,
        (_, Some(row)) => rate_in(row),
        (_, None) => 0,
    }
}

#[tactic(auto, using(crate::proofs::FieldNumbers::numbers))]
fn rate_in(tax: &Row) -> u32
    requires { IsRowOf E.Tax tax.now }
    ensures value { result ≡ spec.rate_in tax.now }
    ensures bound { result ≤ 10 ^ 4 }
{
    or_nothing(count_at(tax, TAX_RATE)) as u32
}

/// What keeps a line from being ordered, whose product is there: the first that is so.
fn cause_of(lent: &LentLine<'_>, product: &Row, quantity: u64, unit: Option<u64>) -> Option<Cause>
    ensures { result ≡ spec.cause_of (line_rows lent.now) product.now quantity unit }
{
    if !is_active(product, lent.parent) {
        return Some(Cause::Inactive);
    }
    if lent.has_variants {
        return Some(Cause::HasVariants);
    }
    if unit.is_none() {
        return Some(Cause::NoPrice);
    }
    if lent.tax.is_none() {
        return Some(Cause::NoTax);
    }
    if is_below_min(product, lent.parent, quantity) {
        return Some(Cause::BelowMin);
    }
    if is_above_max(product, lent.parent, quantity) {
        return Some(Cause::AboveMax);
    }
    None
}

/// Whether a line has a price: nothing keeps it from being ordered but its quantity.
pub(crate) fn has_price(cause: Option<Cause>) -> bool
    ensures { result ≡ spec.has_price cause }
{
    match cause {
        None | Some(Cause::BelowMin | Cause::AboveMax) => true,
        Some(_) => false,
    }
}

/// Whether the product is active, and its parent too, if it has one.
#[tactic(auto, using(crate::proofs::FieldNumbers::numbers))]
fn is_active(product: &Row, parent: Option<&Row>) -> bool
    ensures { result ≡ spec.is_active product.now (option_copied parent.entry) }
{
    is_set(product, PRODUCT_ACTIVE) && is_active_if_any(parent)
}

#[tactic(auto, using(crate::proofs::FieldNumbers::numbers))]
fn is_active_if_any(parent: Option<&Row>) -> bool
    ensures { result ≡ spec.is_active_if_any (option_copied parent.entry) }
{
    match parent {
        Some(row) => is_set(row, PRODUCT_ACTIVE),
        None => true,
    }
}

/// Whether there are fewer pieces than an order of the product may have.
#[tactic(auto, using(crate::proofs::FieldNumbers::numbers))]
fn is_below_min(product: &Row, parent: Option<&Row>, quantity: u64) -> bool
    ensures { result ≡ spec.is_below_min product.now (option_copied parent.entry) quantity }
{
    match effective_count(product, parent, PRODUCT_MIN) {
        Some(least) => quantity < least,
        None => false,
    }
}

/// Whether there are more.
#[tactic(auto, using(crate::proofs::FieldNumbers::numbers))]
fn is_above_max(product: &Row, parent: Option<&Row>, quantity: u64) -> bool
    ensures { result ≡ spec.is_above_max product.now (option_copied parent.entry) quantity }
{
    match effective_count(product, parent, PRODUCT_MAX) {
        Some(most) => most < quantity,
        None => false,
    }
}
