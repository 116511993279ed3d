//! The delivery of a cart: its cost, or what keeps it from being ordered.
ghost use Rattle.std.specs.Prelude.{◌≡◌, ◌<◌, ◌^◌, filter};
ghost use Rattle.std.specs.List.{list_any};
ghost use Rattle.std.specs.Option.{option_copied};
ghost use Rattle.shop_defs.specs.declared.entity.Entity.TheVariants as E;
ghost use Rattle.cart_price.specs.Lent.{lent_rows};
ghost use Rattle.cart_process.specs.Kept.{IsRowIfAny};
ghost use Rattle.cart_process.specs.Deliveries as spec;

use crate::line_price::Cause;
use crate::lines::rate_of;
use crate::numbers::{
    METHOD_ACTIVE, METHOD_RULE, SHIPPING_BY, SHIPPING_GROSS, SHIPPING_HIGH, SHIPPING_LOW,
    SHIPPING_NET, SHIPPING_RULE,
};
use crate::words::{count_at, meets_rule, names, or_nothing};
use cart_price::TaxState;
use row_fields::{id_at, int_at, is_set, is_text_at, lies};
use shop_defs::Row;

/// What a price of delivery goes by.
#[derive(Drop, Clone, Copy)]
pub(crate) struct Measures {
    /// How many pieces there are.
    pub(crate) count: u64,
    /// What they cost, in minor units.
    pub(crate) goods: u64,
    /// What they weigh, in grams.
    pub(crate) weight: u64,
}

/// A delivery that nothing keeps from being ordered.
#[derive(Drop, Clone, Copy)]
pub(crate) struct Shipped {
    /// What it costs, in minor units.
    pub(crate) cost: u64,
    /// The tax rate, in hundredths of a percent.
    pub(crate) rate: u32,
}

/// The price row of the delivery, if one may be used: of the first of the rules that has any, and else
/// one without a rule; of these the one with the highest lower bound.
pub(crate) fn shipping_price<'a>(
    rules: &[u128],
    measures: &Measures,
    prices: &[&'a Row],
) -> Option<&'a Row>
    requires count { measures.now.count < 2 ^ 63 }
    requires goods { measures.now.goods < 2 ^ 63 }
    requires weight { measures.now.weight < 2 ^ 63 }
    ensures { option_copied result ≡ spec.shipping_price rules.now measures.now (lent_rows prices.now) }
{
    let mut rest = rules;
    while let [rule, more @ ..] = rest {
        if has_price_for(rules, measures, *rule, prices) {
            return highest_for(rules, measures, *rule, prices);
        }
        rest = more;
    }
    highest_without_rule(rules, measures, prices)
}

/// Whether a price row for the rule may be used.
fn has_price_for(rules: &[u128], measures: &Measures, rule: u128, prices: &[&Row]) -> bool
    requires count { measures.now.count < 2 ^ 63 }
    requires goods { measures.now.goods < 2 ^ 63 }
    requires weight { measures.now.weight < 2 ^ 63 }
    ensures { result ≡ list_any (spec.is_for rule) (filter (spec.is_usable rules.now measures.now) (lent_rows prices.now)) }
{
    let mut rest = prices;
    while let [row, more @ ..] = rest {
        if is_usable(rules, measures, row) && is_for(rule, row) {
            return true;
        }
        rest = more;
    }
    false
}

/// Of the price rows for the rule that may be used, the one with the highest lower bound.
fn highest_for<'a>(
    rules: &[u128],
    measures: &Measures,
    rule: u128,
    prices: &[&'a Row],
) -> Option<&'a Row>
    requires count { measures.now.count < 2 ^ 63 }
    requires goods { measures.now.goods < 2 ^ 63 }
    requires weight { measures.now.weight < 2 ^ 63 }
    ensures { option_copied result ≡ spec.highest (filter (spec.is_for rule) (filter (spec.is_usable rules.now measures.now) (lent_rows prices.now))) }
{
    let mut best = None;
    for row in prices {
        if is_usable(rules, measures, row) && is_for(rule, row) {
            best = Some(higher(best, row));
        }
    }
    best
}

/// Of the price rows without a rule that may be used, the one with the highest lower bound.
fn highest_without_rule<'a>(
    rules: &[u128],
    measures: &Measures,
    prices: &[&'a Row],
) -> Option<&'a Row>
    requires count { measures.now.count < 2 ^ 63 }
    requires goods { measures.now.goods < 2 ^ 63 }
    requires weight { measures.now.weight < 2 ^ 63 }
    ensures { option_copied result ≡ spec.highest (filter spec.has_no_rule (filter (spec.is_usable rules.now measures.now) (lent_rows prices.now))) }
{
    let mut best = None;
    for row in prices {
        if is_usable(rules, measures, row) && has_no_rule(row) {
            best = Some(higher(best, row));
        }
    }
    best
}

/// Of two rows, the one with the higher lower bound, and of equal ones the earlier.
fn higher<'a>(best: Option<&'a Row>, row: &'a Row) -> &'a Row
    ensures { result.now ≡ spec.higher (option_copied best.entry) row.entry.now }
{
    match best {
        Some(best) if !is_lower(low_of(best), low_of(row)) => best,
        _ => row,
    }
}

#[tactic(auto, using(crate::proofs::FieldNumbers::numbers))]
fn low_of(row: &Row) -> Option<u64>
    ensures { result ≡ spec.low_of row.now }
{
    count_at(row, SHIPPING_LOW)
}

/// Whether the first bound is the lower one, where none is the lowest.
fn is_lower(low: Option<u64>, other: Option<u64>) -> bool
    ensures { result ≡ spec.is_lower low other }
{
    match (low, other) {
        (None, Some(_)) => true,
        (Some(low), Some(other)) => low < other,
        (_, None) => false,
    }
}

#[tactic(auto, using(crate::proofs::FieldNumbers::numbers))]
fn is_for(rule: u128, row: &Row) -> bool
    ensures { result ≡ spec.is_for rule row.now }
{
    names(row, SHIPPING_RULE, rule)
}

#[tactic(auto, using(crate::proofs::FieldNumbers::numbers))]
fn has_no_rule(row: &Row) -> bool
    ensures { result ≡ spec.has_no_rule row.now }
{
    id_at(row, SHIPPING_RULE).is_none()
}

/// Whether the price row may be used: its rule holds, and what it goes by lies between its bounds.
#[tactic(auto, using(crate::proofs::FieldNumbers::numbers))]
fn is_usable(rules: &[u128], measures: &Measures, row: &Row) -> bool
    requires count { measures.now.count < 2 ^ 63 }
    requires goods { measures.now.goods < 2 ^ 63 }
    requires weight { measures.now.weight < 2 ^ 63 }
    ensures { result ≡ spec.is_usable rules.now measures.now row.now }
{
    let measure = measure(measures, row);
    meets_rule(rules, id_at(row, SHIPPING_RULE))
        && lies(
            int_at(row, SHIPPING_LOW),
            int_at(row, SHIPPING_HIGH),
            measure as i64,
        )
}

/// What the price row goes by.
#[tactic(auto, using(crate::proofs::FieldNumbers::numbers))]
fn measure(measures: &Measures, row: &Row) -> u64
    requires count { measures.now.count < 2 ^ 63 }
    requires goods { measures.now.goods < 2 ^ 63 }
    requires weight { measures.now.weight < 2 ^ 63 }
    ensures value { result ≡ spec.measure measures.now row.now }
    ensures bound { result < 2 ^ 63 }
{
    if is_text_at(row, SHIPPING_BY, b"count") {
        return measures.count;
    }
    if is_text_at(row, SHIPPING_BY, b"price") {
        return measures.goods;
    }
    measures.weight
}

/// What keeps the delivery from being ordered, if anything: the first that is so. Nothing does where
/// there are no pieces.
pub(crate) fn cause_of(
    rules: &[u128],
    measures: &Measures,
    method: Option<&Row>,
    price: Option<&Row>,
) -> Option<Cause>
    ensures { result ≡ spec.cause_of rules.now measures.now (option_copied method.entry) (option_copied price.entry) }
{
    if measures.count == 0 {
        return None;
    }
    match method {
        Some(method) => method_cause(rules, method, price),
        None => Some(Cause::NoMethod),
    }
}

#[tactic(auto, using(crate::proofs::FieldNumbers::numbers))]
fn method_cause(rules: &[u128], method: &Row, price: Option<&Row>) -> Option<Cause>
    ensures { result ≡ spec.method_cause rules.now method.now (option_copied price.entry) }
{
    if !is_set(method, METHOD_ACTIVE) {
        return Some(Cause::MethodInactive);
    }
    if !meets_rule(rules, id_at(method, METHOD_RULE)) {
        return Some(Cause::MethodRefused);
    }
    if price.is_none() {
        return Some(Cause::NoShippingPrice);
    }
    None
}

/// The delivery, if there are pieces and nothing keeps it from being ordered.
pub(crate) fn shipped_of(
    state: TaxState,
    tax: Option<&Row>,
    measures: &Measures,
    cause: Option<Cause>,
    price: Option<&Row>,
) -> Option<Shipped>
    requires { IsRowIfAny E.Tax (option_copied tax) }
    ensures { result ≡ spec.shipped_of state (option_copied tax.entry) measures.now cause (option_copied price.entry) }
{
    if measures.count == 0 {
        return None;
    }
    match (cause, price) {
        (None, Some(row)) => Some(Shipped {
            cost: shipping_cost(state, row),
            rate: rate_of(state, tax),
        }),
        _ => None,
    }
}

#[tactic(auto, using(crate::proofs::FieldNumbers::numbers))]
fn shipping_cost(state: TaxState, row: &Row) -> u64
    ensures { result ≡ spec.shipping_cost state row.now }
{
    match state {
        TaxState::Gross => or_nothing(count_at(row, SHIPPING_GROSS)),
        _ => or_nothing(count_at(row, SHIPPING_NET)),
    }
}
