//! What promotions offer to take off.
ghost use Rattle.std.specs.Prelude.{◌≡◌, ◌++◌, map, IfOk};
ghost use Rattle.std.specs.List.{list_any};
ghost use Rattle.std.specs.Option.{option_copied};
ghost use Rattle.cart_price.specs.Lent.{lent_rows, promotion_rows};
ghost use Rattle.cart_process.specs.Offers as spec;

use crate::numbers::{
    CODE_TEXT, DISCOUNT_KIND, DISCOUNT_SCOPE, DISCOUNT_VALUE, PROMOTION_ACTIVE, PROMOTION_CODE,
    PROMOTION_FROM, PROMOTION_RULE, PROMOTION_UNTIL,
};
use crate::words::{count_at, meets_rule, or_nothing};
use cart_price::{CartData, LentPromotion};
use cart_sums::{Offer, Reduction};
use row_fields::{id_at, int_at, is_set, is_text_at, text_at};
use shop_defs::Row;
use std::alloc::{AllocError, Global};

/// What the promotions that count offer of a scope, in their order. Want of memory is the only error.
pub(crate) fn offers(
    alloc: Global,
    lent: &CartData<'_>,
    moment: i64,
    rules: &[u128],
    scope: &[u8],
) -> Result<Vec<Offer>, AllocError>
    ensures { IfOk result (λ found. found.items ≡ spec.offers moment (lent_rows lent.now.codes) rules.now scope.now (map promotion_rows lent.now.promotions)) }
{
    let mut found = Vec::new(alloc);
    let mut rest = lent.promotions.as_slice();
    while let [promotion, more @ ..] = rest {
        found = with_promotion(
            found,
            lent.codes.as_slice(),
            moment,
            rules,
            scope,
            promotion,
        )?;
        rest = more;
    }
    Ok(found)
}

/// The offers with those of one promotion more, if it counts.
fn with_promotion(
    found: Vec<Offer>,
    codes: &[&Row],
    moment: i64,
    rules: &[u128],
    scope: &[u8],
    lent: &LentPromotion<'_>,
) -> Result<Vec<Offer>, AllocError>
    ensures { IfOk result (λ after. after.items ≡ found.items ++ spec.offers_of moment (lent_rows codes.now) rules.now scope.now (promotion_rows lent.now)) }
{
    if !counts(codes, moment, rules, lent.promotion) {
        return Ok(found);
    }
    with_discounts(found, scope, lent.promotion, lent.discounts.as_slice())
}

/// Whether a promotion counts: it is active, its code is given, the moment is one of its moments, and
/// its rule holds.
#[tactic(auto, using(crate::proofs::FieldNumbers::numbers))]
fn counts(codes: &[&Row], moment: i64, rules: &[u128], promotion: &Row) -> bool
    ensures { result ≡ spec.counts moment (lent_rows codes.now) rules.now promotion.now }
{
    is_set(promotion, PROMOTION_ACTIVE)
        && is_given(codes, text_at(promotion, PROMOTION_CODE))
        && has_begun(moment, promotion)
        && goes_on(moment, promotion)
        && meets_rule(rules, id_at(promotion, PROMOTION_RULE))
}

/// Whether a code is given, if there is one.
fn is_given(codes: &[&Row], code: Option<&[u8]>) -> bool
    ensures { result ≡ spec.is_given (lent_rows codes.now) (option_copied code.entry) }
{
    match code {
        Some(text) => is_among(codes, text),
        None => true,
    }
}

fn is_among(codes: &[&Row], text: &[u8]) -> bool
    ensures { result ≡ spec.is_given_text (lent_rows codes.now) text.now }
{
    let mut rest = codes;
    while let [code, more @ ..] = rest {
        if has_code(code, text) {
            return true;
        }
        rest = more;
    }
    false
}

#[tactic(auto, using(crate::proofs::FieldNumbers::numbers))]
fn has_code(code: &Row, text: &[u8]) -> bool
    ensures { result ≡ spec.has_code text.now code.now }
{
    is_text_at(code, CODE_TEXT, text)
}

#[tactic(auto, using(crate::proofs::FieldNumbers::numbers))]
fn has_begun(moment: i64, promotion: &Row) -> bool
    ensures { result ≡ spec.has_begun moment promotion.now }
{
    match int_at(promotion, PROMOTION_FROM) {
        Some(from) => from <= moment,
        None => true,
    }
}

#[tactic(auto, using(crate::proofs::FieldNumbers::numbers))]
fn goes_on(moment: i64, promotion: &Row) -> bool
    ensures { result ≡ spec.goes_on moment promotion.now }
{
    match int_at(promotion, PROMOTION_UNTIL) {
        Some(until) => moment < until,
        None => true,
    }
}

/// The offers with the discounts of a promotion that are of the scope.
fn with_discounts(
    found: Vec<Offer>,
    scope: &[u8],
    promotion: &Row,
    discounts: &[&Row],
) -> Result<Vec<Offer>, AllocError>
    ensures { IfOk result (λ after. after.items ≡ found.items ++ spec.all_in scope.now promotion.now (lent_rows discounts.now)) }
{
    let mut after = found;
    let mut rest = discounts;
    while let [discount, more @ ..] = rest {
        after = with_discount(after, scope, promotion, discount)?;
        rest = more;
    }
    Ok(after)
}

#[tactic(auto, using(crate::proofs::FieldNumbers::numbers))]
fn with_discount(
    found: Vec<Offer>,
    scope: &[u8],
    promotion: &Row,
    discount: &Row,
) -> Result<Vec<Offer>, AllocError>
    ensures { IfOk result (λ after. after.items ≡ found.items ++ spec.offers_in scope.now promotion.now discount.now) }
{
    if !is_text_at(discount, DISCOUNT_SCOPE, scope) {
        return Ok(found);
    }
    let mut after = found;
    after.push(Offer {
        promotion: promotion.key.id,
        discount: discount.key.id,
        reduction: reduction_of(discount),
    })?;
    Ok(after)
}

/// What a discount lowers an amount by.
#[tactic(auto, using(crate::proofs::FieldNumbers::numbers))]
fn reduction_of(discount: &Row) -> Reduction
    ensures { result ≡ spec.reduction_of discount.now }
{
    let value = or_nothing(count_at(discount, DISCOUNT_VALUE));
    if is_text_at(discount, DISCOUNT_KIND, b"percent") {
        Reduction::Percent(value)
    } else {
        Reduction::Amount(value)
    }
}
