//! What the parts of a cart are called.
ghost use Rattle.std.specs.Prelude.{◌≡◌, ◌++◌, map, option_and_then, IfOk};
ghost use Rattle.std.specs.Option.{option_copied};
ghost use Rattle.shop_defs.specs.declared.entity.Entity.TheVariants as E;
ghost use Rattle.shop_defs.specs.declared.words.FieldName.TheVariants as N;
ghost use Rattle.row_fields.specs.Fields.{number_of, text_at};
ghost use Rattle.cart_price.specs.Lent.{cart_rows, line_rows, promotion_rows};
ghost use Rattle.cart_loop.specs.Labels as spec;

use crate::facts::text_in;
use crate::numbers::{METHOD_NAME, PRODUCT_NUMBER, PROMOTION_NAME};
use cart_price::{CartData, Delivery, Discount, LentLine, LentPromotion, PricedCart};
use shop_defs::{Copied, List, NoMemory, Row, Txt};
use std::alloc::Global;

/// What the parts of a cart are called: the lines, the discounts, the delivery, and the discounts on
/// it. Want of memory is the only error.
pub(crate) fn labels_of(
    alloc: Global,
    lent: &CartData<'_>,
    cart: &PricedCart,
) -> Result<List<Txt>, NoMemory>
    ensures { IfOk result (λ labels. labels ≡ spec.labels (cart_rows lent.now) cart.now) }
{
    let promotions = lent.promotions.as_slice();
    let labels = line_labels(alloc, lent.lines.as_slice())?;
    let labels = with_discounts(alloc, labels, promotions, cart.discounts.as_slice())?;
    let labels = with_delivery(alloc, labels, lent.method, &cart.delivery)?;
    with_discounts(
        alloc,
        labels,
        promotions,
        cart.delivery_discounts.as_slice(),
    )
}

fn line_labels(alloc: Global, lines: &[LentLine<'_>]) -> Result<List<Txt>, NoMemory>
    ensures { IfOk result (λ labels. labels ≡ map spec.line_label (map line_rows lines.now)) }
{
    let mut labels = List::new(alloc);
    let mut rest = lines;
    while let [line, more @ ..] = rest {
        labels.push(line_label(alloc, line)?)?;
        rest = more;
    }
    Ok(labels)
}

#[tactic(auto, using(crate::proofs::FieldNumbers::numbers))]
fn line_label(alloc: Global, line: &LentLine<'_>) -> Result<Txt, NoMemory>
    ensures { IfOk result (λ label. label ≡ spec.line_label (line_rows line.now)) }
{
    match (line.name, line.product) {
        (Some(name), _) => Ok(Txt::from_string(String::from_utf8_lossy(alloc, name)?)),
        (None, Some(product)) => or_dash(alloc, text_in(product, PRODUCT_NUMBER)),
        (None, None) => or_dash(alloc, None),
    }
}

/// A text, and where there is none a dash.
fn or_dash(alloc: Global, text: Option<&Txt>) -> Result<Txt, NoMemory>
    ensures { IfOk result (λ label. label ≡ spec.or_dash (option_copied text.entry)) }
{
    match text {
        Some(text) => text.copy(alloc),
        None => Txt::from_str(alloc, "-"),
    }
}

/// The labels with those of the discounts, each its promotion's name.
fn with_discounts(
    alloc: Global,
    labels: List<Txt>,
    promotions: &[LentPromotion<'_>],
    discounts: &[Discount],
) -> Result<List<Txt>, NoMemory>
    ensures { IfOk result (λ after. after ≡ labels ++ map (spec.discount_label (map promotion_rows promotions.now)) discounts.now) }
{
    let mut after = labels;
    let mut rest = discounts;
    while let [discount, more @ ..] = rest {
        after.push(or_dash(alloc, name_in(promotions, discount.promotion))?)?;
        rest = more;
    }
    Ok(after)
}

/// The name of the promotion with that id.
#[tactic(auto, using(crate::proofs::FieldNumbers::numbers))]
fn name_in<'a>(promotions: &[LentPromotion<'a>], id: u128) -> Option<&'a Txt>
    ensures { option_copied result ≡ spec.name_in (map promotion_rows promotions.now) id }
{
    let mut rest = promotions;
    while let [promotion, more @ ..] = rest {
        if promotion.promotion.key.id == id {
            return text_in(promotion.promotion, PROMOTION_NAME);
        }
        rest = more;
    }
    None
}

/// The labels with the delivery's, if there is one: its method's name.
fn with_delivery(
    alloc: Global,
    labels: List<Txt>,
    method: Option<&Row>,
    delivery: &Option<Delivery>,
) -> Result<List<Txt>, NoMemory>
    ensures { IfOk result (λ after. after ≡ labels ++ spec.delivery_labels (option_copied method.entry) delivery.now) }
{
    if delivery.is_none() {
        return Ok(labels);
    }
    let mut after = labels;
    after.push(or_dash(alloc, method_name(method))?)?;
    Ok(after)
}

#[tactic(auto, using(crate::proofs::FieldNumbers::numbers))]
fn method_name(method: Option<&Row>) -> Option<&Txt>
    ensures { option_copied result ≡ option_and_then (λ row. text_at row (number_of E.ShippingMethod N.Name)) (option_copied method.entry) }
{
    match method {
        Some(method) => text_in(method, METHOD_NAME),
        None => None,
    }
}
