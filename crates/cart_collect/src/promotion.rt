//! Promotions with their discounts.
ghost use Rattle.std.specs.Prelude.{◌≡◌, map, IfOk};
ghost use Rattle.cart_price.specs.Lent.{lent_rows, promotion_rows};
ghost use Rattle.cart_collect.specs.Collected as spec;

use crate::finding::{in_order, referring_rows};
use cart_price::LentPromotion;
use shop_defs::{Entity, List, NoMemory, Row};
use shop_rows::Rows;
use std::alloc::Global;

/// The promotions with their discounts. Want of memory is the only error.
pub(crate) fn lent_promotions<'a>(
    alloc: Global,
    rows: &'a Rows,
    promotions: &[&'a Row],
) -> Result<List<LentPromotion<'a>>, NoMemory>
    ensures { IfOk result (λ lent. map promotion_rows lent ≡ map (spec.promotion_of rows.entry.now.list) (lent_rows promotions.now)) }
{
    let mut lent = Vec::with_capacity(alloc, promotions.len())?;
    let mut rest = promotions;
    while let [promotion, more @ ..] = rest {
        lent.push(lent_promotion(alloc, rows, promotion)?)?;
        rest = more;
    }
    Ok(List::from_vec(lent))
}

#[tactic(auto, using(crate::proofs::Naming::found))]
fn lent_promotion<'a>(
    alloc: Global,
    rows: &'a Rows,
    promotion: &'a Row,
) -> Result<LentPromotion<'a>, NoMemory>
    ensures { IfOk result (λ lent. promotion_rows lent ≡ spec.promotion_of rows.entry.now.list promotion.entry.now) }
{
    in_order(rows);
    let discounts = referring_rows(
        alloc,
        rows,
        Entity::PromotionDiscount,
        Entity::Promotion,
        promotion.key.id,
    )?;
    Ok(LentPromotion {
        promotion,
        discounts,
    })
}
