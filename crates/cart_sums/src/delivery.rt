//! Discounts on a delivery: each is taken off at the delivery's tax rate.
ghost use Rattle.std.specs.Prelude.{◌≡◌, ◌≤◌, ◌++◌, IfOk, OnErr};
ghost use Rattle.cart_sums.specs.Discounts.{total_off};
ghost use Rattle.cart_sums.specs.Fits.{AreSums, Shrinks};
ghost use Rattle.cart_sums.specs.Positions.{Positions, taken_at};
ghost use Rattle.cart_sums.specs.Sums.{left_at, sum_at, sums_of};
ghost use Rattle.cart_sums.specs.Sums as spec;

use crate::sums::{RateSum, take_at};
use cart_price::{Discount, TaxState};
use ordered::Ordered;
use std::alloc::AllocError;

/// The sums with each of the discounts taken off at one rate of up to 10,000. Together they are no more
/// than what is left there. Want of memory is the only error.
pub fn take_delivery(
    state: TaxState,
    sums: Ordered<RateSum>,
    rate: u32,
    discounts: &[Discount],
) -> Result<Ordered<RateSum>, AllocError>
    requires sums { AreSums sums.list }
    requires rate { rate ≤ 10000 }
    requires within { total_off discounts.now ≤ left_at (sum_at sums.list rate) }
    ensures value { IfOk result (λ after. after.list ≡ spec.take_delivery state sums.list rate discounts.now) }
    ensures shrinks { IfOk result (λ after. Shrinks sums.list after.list (total_off discounts.now)) }
    // Memory is wanted only for the first position at the rate.
    ensures wanted { OnErr result (spec.IsNew sums.list rate) }
    ensures positions { IfOk result (λ after. (positions : Positions) → sums.list ≡ sums_of state positions → after.list ≡ sums_of state (positions ++ taken_at rate discounts.now)) }
{
    let mut after = sums;
    let mut rest = discounts;
    while let [discount, more @ ..] = rest {
        after = take_at(state, after, rate, discount.amount.unsigned_abs())?;
        rest = more;
    }
    Ok(after)
}
