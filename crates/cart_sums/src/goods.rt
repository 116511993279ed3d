//! Discounts on goods: each is shared among the tax rates by what is left at each.
ghost use Rattle.std.specs.Prelude.{◌≡◌, ◌≤◌, ◌<◌, length, sum_by, IfOk, OnErr};
ghost use Rattle.std.specs.List.{AllByRecursion, AllZip};
ghost use Rattle.cart_price.specs.LargestRemainder.{IsPartOf};
ghost use Rattle.cart_sums.specs.Discounts.{total_off};
ghost use Rattle.cart_sums.specs.Fits.{AreSums, Fits, Shrinks};
ghost use Rattle.cart_sums.specs.Positions.{Positions, goods_less};
ghost use Rattle.cart_sums.specs.Sums.{bases, bear_less, left_at, sums_of};
ghost use Rattle.cart_sums.specs.Sums as spec;

use crate::sums::{RateSum, less};
use cart_price::{Discount, TaxState, share};
use ordered::Ordered;
use shop_defs::NoMemory;
use std::alloc::{AllocError, Global};

/// The sums with the discounts taken off: each one is shared among the rates by what the ones before
/// it left at each. Together they are no more than what is left. Want of memory is the only error.
pub fn take_goods(
    alloc: Global,
    state: TaxState,
    sums: Ordered<RateSum>,
    discounts: &[Discount],
) -> Result<Ordered<RateSum>, NoMemory>
    requires sums { AreSums sums.list }
    requires within { total_off discounts.now ≤ sum_by left_at sums.list }
    ensures value { IfOk result (λ after. after.list ≡ spec.take_goods state sums.list discounts.now) }
    ensures shrinks { IfOk result (λ after. Shrinks sums.list after.list (total_off discounts.now)) }
    // Without discounts, and without rates, no memory is wanted.
    ensures wanted { OnErr result ((0 < length discounts.now) × (0 < length sums.list)) }
    ensures positions { IfOk result (λ after. (positions : Positions) → sums.list ≡ sums_of state positions → after.list ≡ sums_of state (goods_less positions discounts.now)) }
{
    let mut after = sums;
    let mut rest = discounts;
    while let [discount, more @ ..] = rest {
        after = take_shared(alloc, state, &after, discount.amount.unsigned_abs())?;
        rest = more;
    }
    Ok(after)
}

/// The sums with an amount taken off that is shared among the rates.
fn take_shared(
    alloc: Global,
    state: TaxState,
    sums: &Ordered<RateSum>,
    amount: u64,
) -> Result<Ordered<RateSum>, NoMemory>
    requires sums { AreSums sums.now.list }
    requires within { amount ≤ sum_by left_at sums.now.list }
    ensures value { IfOk result (λ after. after.list ≡ spec.take_shared state sums.now.list amount) }
    ensures shrinks { IfOk result (λ after. Shrinks sums.now.list after.list amount) }
    ensures length { IfOk result (λ after. length after.list ≡ length sums.now.list) }
    ensures wanted { OnErr result (0 < length sums.now.list) }
{
    let bases = bases_of(alloc, sums.as_slice())?;
    let parts = share(alloc, amount as i64, bases.as_slice())?;
    let after = all_less(alloc, state, sums.as_slice(), parts.as_slice())?;
    Ok(Ordered::from_ascending(after))
}

/// What is left at each rate.
fn bases_of(alloc: Global, sums: &[RateSum]) -> Result<Vec<(u32, i64)>, AllocError>
    requires { AllByRecursion Fits sums.now }
    ensures bases { IfOk result (λ found. found.items ≡ bases sums.now) }
    ensures wanted { OnErr result (0 < length sums.now) }
{
    let mut found = Vec::with_capacity(alloc, sums.len())?;
    let mut rest = sums;
    while let [at, more @ ..] = rest {
        found.push((at.rate, (at.plus - at.minus) as i64))?;
        rest = more;
    }
    Ok(found)
}

/// The sums with one part of a discount taken off at each rate, in their order.
fn all_less(
    alloc: Global,
    state: TaxState,
    sums: &[RateSum],
    parts: &[(u32, i64)],
) -> Result<Vec<RateSum>, AllocError>
    requires fit { AllByRecursion Fits sums.now }
    requires parts { AllZip IsPartOf parts.now (bases sums.now) }
    ensures less { IfOk result (λ found. found.items ≡ bear_less state sums.now parts.now) }
    ensures wanted { OnErr result (0 < length sums.now) }
{
    let mut found = Vec::with_capacity(alloc, sums.len())?;
    let mut at = sums;
    let mut part = parts;
    while let ([sum, more @ ..], [first, rest @ ..]) = (at, part) {
        found.push(less(state, sum, first.1.unsigned_abs()))?;
        at = more;
        part = rest;
    }
    Ok(found)
}
