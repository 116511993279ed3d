//! What the positions at each tax rate come to, one position more at a time.
ghost use Rattle.std.specs.Prelude.{◌≡◌, ◌+◌, ◌≤◌, pos, neg_ℤ, [], ◌∷◌, ◌++◌, sum_by, IfOk, OnErr};
ghost use Rattle.cart_sums.specs.Fits.{AreSums, Fits, Grows, Shrinks};
ghost use Rattle.cart_sums.specs.Taxes.{most};
ghost use Rattle.cart_sums.specs.Positions.{Positions};
ghost use Rattle.cart_sums.specs.Sums.{left_at, plus_of, sums_of};
ghost use Rattle.cart_sums.specs.Sums as spec;

use crate::taxes::tax_on;
use cart_price::TaxState;
use ordered::{Entry, Ordered};
use std::alloc::AllocError;

/// What the positions at one tax rate come to.
///
/// What is added and what is taken off are kept apart, and so are the taxes of each, so that none of
/// these numbers is below 0.
#[derive(Drop, Clone, Copy)]
pub struct RateSum {
    /// The tax rate in hundredths of a percent, up to 10,000.
    pub rate: u32,
    /// The sum of the positions above 0, in minor units.
    pub plus: u64,
    /// The sum of the positions below 0, as a number above 0.
    pub minus: u64,
    /// The sum of the taxes of the positions above 0.
    pub plus_tax: u64,
    /// The sum of the taxes of the positions below 0, as a number above 0.
    pub minus_tax: u64,
}

/// The rates ascend.
impl Entry for RateSum {
    type Key = u32;

    ghost key_of = { λ at. at.rate };

    fn key(&self) -> u32 {
        self.rate
    }
}

/// The sums with one position more: that amount, in minor units, at a rate of up to 10,000. All that
/// is added comes to 2 · 10^18 at most. Want of memory is the only error.
pub fn add_at(
    state: TaxState,
    sums: Ordered<RateSum>,
    rate: u32,
    amount: u64,
) -> Result<Ordered<RateSum>, AllocError>
    requires sums { AreSums sums.list }
    requires rate { rate ≤ 10000 }
    requires room { sum_by plus_of sums.list + amount ≤ most }
    ensures value { IfOk result (λ after. after.list ≡ spec.add_at state sums.list rate amount) }
    ensures grows { IfOk result (λ after. Grows sums.list after.list amount) }
    ensures left { IfOk result (λ after. left_at (spec.sum_at after.list rate) ≡ left_at (spec.sum_at sums.list rate) + amount) }
    ensures positions { IfOk result (λ after. (positions : Positions) → sums.list ≡ sums_of state positions → after.list ≡ sums_of state (positions ++ (rate, pos amount) ∷ [])) }
    // Memory is wanted only for the first position at a rate.
    ensures wanted { OnErr result (spec.IsNew sums.list rate) }
{
    let at = sum_at(&sums, rate);
    let mut after = sums;
    after.put(plus(state, &at, amount))?;
    Ok(after)
}

/// The sums with one position below 0 more: that amount, in minor units, taken off what is left at a
/// rate, and no more than that. Want of memory is the only error.
pub(crate) fn take_at(
    state: TaxState,
    sums: Ordered<RateSum>,
    rate: u32,
    amount: u64,
) -> Result<Ordered<RateSum>, AllocError>
    requires sums { AreSums sums.list }
    requires rate { rate ≤ 10000 }
    requires within { amount ≤ left_at (spec.sum_at sums.list rate) }
    ensures value { IfOk result (λ after. after.list ≡ spec.take_at state sums.list rate amount) }
    ensures shrinks { IfOk result (λ after. Shrinks sums.list after.list amount) }
    ensures left { IfOk result (λ after. left_at (spec.sum_at after.list rate) + amount ≡ left_at (spec.sum_at sums.list rate)) }
    ensures positions { IfOk result (λ after. (positions : Positions) → sums.list ≡ sums_of state positions → after.list ≡ sums_of state (positions ++ (rate, neg_ℤ (pos amount)) ∷ [])) }
    ensures new { IfOk result (λ after. spec.IsNew after.list rate → spec.IsNew sums.list rate) }
    ensures wanted { OnErr result (spec.IsNew sums.list rate) }
{
    let at = sum_at(&sums, rate);
    let mut after = sums;
    after.put(less(state, &at, amount))?;
    Ok(after)
}

/// What the positions at a rate come to: nothing where there is none.
fn sum_at(sums: &Ordered<RateSum>, rate: u32) -> RateSum
    requires sums { AreSums sums.now.list }
    requires rate { rate ≤ 10000 }
    ensures value { result ≡ spec.sum_at sums.now.list rate }
    ensures fits { Fits result }
    ensures part { result.plus ≤ sum_by plus_of sums.now.list }
{
    match sums.get(&rate) {
        Some(at) => *at,
        None => RateSum {
            rate,
            plus: 0,
            minus: 0,
            plus_tax: 0,
            minus_tax: 0,
        },
    }
}

/// The sum with one position of that amount more.
fn plus(state: TaxState, at: &RateSum, amount: u64) -> RateSum
    requires fits { Fits at.now }
    requires room { at.now.plus + amount ≤ most }
    ensures { result ≡ spec.plus state at.now amount }
{
    RateSum {
        plus: at.plus + amount,
        plus_tax: at.plus_tax + tax_on(state, amount, at.rate),
        ..*at
    }
}

/// The sum with one position of that amount below 0 more, which is no more than what is left.
pub(crate) fn less(state: TaxState, at: &RateSum, amount: u64) -> RateSum
    requires fits { Fits at.now }
    requires within { amount ≤ left_at at.now }
    ensures { result ≡ spec.less state at.now amount }
{
    RateSum {
        minus: at.minus + amount,
        minus_tax: at.minus_tax + tax_on(state, amount, at.rate),
        ..*at
    }
}
