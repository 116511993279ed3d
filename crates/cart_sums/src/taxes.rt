//! The tax of an amount from 0 on.
ghost use Rattle.std.specs.Prelude.{◌≡◌, ◌≤◌};
ghost use Rattle.cart_sums.specs.Taxes.{most};
ghost use Rattle.cart_sums.specs.Taxes as spec;

use cart_price::{TaxState, tax};

/// The tax of an amount from 0 to 2 · 10^18 minor units, at a rate of up to 10,000. That of the same
/// amount below 0 is as much below 0.
#[tactic(auto, using(crate::proofs::Sizes::sizes))]
pub(crate) fn tax_on(state: TaxState, amount: u64, rate: u32) -> u64
    requires amount { amount ≤ most }
    requires rate { rate ≤ 10000 }
    ensures value { result ≡ spec.tax_on state amount rate }
    ensures bound { result ≤ amount }
{
    tax(state, amount as i64, rate).unsigned_abs()
}
