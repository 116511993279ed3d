//! The taxes of what a cart comes to.
ghost use Rattle.std.specs.Prelude.{◌≡◌, ◌≤◌, ◌<◌, length, IfOk, OnErr};
ghost use Rattle.std.specs.List.{AllByRecursion};
ghost use Rattle.cart_sums.specs.Fits.{AreSums, AreTaxed, Fits};
ghost use Rattle.cart_sums.specs.Taxes.{most};
ghost use Rattle.cart_sums.specs.Positions.{Positions};
ghost use Rattle.cart_sums.specs.Positions as direct;
ghost use Rattle.cart_sums.specs.Sums.{sums_of};
ghost use Rattle.cart_sums.specs.Sums as spec;

use crate::sums::RateSum;
use crate::taxes::tax_on;
use cart_price::{TaxMode, TaxState, TaxSum};
use ordered::Ordered;
use shop_defs::{List, NoMemory};
use std::alloc::{AllocError, Global};

/// At each rate what its positions come to, and the tax of that, all in minor units. Want of memory is
/// the only error.
pub fn tax_sums(
    alloc: Global,
    state: TaxState,
    mode: TaxMode,
    sums: &Ordered<RateSum>,
) -> Result<List<TaxSum>, NoMemory>
    requires { AreSums sums.now.list }
    ensures value { IfOk result (λ taxes. taxes ≡ spec.tax_sums state mode sums.now.list) }
    // Rates ascend, each tax is from 0 to its amount, and in a vertical cart it is the tax of its amount.
    ensures taxed { IfOk result (AreTaxed state mode sums.now.list) }
    // Without rates no memory is wanted.
    ensures wanted { OnErr result (0 < length sums.now.list) }
    ensures positions { IfOk result (λ taxes. (given : Positions) → sums.now.list ≡ sums_of state given → taxes ≡ direct.tax_sums state mode given) }
{
    let taxes = taxes_of(alloc, state, mode, sums.as_slice())?;
    Ok(List::from_vec(taxes))
}

fn taxes_of(
    alloc: Global,
    state: TaxState,
    mode: TaxMode,
    sums: &[RateSum],
) -> Result<Vec<TaxSum>, AllocError>
    requires { AllByRecursion Fits sums.now }
    ensures value { IfOk result (λ taxes. taxes.items ≡ spec.tax_sums state mode sums.now) }
    ensures wanted { OnErr result (0 < length sums.now) }
{
    let mut taxes = Vec::with_capacity(alloc, sums.len())?;
    let mut rest = sums;
    while let [at, more @ ..] = rest {
        taxes.push(tax_sum(state, mode, at))?;
        rest = more;
    }
    Ok(taxes)
}

/// What the positions at a rate come to, and the tax of that.
fn tax_sum(state: TaxState, mode: TaxMode, at: &RateSum) -> TaxSum
    requires { Fits at.now }
    ensures { result ≡ spec.tax_sum state mode at.now }
{
    TaxSum {
        amount: (at.plus - at.minus) as i64,
        rate: at.rate,
        tax: tax_at(state, mode, at) as i64,
    }
}

/// The tax at a rate: no more than what is left there.
fn tax_at(state: TaxState, mode: TaxMode, at: &RateSum) -> u64
    requires { Fits at.now }
    ensures value { result ≡ spec.tax_at state mode at.now }
    ensures bound { result ≤ most }
{
    let left = at.plus - at.minus;
    match mode {
        TaxMode::Vertical => tax_on(state, left, at.rate),
        TaxMode::Horizontal => at.plus_tax.saturating_sub(at.minus_tax).min(left),
    }
}
