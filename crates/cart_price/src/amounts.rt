//! The tax of an amount, and amounts rounded to an interval.
ghost use Rattle.std.specs.Prelude.{◌≡◌, ◌≤◌, ◌<◌, ◌^◌, ◌*◌, ◌*ℤ◌, pos, IsTrue, ◌↔◌, unsigned_abs};
ghost use Rattle.cart_price.specs.Nearest as spec;

use crate::priced::TaxState;

/// How far from zero an amount may be that is taxed or rounded, in minor units.
const MOST_SIZE: u64 = 4_000_000_000_000_000_000;

/// Whether that many minor units can be taxed and rounded: from -4 · 10^18 to 4 · 10^18.
pub fn is_amount(amount: i64) -> bool
    ensures { IsTrue result ↔ spec.IsAmount amount }
{
    amount.unsigned_abs() <= MOST_SIZE
}

/// The tax of an amount, in minor units.
///
/// The amount is from -4 · 10^18 to 4 · 10^18 minor units and the rate up to 10,000 hundredths of a
/// percent. An amount with tax in it gives its part `rate` of `10,000 + rate`, a net amount its part
/// `rate` of 10,000, and without tax it is 0. What lies between two whole numbers is rounded to the
/// nearer one, a half away from zero. It takes no memory.
#[tactic(auto, using(crate::proofs::Halves::half_is_nearest))]
pub fn tax(state: TaxState, amount: i64, rate: u32) -> i64
    requires amount { spec.IsAmount amount }
    requires rate { rate ≤ 10000 }
    ensures value { result ≡ spec.tax_of state amount rate }
    // No whole number is nearer to the exact tax, and none as near is further from zero.
    ensures nearest { spec.IsNearestTax state amount rate result }
{
    match state {
        TaxState::Gross => half_of(amount, rate, 10_000 + rate),
        TaxState::Net => half_of(amount, rate, 10_000),
        TaxState::Free => 0,
    }
}

/// Whether amounts are rounded to that interval: 1, 5, 10, 50 or 100 minor units.
pub fn is_interval(interval: i64) -> bool
    ensures { result ≡ spec.is_interval interval }
{
    matches!(interval, 1 | 5 | 10 | 50 | 100)
}

/// The multiple of an interval that is nearest to an amount, a half away from zero.
///
/// The amount is from -4 · 10^18 to 4 · 10^18 minor units, the interval 1, 5, 10, 50 or 100. It takes
/// no memory.
pub fn round_to(amount: i64, interval: i64) -> i64
    requires amount { spec.IsAmount amount }
    requires interval { IsTrue (spec.is_interval interval) }
    ensures value { result ≡ spec.rounded amount interval }
    // No multiple is nearer to the amount, and none as near is further from zero.
    ensures nearest { spec.IsWithinHalf (unsigned_abs interval) amount result }
{
    with_sign_of(
        amount,
        round_size(amount.unsigned_abs(), interval.unsigned_abs()),
    )
}

/// The part `rate` of `whole` of an amount, to the nearest whole number.
fn half_of(amount: i64, rate: u32, whole: u32) -> i64
    requires amount { spec.IsAmount amount }
    requires rate { rate ≤ 10000 }
    requires whole { 10000 ≤ whole }
    requires most { whole ≤ 20000 }
    ensures { result ≡ spec.half (amount *ℤ pos rate) whole }
{
    with_sign_of(amount, part_of_size(amount.unsigned_abs(), rate, whole))
}

/// The part `rate` of `whole` of a size, to the nearest whole number, a half up.
fn part_of_size(size: u64, rate: u32, whole: u32) -> u64
    requires size { size ≤ 4 * 10 ^ 18 }
    requires rate { rate ≤ 10000 }
    requires whole { 10000 ≤ whole }
    requires most { whole ≤ 20000 }
    ensures value { result ≡ spec.half_up (size * rate) whole }
    ensures small { result ≤ 4 * 10 ^ 18 }
{
    let product = u128::from(size) * u128::from(rate);
    let whole = u128::from(whole);
    ((2 * product + whole) / (2 * whole)) as u64
}

/// The multiple of an interval that is nearest to a size, a half up.
fn round_size(size: u64, interval: u64) -> u64
    requires size { size ≤ 4 * 10 ^ 18 }
    requires interval { 1 ≤ interval }
    requires most { interval ≤ 100 }
    ensures value { result ≡ spec.half_up size interval * interval }
    ensures small { result < 2 ^ 63 }
{
    (2 * size + interval) / (2 * interval) * interval
}

/// The number of that size with the sign of the amount.
fn with_sign_of(amount: i64, size: u64) -> i64
    requires { size < 2 ^ 63 }
    ensures { result ≡ spec.with_sign_of amount size }
{
    if amount < 0 {
        -(size as i64)
    } else {
        size as i64
    }
}
