//! What offers take off an amount, one after the other.
ghost use Rattle.std.specs.Prelude.{◌≡◌, ◌≤◌, ◌<◌, ◌*◌, length, min, pos, IfOk, OnErr};
ghost use Rattle.std.specs.List.{fold};
ghost use Rattle.cart_price.specs.Nearest.{half_up};
ghost use Rattle.cart_sums.specs.Taxes.{most};
ghost use Rattle.cart_sums.specs.Discounts as spec;

use cart_price::Discount;
use shop_defs::{List, NoMemory};
use std::alloc::Global;

/// How many discounts are taken at most.
const MOST_DISCOUNTS: usize = 50;

/// By how much an offer lowers an amount.
#[derive(Drop, Clone, Copy)]
pub enum Reduction {
    /// By that many minor units.
    Amount(u64),
    /// By that part, in hundredths of a percent.
    Percent(u64),
}

/// What a promotion offers to take off.
#[derive(Drop, Clone, Copy)]
pub struct Offer {
    /// The id of the promotion.
    pub promotion: u128,
    /// The id of its discount.
    pub discount: u128,
    /// By how much it lowers an amount.
    pub reduction: Reduction,
}

/// What is left of an amount, and what was taken off it.
#[derive(Drop)]
pub struct Taken {
    /// What is left, in minor units.
    pub left: u64,
    /// What was taken off, in the order in which it was.
    pub discounts: List<Discount>,
}

/// What the offers take off an amount of up to 2 · 10^18 minor units, each of what the ones before it
/// left. One that takes nothing off is left out, and after the 50th no more are taken. Want of memory
/// is the only error.
pub fn take_all(alloc: Global, left: u64, offers: &[Offer]) -> Result<Taken, NoMemory>
    requires { left ≤ most }
    ensures value { IfOk result (λ taken. taken ≡ spec.take_all left offers.now) }
    // Each discount is above 0, there are at most 50, and with what is left they are what was there.
    ensures within { IfOk result (spec.IsTakenOff left) }
    // Where nothing is taken off no memory is wanted.
    ensures wanted { OnErr result (0 < length (spec.take_all left offers.now).discounts) }
{
    let mut taken = Taken {
        left,
        discounts: List::new(alloc),
    };
    let mut rest = offers;
    while let [offer, more @ ..] = rest {
        taken = take_off(taken, offer)?;
        rest = more;
    }
    Ok(taken)
}

/// The same with one offer more.
#[tactic(auto, unfolding(crate::specs::Discounts::take_off))]
fn take_off(taken: Taken, offer: &Offer) -> Result<Taken, NoMemory>
    requires left { taken.left ≤ most }
    ensures value { IfOk result (λ after. after ≡ spec.take_off taken offer.now) }
    ensures left { IfOk result (λ after. after.left ≤ taken.left) }
    ensures wanted { OnErr result (0 < length (spec.take_off taken offer.now).discounts) }
{
    let amount = taken_off(&offer.reduction, taken.left);
    if amount == 0 || MOST_DISCOUNTS <= taken.discounts.len() {
        return Ok(taken);
    }
    let Taken {
        left,
        mut discounts,
    } = taken;
    discounts.push(discount_of(offer, amount))?;
    Ok(Taken {
        left: left - amount,
        discounts,
    })
}

fn discount_of(offer: &Offer, amount: u64) -> Discount
    requires { amount ≤ most }
    ensures { result ≡ spec.discount_of offer.now amount }
{
    Discount {
        amount: amount as i64,
        discount: offer.discount,
        promotion: offer.promotion,
    }
}

/// By how much an amount is lowered: by no more than all of it.
pub(crate) fn taken_off(reduction: &Reduction, left: u64) -> u64
    requires left { left ≤ most }
    ensures value { result ≡ spec.taken_off reduction.now left }
    ensures bound { result ≤ left }
{
    match reduction {
        Reduction::Amount(value) => left.min(*value),
        Reduction::Percent(value) => left_or_part(left, *value),
    }
}

/// So many hundredths of a percent of an amount, a half up, and no more than all of it. The product of
/// the two doesn't fit 64 bits.
fn left_or_part(left: u64, value: u64) -> u64
    requires left { left ≤ most }
    ensures value { result ≡ min left (half_up (left * value) 10000) }
    ensures bound { result ≤ left }
{
    let product = u128::from(left) * u128::from(value);
    u128::from(left).min((2 * product + 10_000) / 20_000) as u64
}
