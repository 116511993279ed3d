//! The delivery of a cart, and what promotions take off it.
ghost use Rattle.std.specs.Prelude.{◌≡◌, ◌≤◌, ◌^◌, IfOk, IfSome};
ghost use Rattle.cart_price.specs.Lent.{cart_rows};
ghost use Rattle.cart_process.specs.Kept.{IsCartKept, ShippedFits};
ghost use Rattle.cart_process.specs.Fitting.{SendingFits};
ghost use Rattle.cart_process.specs.Priced as spec;

use crate::deliveries::{Measures, Shipped, cause_of, shipped_of, shipping_price};
use crate::line_price::Cause;
use crate::offers::offers;
use cart_price::{CartData, TaxState};
use cart_sums::{Taken, take_all};
use shop_defs::NoMemory;
use std::alloc::Global;

/// The delivery of a cart.
#[derive(Drop)]
pub(crate) struct Sending {
    /// What keeps it from being ordered.
    pub(crate) cause: Option<Cause>,
    /// What it costs: none where there are no pieces, or where something keeps it from being ordered.
    pub(crate) shipped: Option<Shipped>,
    /// What promotions take off that, and what is left.
    pub(crate) taken: Taken,
}

/// The delivery of so many pieces, by the rules that hold, and what promotions take off it. Want of
/// memory is the only error.
pub(crate) fn sending_of(
    alloc: Global,
    state: TaxState,
    moment: i64,
    rules: &[u128],
    lent: &CartData<'_>,
    measures: &Measures,
) -> Result<Sending, NoMemory>
    requires kept { IsCartKept (cart_rows lent.now) }
    requires count { measures.now.count ≤ 10 ^ 6 }
    requires goods { measures.now.goods ≤ 10 ^ 18 }
    requires weight { measures.now.weight ≤ 10 ^ 15 }
    ensures value { IfOk result (λ sending. sending ≡ spec.sending_of state moment rules.now (cart_rows lent.now) measures.now) }
    ensures fits { IfOk result SendingFits }
{
    let price = shipping_price(rules, measures, lent.shipping.as_slice());
    let cause = cause_of(rules, measures, lent.method, price);
    let shipped = shipped_of(state, lent.method_tax, measures, cause, price);
    let offers = offers(alloc, lent, moment, rules, b"delivery")?;
    let taken = take_all(alloc, cost_of(shipped), offers.as_slice())?;
    Ok(Sending {
        cause,
        shipped,
        taken,
    })
}

fn cost_of(shipped: Option<Shipped>) -> u64
    requires { IfSome shipped ShippedFits }
    ensures value { result ≡ spec.cost_of shipped }
    ensures bound { result ≤ 10 ^ 12 }
{
    match shipped {
        Some(shipped) => shipped.cost,
        None => 0,
    }
}
