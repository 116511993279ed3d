//! What no clause says: carts that are worked by hand, and that each call succeeds where memory is ample.

use crate::delivery::take_delivery;
use crate::discounts::{Offer, Reduction, take_all};
use crate::goods::take_goods;
use crate::sums::add_at;
use crate::taxed::tax_sums;
use cart_price::{TaxMode, TaxState, TaxSum};
use ordered::Ordered;
use shop_defs::NoMemory;
use std::alloc::Global;
use std::test::Fail;

/// No amount of a worked cart is above that.
const MOST: u64 = 1_000_000;

/// Two lines and a delivery, each a rate and an amount; what is offered on the goods and on the
/// delivery; what of both is left; and each rate with its amount and its tax.
struct Worked {
    state: TaxState,
    mode: TaxMode,
    lines: [(u32, u64); 2],
    off: Reduction,
    delivery: (u32, u64),
    delivery_off: Reduction,
    left: (u64, u64),
    taxes: &'static [(u32, i64, i64)],
}

const CARTS: [Worked; 4] = [
    Worked {
        state: TaxState::Gross,
        mode: TaxMode::Horizontal,
        lines: [(1900, 11_900), (1900, 11_900)],
        off: Reduction::Amount(0),
        delivery: (1900, 595),
        delivery_off: Reduction::Percent(0),
        left: (23_800, 595),
        taxes: &[(1900, 24_395, 3895)],
    },
    Worked {
        state: TaxState::Net,
        mode: TaxMode::Vertical,
        lines: [(1900, 999), (700, 500)],
        off: Reduction::Percent(1000),
        delivery: (0, 0),
        delivery_off: Reduction::Amount(5),
        left: (1349, 0),
        taxes: &[(0, 0, 0), (700, 450, 32), (1900, 899, 171)],
    },
    Worked {
        state: TaxState::Net,
        mode: TaxMode::Horizontal,
        lines: [(1900, 999), (700, 500)],
        off: Reduction::Percent(1000),
        delivery: (0, 0),
        delivery_off: Reduction::Amount(5),
        left: (1349, 0),
        taxes: &[(0, 0, 0), (700, 450, 31), (1900, 899, 171)],
    },
    Worked {
        state: TaxState::Free,
        mode: TaxMode::Horizontal,
        lines: [(0, 100), (0, 1)],
        off: Reduction::Amount(1_000_000_000_000),
        delivery: (0, 500),
        delivery_off: Reduction::Percent(5000),
        left: (0, 250),
        taxes: &[(0, 250, 0)],
    },
];

#[test]
fn carts(rt: HostRuntime) {
    for cart in &CARTS {
        assert!(rt; matches!(comes_to(rt.alloc(), cart), Ok(true)));
    }
}

/// Whether all that is computed of the cart is what was worked by hand.
fn comes_to(alloc: Global, cart: &Worked) -> Result<bool, NoMemory> {
    let [first, second] = cart.lines;
    let (rate, cost) = cart.delivery;
    if first.1 > MOST
        || second.1 > MOST
        || cost > MOST
        || first.0 > 10_000
        || second.0 > 10_000
        || rate > 10_000
    {
        return Ok(false);
    }
    let sums = add_at(cart.state, Ordered::new(alloc), first.0, first.1)?;
    let sums = add_at(cart.state, sums, second.0, second.1)?;
    let goods = take_all(alloc, first.1 + second.1, &[offer(cart.off)])?;
    let sums = take_goods(alloc, cart.state, sums, goods.discounts.as_slice())?;
    let sums = add_at(cart.state, sums, rate, cost)?;
    let sent = take_all(alloc, cost, &[offer(cart.delivery_off)])?;
    let sums = take_delivery(cart.state, sums, rate, sent.discounts.as_slice())?;
    let taxes = tax_sums(alloc, cart.state, cart.mode, &sums)?;
    Ok((goods.left, sent.left) == cart.left && are(taxes.as_slice(), cart.taxes))
}

fn offer(reduction: Reduction) -> Offer {
    Offer {
        promotion: 7,
        discount: 8,
        reduction,
    }
}

fn are(taxes: &[TaxSum], want: &[(u32, i64, i64)]) -> bool {
    taxes.len() == want.len()
        && taxes
            .iter()
            .zip(want)
            .all(|(sum, want)| (sum.rate, sum.amount, sum.tax) == *want)
}
