//! What no clause says: that bodies are printed where memory is ample, of a cart with nothing in it and
//! of one with something in each place.

use crate::settled::settled_text;
use cart_price::{Block, Delivery, Discount, PricedCart, PricedLine, Settled, TaxSum};
use shop_defs::{List, NoMemory, Txt};
use std::alloc::Global;

/// Whether the cart has something in each place, and the body.
const BODIES: [(bool, &str); 2] = [
    (
        false,
        "{\"blocks\":[],\"cart\":{\"count\":1,\"delivery\":null,\"delivery_discounts\":[],\"discounts\":[],\"goods\":2,\"lines\":[],\"raw\":3,\"tax\":4,\"taxes\":[],\"total\":-5,\"weight\":6},\"front\":18446744073709551615,\"labels\":[],\"rounds\":7,\"rules\":[]}",
    ),
    (
        true,
        "{\"blocks\":[{\"cause\":\"no_price\",\"line\":\"0000000000000000000000000000000a\"}],\"cart\":{\"count\":1,\"delivery\":{\"cost\":11,\"method\":\"0000000000000000000000000000000c\",\"rate\":13},\"delivery_discounts\":[{\"amount\":14,\"discount\":\"0000000000000000000000000000000f\",\"promotion\":\"00000000000000000000000000000010\"}],\"discounts\":[{\"amount\":17,\"discount\":\"00000000000000000000000000000012\",\"promotion\":\"00000000000000000000000000000013\"}],\"goods\":2,\"lines\":[{\"id\":\"00000000000000000000000000000014\",\"product\":\"00000000000000000000000000000015\",\"quantity\":22,\"rate\":23,\"total\":24,\"unit\":25}],\"raw\":3,\"tax\":4,\"taxes\":[{\"amount\":26,\"rate\":27,\"tax\":28}],\"total\":-5,\"weight\":6},\"front\":18446744073709551615,\"labels\":[\"a\\\"b\"],\"rounds\":7,\"rules\":[\"0000000000000000000000000000001d\"]}",
    ),
];

fn settled_of(alloc: Global, is_filled: bool) -> Result<Settled, NoMemory> {
    let mut settled = Settled {
        cart: PricedCart {
            count: 1,
            delivery: None,
            delivery_discounts: List::new(alloc),
            discounts: List::new(alloc),
            goods: 2,
            lines: List::new(alloc),
            raw: 3,
            tax: 4,
            taxes: List::new(alloc),
            total: -5,
            weight: 6,
            blocks: List::new(alloc),
        },
        labels: List::new(alloc),
        rules: List::new(alloc),
        rounds: 7,
    };
    if is_filled {
        fill(alloc, &mut settled)?;
    }
    Ok(settled)
}

/// Puts one thing in each place.
fn fill(alloc: Global, settled: &mut Settled) -> Result<(), NoMemory> {
    let cart = &mut settled.cart;
    cart.blocks.push(Block {
        cause: Txt::from_str(alloc, "no_price")?,
        line: 10,
    })?;
    cart.delivery = Some(Delivery {
        cost: 11,
        method: 12,
        rate: 13,
    });
    cart.delivery_discounts.push(Discount {
        amount: 14,
        discount: 15,
        promotion: 16,
    })?;
    cart.discounts.push(Discount {
        amount: 17,
        discount: 18,
        promotion: 19,
    })?;
    cart.lines.push(PricedLine {
        id: 20,
        product: 21,
        quantity: 22,
        rate: 23,
        total: 24,
        unit: 25,
    })?;
    cart.taxes.push(TaxSum {
        amount: 26,
        rate: 27,
        tax: 28,
    })?;
    settled.labels.push(Txt::from_str(alloc, "a\"b")?)?;
    settled.rules.push(29)
}

fn printed(alloc: Global, is_filled: bool) -> Result<Vec<u8>, NoMemory> {
    let settled = settled_of(alloc, is_filled)?;
    let mut room = Vec::new(alloc);
    settled_text(alloc, &mut room, u64::MAX, &settled)?;
    Ok(room)
}

fn is_printed(alloc: Global, is_filled: bool, want: &str) -> bool {
    match printed(alloc, is_filled) {
        Ok(body) => body.as_slice() == want.as_bytes(),
        Err(_) => false,
    }
}

#[test]
fn bodies(rt: HostRuntime) {
    for (is_filled, want) in BODIES {
        assert!(rt; is_printed(rt.alloc(), is_filled, want), "{want}");
    }
}
