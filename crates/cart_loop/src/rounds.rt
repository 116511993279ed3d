//! The rounds of a cart over its lent rows.
use crate::facts::facts_of;
use crate::settling::Rounds;
use crate::state::State;
use cart_price::CartData;
use cart_process::process;
use shop_defs::{List, NoMemory};
use shop_rules::{Tree, matched};
use std::alloc::Global;

/// A cart with its lent rows, all rules, and a moment.
#[derive(Drop)]
pub(crate) struct CartRounds<'d, 'a> {
    pub(crate) data: &'d CartData<'a>,
    pub(crate) rules: &'d List<(u128, i64, Tree)>,
    pub(crate) moment: i64,
}

impl Rounds for CartRounds<'_, '_> {
    ghost use Rattle.cart_price.specs.Lent.{cart_rows};
    ghost use Rattle.cart_process.specs.Kept.{IsCartKept};
    ghost use Rattle.shop_rules.specs.Days.{IsMoment};
    ghost use Rattle.cart_loop.specs.Settled.{round};

    ghost ready = { λ r. IsMoment r.moment × IsCartKept (cart_rows r.data.now) };

    ghost gives = { λ r. round (cart_rows r.data.now) r.rules.now r.moment };

    fn round(&self, alloc: Global, rules: &[u128]) -> Result<State, NoMemory> {
        let cart = process(alloc, self.data, self.moment, rules)?;
        let facts = facts_of(alloc, self.data, &cart)?;
        let rules = matched(alloc, self.rules, &facts, self.moment)?;
        Ok(State { cart, rules })
    }
}
