//! A cart that is settled.
ghost use Rattle.std.specs.Prelude.{◌≡◌, MatchResult};
ghost use Rattle.shop_rules.specs.Days.{IsMoment};
ghost use Rattle.cart_loop.specs.Checked.{AreCartRows};
ghost use Rattle.cart_loop.specs.Settled as spec;

use crate::fault::CartRefused;
use crate::labels::labels_of;
use crate::rounds::CartRounds;
use crate::rules::rules_of;
use crate::settling::settle_by;
use cart_collect::collect;
use cart_price::Settled;
use shop_rows::Rows;
use std::alloc::Global;

/// The live cart with that id at a moment, priced in rounds until a further round leaves its prices and
/// the rules that hold of it as they are. Its rows are collected once, and lent to every round.
///
/// The first round looks at no rules, and each other at those that hold of the cart before. `rounds` is
/// how many there were, from 2 to 7, the last one among them. `NoSuchCart` exactly where there is no
/// such cart, and `Unstable` exactly where no two of seven rounds in a row give the same; want of memory
/// is the only other error.
///
/// The moment is in seconds since 1970-01-01T00:00:00 UTC, up to 250,000,000,000. Each row is as its
/// entity has it, and no cart has more than 100 lines, as in all rows that were checked.
#[tactic(auto, using(crate::proofs::Kept::collected_kept))]
pub fn settle(alloc: Global, rows: &Rows, cart: u128, moment: i64) -> Result<Settled, CartRefused>
    requires moment { IsMoment moment }
    requires rows { AreCartRows rows.now.list }
    ensures { MatchResult result (spec.IsSettled rows.now.list cart moment) (spec.IsRefused rows.now.list cart moment) }
{
    let data = collect(alloc, rows, cart)?;
    let rules = rules_of(alloc, rows)?;
    let rounds = CartRounds {
        data: &data,
        rules: &rules,
        moment,
    };
    let (state, rounds) = settle_by(alloc, &rounds)?;
    let labels = labels_of(alloc, &data, &state.cart)?;
    Ok(Settled {
        cart: state.cart,
        labels,
        rules: state.rules,
        rounds,
    })
}
