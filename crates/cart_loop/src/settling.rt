//! Rounds, until two in a row give the same.
ghost use Rattle.std.specs.Prelude.{◌≡◌, MatchResult};
ghost use Rattle.cart_loop.specs.Settling as spec;

use crate::fault::CartRefused;
use crate::same::Same;
use crate::state::State;
use shop_defs::NoMemory;
use std::alloc::Global;

/// The rounds of one cart, of which each looks at the rules that hold of the cart that the one before
/// gave. What a round asks for is `ready`.
pub(crate) trait Rounds {
    ghost use Rattle.std.specs.Prelude.{ℕ, List, IfOk};
    ghost use Rattle.cart_loop.specs.declared.state.State.{State};

    ghost ready: { Self → Type 0 };

    ghost gives: { Self → List ℕ → State };

    /// What a round gives, by the rules that hold. Want of memory is the only error.
    fn round(&self, alloc: Global, rules: &[u128]) -> Result<State, NoMemory>
        requires { ready self.now }
        ensures { IfOk result (λ state. state ≡ gives self.now rules.now) };
}

/// How many pairs of rounds are compared: seven rounds.
const MOST_PAIRS: u32 = 6;

/// What the rounds of a cart settle at, with the number of rounds that this took.
///
/// The first round looks at no rules. It is `Unstable` where of seven rounds no two in a row give the
/// same; want of memory is the only other error.
pub(crate) fn settle_by<R: Rounds>(alloc: Global, rounds: &R) -> Result<(State, u32), CartRefused>
    requires { R.ready rounds.now }
    ensures { MatchResult result (spec.Settles (R.gives rounds.now)) (spec.HasNotSettled (R.gives rounds.now)) }
{
    let mut state = rounds.round(alloc, &[])?;
    for turn in 0..MOST_PAIRS {
        let next = rounds.round(alloc, state.rules.as_slice())?;
        if next.is_same(&state) {
            return Ok((state, turn + 2));
        }
        state = next;
    }
    Err(CartRefused::Unstable)
}
