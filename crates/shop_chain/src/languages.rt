//! The languages that a text is looked for in, in their order.
ghost use Rattle.std.specs.Prelude.{◌≡◌, ◌+◌, ◌<◌, ◌≤◌, [], ◌∷◌, length};
ghost use Rattle.shop_chain.specs.Chains.{with_language};

use std::marker::Model;

/// The id of the language that stands in every chain, whether or not there is a row for it.
pub const SYSTEM_LANGUAGE: u128 = 1;

/// The most languages that a chain has: the one that is asked for, its parent, and the system
/// language.
const MOST_LANGUAGES: usize = 3;

/// The languages that a text is looked for in, from the first to the last. Contracts see the list of
/// their ids.
#[derive(Drop)]
pub struct Chain {
    ids: [u128; MOST_LANGUAGES],
    len: usize,
}

impl Model for Chain {
    ghost use Rattle.std.specs.Prelude.{List, ℕ, ◌≤◌, take};

    ghost Value = { List ℕ };

    ghost view = { λ c. take c.len c.ids };

    ghost invariant = { λ c. c.len ≤ 3 };
}

impl Chain {
    /// The ids of the languages, from the first to be asked to the last.
    pub fn as_slice(&self) -> &[u128]
        ensures { result.now ≡ self.now }
    {
        &self.ids[..self.len]
    }

    /// The chain of that language alone.
    pub(crate) fn of(language: u128) -> Chain
        ensures { result ≡ language ∷ [] }
    {
        Chain {
            ids: [language, 0, 0],
            len: 1,
        }
    }

    /// The chain with one language more at its end, unless it is in it already.
    pub(crate) fn with(mut self, language: u128) -> Chain
        requires { length self < MOST_LANGUAGES }
        ensures value { result ≡ with_language self language }
        ensures len { length result ≤ length self + 1 }
    {
        if !self.as_slice().contains(&language) {
            self.ids[self.len] = language;
            self.len += 1;
        }
        self
    }
}
