//! What a caller holds of a shop.
ghost use Rattle.std.specs.Prelude.{◌≡◌};
ghost use Rattle.shop_shared.specs.Passes.{IsPass};

use crate::table::Naming;
use crate::view::{CallerView, View};
use atomic_table::Seat;
use std::marker::{Model, PhantomData};

/// A caller's pass: what it has seen of the shop whose table `J` names. It takes no more memory than
/// its number.
///
/// Contracts see the caller's number, what the history begins with, the entries that the pass has
/// seen, the published front, its looks, and whether it has seen the shop shut. Each entry that it has
/// seen is accepted at its place, its front is one of these entries and at most 1,024 behind the last,
/// and its looks never fall.
#[derive(Drop)]
pub struct Pass<J: Naming> {
    pub(crate) seat: Seat<u64, View>,
    pub(crate) number: u32,
    pub(crate) of: PhantomData<J>,
}

impl<J: Naming> Model for Pass<J> {
    ghost use Rattle.std.specs.Prelude.{◌≡◌, []};
    ghost use Rattle.shop_shared.specs.declared.view.CallerView.{CallerView};
    ghost use Rattle.shop_shared.specs.declared.view.View.TheVariants.{Calls};
    ghost use Rattle.shop_shared.specs.Views.{caller_of};
    ghost use Rattle.shop_shared.specs.Passes.{IsPass};

    ghost Value = { CallerView };

    ghost view = { λ s. caller_of s.seat.me.0 };

    ghost invariant = { λ s. (s.seat.table_id ≡ J.table) × (s.seat.me ≡ (Calls (caller_of s.seat.me.0), [])) × (s.number ≡ (caller_of s.seat.me.0).number) × IsPass (caller_of s.seat.me.0) };
}

impl<J: Naming> Pass<J> {
    /// The caller's number, which no other caller of the shop has. It takes no lock.
    pub fn number(&self) -> u32
        ensures number { result ≡ self.now.number }
        ensures pass { IsPass self.now }
    {
        self.number
    }
}
