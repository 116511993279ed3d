//! The door of a shop, by which callers enter.
ghost use Rattle.std.specs.Prelude.{◌≡◌, ◌+◌, ◌<◌, ◌^◌};
ghost use Rattle.shop_shared.specs.Views.{one_more, new_caller};

use crate::pass::Pass;
use crate::table::{Board, Enters, Naming};
use crate::view::{DoorView, View};
use atomic_table::Seat;
use std::marker::{Model, PhantomData};

/// The door of the shop whose table `J` names. There is one.
///
/// Contracts see what the history begins with, and how many callers the door has let in.
#[derive(Drop)]
pub struct Door<J: Naming> {
    pub(crate) seat: Seat<u64, View>,
    pub(crate) made: u32,
    pub(crate) of: PhantomData<J>,
}

impl<J: Naming> Model for Door<J> {
    ghost use Rattle.std.specs.Prelude.{◌≡◌, []};
    ghost use Rattle.shop_shared.specs.declared.view.DoorView.{DoorView};
    ghost use Rattle.shop_shared.specs.declared.view.View.TheVariants.{Admits};
    ghost use Rattle.shop_shared.specs.Views.{door_of};

    ghost Value = { DoorView };

    ghost view = { λ s. door_of s.seat.me.0 };

    ghost invariant = { λ s. (s.seat.table_id ≡ J.table) × (s.seat.me ≡ (Admits (door_of s.seat.me.0), [])) × (s.made ≡ (door_of s.seat.me.0).made) };
}

impl<J: Naming> Door<J> {
    /// How many callers it has let in. It takes no lock.
    pub fn made(&self) -> u32
        ensures { result ≡ self.now.made }
    {
        self.made
    }

    /// Lets a caller in.
    pub(crate) fn enter(&mut self, board: &Board<J>) -> Pass<J>
        requires { self.old.made + 1 < 2 ^ 32 }
        ensures { (self.new ≡ one_more self.old) × (result ≡ new_caller self.old) }
    {
        let number = self.made;
        let seat = board.table.shared.split_seat::<Enters>(&mut self.seat);
        self.made += 1;
        Pass {
            seat,
            number,
            of: PhantomData,
        }
    }
}
