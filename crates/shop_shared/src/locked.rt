//! What lies under the lock: the shop's state beside the master's seat.
ghost use Rattle.std.specs.Prelude.{◌≡◌};
ghost use Rattle.shop_outside.specs.Clocks.{IsMoment};
ghost use Rattle.shop_core.specs.Commits.{HasStoreCause};
ghost use Rattle.shop_core.specs.Requests.{Shows, listing, reading, with_bare};
ghost use Rattle.shop_shared.specs.Passes.{HaveMet, MovesOn, SameOwn, Writes, seen_number, seen_state};
ghost use Rattle.shop_core.specs.Steps.{IsBuilt};
ghost use Rattle.shop_shared.specs.Looks.{last_found, last_faults};
ghost use Rattle.shop_shared.specs.Locks.{HasSeenAll, HoldsAShop};
ghost use Rattle.shop_shared.specs.Views.{shut_down};

use crate::door::Door;
use crate::master::Master;
use crate::pass::Pass;
use crate::table::{Board, Naming};
use shop_core::{AskFault, CommitFault, Done, RowReply, ShopState};
use shop_defs::List;
use shop_outside::{Keeper, Moment};
use shop_requests::{Command, RowRead};
use std::alloc::Global;
use std::marker::Model;

/// A shop's state with the seat of the master, who knows its history.
///
/// Contracts see what the master knows, and the shop. The shop is the one after the history, its
/// published copy is that at the master's front, and the pending deltas lead on from it.
#[derive(Drop)]
pub struct Locked<P: Keeper + Drop, J: Naming> {
    pub(crate) state: ShopState<P>,
    pub(crate) master: Master<J>,
    pub(crate) shut: bool,
}

impl<P: Keeper + Drop, J: Naming> Model for Locked<P, J> {
    ghost use Rattle.shop_shared.specs.Locks.{LockView, AreTied};

    ghost Value = { LockView };

    ghost view = { λ l. record { master = l.master; shop = l.state } };

    ghost invariant = { λ l. AreTied l.master l.state l.shut };
}

impl<P: Keeper + Drop, J: Naming> Locked<P, J> {
    /// Gives a caller all that is seen under the lock, where nothing changes.
    fn look(&mut self, board: &Board<J>, pass: Pass<J>) -> Pass<J>
        ensures same { self.new ≡ self.old }
        ensures moves { MovesOn pass result }
        ensures own { SameOwn pass result }
        ensures all { HasSeenAll self.old result }
    {
        let number = pass.number();
        self.master.hold(board, pass);
        self.master.give_back(board, number)
    }

    /// Gives both callers the same.
    pub(crate) fn meet(
        &mut self,
        board: &Board<J>,
        one: Pass<J>,
        two: Pass<J>,
    ) -> (Pass<J>, Pass<J>)
        ensures one { MovesOn one result.0 × SameOwn one result.0 }
        ensures two { MovesOn two result.1 × SameOwn two result.1 }
        ensures met { HaveMet result.0 result.1 }
    {
        let one = self.look(board, one);
        let two = self.look(board, two);
        (one, two)
    }

    /// Lets a caller go for good.
    pub(crate) fn leave(&mut self, board: &Board<J>, pass: Pass<J>) {
        self.master.hold(board, pass);
        self.master.leave(board);
    }

    /// Shuts the shop, whose door is used up.
    pub(crate) fn shut(&mut self, board: &Board<J>, door: Door<J>)
        ensures master { self.new.master ≡ shut_down self.old.master }
        ensures shop { self.new.shop ≡ self.old.shop }
    {
        self.master.shut(board, door);
        self.shut = true;
    }

    /// The keeper, which holds the shop's rows.
    pub(crate) fn close(self) -> P
        ensures { HoldsAShop (P.content result) }
    {
        let Locked {
            state,
            master: _,
            shut: _,
        } = self;
        state.close()
    }

    /// How many entries were accepted, and how many of them are published.
    pub(crate) fn front(&mut self, board: &Board<J>, pass: Pass<J>) -> (Pass<J>, (u64, u64))
        ensures moves { MovesOn pass result.0 }
        ensures own { SameOwn pass result.0 }
        ensures accepted { result.1.0 ≡ seen_number result.0 }
        ensures published { result.1.1 ≡ result.0.front }
    {
        let pass = self.look(board, pass);
        let fronts = (self.state.accepted(), self.state.front());
        (pass, fronts)
    }

    /// The row that a read asks for, after all that was accepted.
    pub(crate) fn read(
        &mut self,
        board: &Board<J>,
        alloc: Global,
        pass: Pass<J>,
        read: &RowRead,
    ) -> (Pass<J>, Result<RowReply, AskFault>)
        ensures moves { MovesOn pass result.0 }
        ensures own { SameOwn pass result.0 }
        ensures shows { Shows result.1 (reading (seen_state result.0).rows read.now) }
    {
        let pass = self.look(board, pass);
        let reply = self.state.read_row(alloc, read);
        (pass, reply)
    }

    /// The first rows of an entity above a place, after all that was accepted.
    pub(crate) fn read_list(
        &mut self,
        board: &Board<J>,
        alloc: Global,
        pass: Pass<J>,
        entity: &[u8],
        id: u128,
        second: u128,
    ) -> (Pass<J>, Result<List<RowReply>, AskFault>)
        ensures moves { MovesOn pass result.0 }
        ensures own { SameOwn pass result.0 }
        ensures shows { Shows result.1 (with_bare (listing (seen_state result.0).rows entity.now id second)) }
    {
        let pass = self.look(board, pass);
        let reply = self.state.read_list(alloc, entity, id, second);
        (pass, reply)
    }

    /// Carries out a command, after all that was accepted.
    pub(crate) fn write(
        &mut self,
        board: &Board<J>,
        alloc: Global,
        pass: Pass<J>,
        command: &Command,
        moment: Moment,
    ) -> (Pass<J>, Result<Done, CommitFault>)
        requires built { IsBuilt command.now }
        requires moment { IsMoment moment }
        ensures moves { MovesOn pass result.0 }
        ensures writes { Writes pass result.0 command.now moment result.1 }
        ensures cause { HasStoreCause (last_found 0 result.0.looks) (last_faults 0 result.0.looks) result.1 }
    {
        let number = pass.number();
        self.master.hold(board, pass);
        let before = self.state.front();
        let reply = self.state.commit(alloc, command, moment);
        self.master.fault(board, &self.state);
        let after = self.state.front();
        self.master.publish(board, after - before);
        self.master.add_if(board, number, command, &moment, &reply);
        let pass = self.master.give_back(board, number);
        (pass, reply)
    }
}
