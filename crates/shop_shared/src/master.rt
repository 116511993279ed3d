//! The master's seat, which lies under the lock, and its steps.
ghost use Rattle.std.specs.Prelude.{◌≡◌, ◌+◌, ◌<◌, ◌≤◌, ◌^◌, false, Some, None, [], IfOk, MatchResult};
ghost use Rattle.shop_shared.specs.declared.view.View.TheVariants.{Keeps};
ghost use Rattle.shop_core.specs.Steps.{IsAccepted};
ghost use Rattle.shop_core.specs.History.{step_at, replay, own};
ghost use Rattle.shop_shared.specs.Views.{first_state, with_door, new_door, holding, committed, raised, faulted, shut_down, released, given, held_of, master_of};
ghost use Rattle.shop_core.specs.Publishing.{most_pending};
ghost use Rattle.shop_shared.specs.Rule.{accepted, IsKnown};
ghost use Rattle.shop_shared.specs.Passes.{entry_of, MovesOn};

use crate::door::Door;
use crate::pass::Pass;
use crate::table::{
    Board, Checks, Commits, Counted, Faults, Joins, Leaves, Naming, OpensDoor, Publishes, Said,
    Shuts, Splits, Words,
};
use crate::view::{MasterView, View};
use atomic_table::Seat;
use shop_core::{CommitFault, Done, ShopState};
use shop_outside::{Keeper, Moment};
use shop_requests::Command;
use std::marker::{Brand, Model, PhantomData};

/// The seat under the lock. Contracts see what it knows.
#[derive(Drop)]
pub struct Master<J: Naming> {
    pub(crate) seat: Seat<u64, View>,
    pub(crate) of: PhantomData<J>,
}

impl<J: Naming> Model for Master<J> {
    ghost use Rattle.std.specs.Prelude.{◌≡◌, []};
    ghost use Rattle.shop_shared.specs.declared.view.MasterView.{MasterView};
    ghost use Rattle.shop_shared.specs.declared.view.View.TheVariants.{Keeps};
    ghost use Rattle.shop_shared.specs.Views.{master_of};

    ghost Value = { MasterView };

    ghost view = { λ s. master_of s.seat.me.0 };

    ghost invariant = { λ s. (s.seat.table_id ≡ J.table) × (s.seat.id ≡ 0) × (s.seat.me ≡ (Keeps (master_of s.seat.me.0), [])) };
}

impl<J: Naming> Master<J> {
    /// Makes the door.
    pub(crate) fn open_door(&mut self, board: &Board<J>) -> Door<J>
        requires { self.old.door_made ≡ false }
        ensures { (self.new ≡ with_door self.old) × (result ≡ new_door self.old) }
    {
        let seat = board.table.shared.split_seat::<OpensDoor>(&mut self.seat);
        Door {
            seat,
            made: 0,
            of: PhantomData,
        }
    }

    /// Takes a caller in.
    pub(crate) fn hold(&mut self, board: &Board<J>, pass: Pass<J>)
        requires { self.old.held ≡ None }
        ensures { self.new ≡ holding self.old pass }
    {
        let Pass {
            seat,
            number: _,
            of: _,
        } = pass;
        board.table.shared.join_seat::<Joins>(&mut self.seat, seat);
    }

    /// Is told what the rule says of it.
    pub(crate) fn check(&mut self, board: &Board<J>)
        ensures same { self.new ≡ self.old }
        ensures known { IsKnown self.new }
    {
        board.table.shared.load::<Checks>(&mut self.seat, 0);
    }

    /// Adds the entry that is named.
    fn commit_said<E: Said>(
        &mut self,
        board: &Board<J>,
        number: u32,
        command: &Command,
        moment: &Moment,
    )
        requires said { E.said ≡ Some (entry_of number command.now moment.now) }
        requires held { (self.old.held ≡ Some (held_of self.old)) × (number ≡ (held_of self.old).earlier.number) }
        requires accepts { IsAccepted (step_at (replay (first_state self.old.start) self.old.history) (entry_of number command.now moment.now)) }
        requires room { (accepted self.old < self.old.front + most_pending) × (accepted self.old + 1 < 2 ^ 64) }
        ensures { self.new ≡ committed self.old (entry_of number command.now moment.now) }
    {
        board
            .table
            .shared
            .fetch_add::<Commits<E>>(&mut self.seat, 0, 1);
    }

    /// Adds an entry of the held caller, which is accepted at its place.
    pub(crate) fn commit(
        &mut self,
        board: &Board<J>,
        number: u32,
        command: &Command,
        moment: &Moment,
    )
        requires held { (self.old.held ≡ Some (held_of self.old)) × (number ≡ (held_of self.old).earlier.number) }
        requires accepts { IsAccepted (step_at (replay (first_state self.old.start) self.old.history) (entry_of number command.now moment.now)) }
        requires room { (accepted self.old < self.old.front + most_pending) × (accepted self.old + 1 < 2 ^ 64) }
        ensures { self.new ≡ committed self.old (entry_of number command.now moment.now) }
    {
        self.commit_said::<Brand>(board, number, command, moment);
    }

    /// Adds the command where the shop accepted it.
    pub(crate) fn add_if(
        &mut self,
        board: &Board<J>,
        number: u32,
        command: &Command,
        moment: &Moment,
        reply: &Result<Done, CommitFault>,
    )
        requires held { (self.old.held ≡ Some (held_of self.old)) × (number ≡ (held_of self.old).earlier.number) }
        requires accepts { IfOk reply.now (λ _. IsAccepted (step_at (replay (first_state self.old.start) self.old.history) (entry_of number command.now moment.now))) }
        requires room { IfOk reply.now (λ _. (accepted self.old < self.old.front + most_pending) × (accepted self.old + 1 < 2 ^ 64)) }
        ensures { MatchResult reply.now (λ _. self.new ≡ committed self.old (entry_of number command.now moment.now)) (λ _. self.new ≡ self.old) }
    {
        if reply.is_ok() {
            self.commit(board, number, command, moment);
        }
    }

    /// Raises the front.
    pub(crate) fn publish(&mut self, board: &Board<J>, up: u64)
        requires { (self.old.front + up ≤ accepted self.old) × (self.old.front + up < 2 ^ 64) }
        ensures { self.new ≡ raised self.old up }
    {
        board
            .table
            .shared
            .fetch_add::<Publishes>(&mut self.seat, 1, up);
    }

    /// Takes over the count of faults of the shop's keeper.
    pub(crate) fn fault<P: Keeper + Drop>(&mut self, board: &Board<J>, state: &ShopState<P>)
        requires { self.old.faults ≤ state.now.faults }
        ensures { self.new ≡ faulted self.old state.now.faults }
    {
        take_count(&board.table, &mut self.seat, state);
    }

    /// The held caller's pass, with what the master knows.
    fn release(&mut self, board: &Board<J>, number: u32) -> Pass<J>
        requires held { (self.old.held ≡ Some (held_of self.old)) × (number ≡ (held_of self.old).earlier.number) }
        requires known { IsKnown self.old }
        ensures { (self.new ≡ released self.old) × (result ≡ given self.old (held_of self.old)) }
    {
        let seat = board.table.shared.split_seat::<Splits>(&mut self.seat);
        Pass {
            seat,
            number,
            of: PhantomData,
        }
    }

    /// Gives the held caller its pass, with what the master knows.
    pub(crate) fn give_back(&mut self, board: &Board<J>, number: u32) -> Pass<J>
        requires { (self.old.held ≡ Some (held_of self.old)) × (number ≡ (held_of self.old).earlier.number) }
        ensures given { (self.new ≡ released self.old) × (result ≡ given self.old (held_of self.old)) }
        ensures moves { MovesOn (held_of self.old).earlier result }
        ensures own { own result.number result.seen ≡ (held_of self.old).own }
    {
        self.check(board);
        self.release(board, number)
    }

    /// Shuts the shop, whose door is used up.
    pub(crate) fn shut(&mut self, board: &Board<J>, door: Door<J>)
        ensures { self.new ≡ shut_down self.old }
    {
        let Door {
            seat,
            made: _,
            of: _,
        } = door;
        board.table.shared.join_seat::<Shuts>(&mut self.seat, seat);
    }

    /// Lets the held caller go.
    pub(crate) fn leave(&mut self, board: &Board<J>)
        ensures { self.new ≡ released self.old }
    {
        board.table.shared.load::<Leaves>(&mut self.seat, 0);
    }
}

/// The master's seat takes over the count that is named.
fn take_count_said<C: Counted, P: Keeper + Drop>(
    table: &Words,
    seat: &mut Seat<u64, View>,
    state: &ShopState<P>,
)
    requires said { C.count ≡ state.now.faults }
    requires seat { (seat.old.table_id ≡ table.now.shared.table_id) × (table.now.shared.table_id.words ≡ 3) × (seat.old.id ≡ 0) × (seat.old.me ≡ (Keeps (master_of seat.old.me.0), [])) }
    requires count { (master_of seat.old.me.0).faults ≤ state.now.faults }
    ensures { (seat.new.table_id ≡ seat.old.table_id) × (seat.new.id ≡ seat.old.id) × (seat.new.me ≡ (Keeps (faulted (master_of seat.old.me.0) state.now.faults), [])) }
{
    table.shared.fetch_add::<Faults<C>>(seat, 2, 1);
}

/// The master's seat takes over the count of faults of the shop's keeper.
pub(crate) fn take_count<P: Keeper + Drop>(
    table: &Words,
    seat: &mut Seat<u64, View>,
    state: &ShopState<P>,
)
    requires seat { (seat.old.table_id ≡ table.now.shared.table_id) × (table.now.shared.table_id.words ≡ 3) × (seat.old.id ≡ 0) × (seat.old.me ≡ (Keeps (master_of seat.old.me.0), [])) }
    requires count { (master_of seat.old.me.0).faults ≤ state.now.faults }
    ensures { (seat.new.table_id ≡ seat.old.table_id) × (seat.new.id ≡ seat.old.id) × (seat.new.me ≡ (Keeps (faulted (master_of seat.old.me.0) state.now.faults), [])) }
{
    take_count_said::<Brand, P>(table, seat, state);
}
