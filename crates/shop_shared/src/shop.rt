//! The shop that many callers share.
ghost use Rattle.std.specs.Prelude.{[], ◌+◌, ◌<◌, ◌^◌, ◌≡◌, IfOk};
ghost use Rattle.shop_outside.specs.Clocks.{IsMoment};
ghost use Rattle.shop_core.specs.Commits.{HasStoreCause};
ghost use Rattle.shop_core.specs.Requests.{Shows, listing, reading, with_bare};
ghost use Rattle.shop_core.specs.Steps.{IsBuilt};
ghost use Rattle.shop_shared.specs.Looks.{last_found, last_faults};
ghost use Rattle.shop_shared.specs.Views.{one_more, new_caller};
ghost use Rattle.shop_shared.specs.Locks.{HoldsAShop};
ghost use Rattle.shop_shared.specs.Passes.{BeginsWith, HaveMet, IsNewDoor, MovesOn, SameOwn, Writes, seen_number, seen_state};

use crate::door::Door;
use crate::locked::Locked;
use crate::master::{Master, take_count};
use crate::pass::Pass;
use crate::table::{Board, Naming, Words};
use crate::view::{Opening, View};
use atomic_table::{Seat, Table};
use shop_core::{AskFault, CommitFault, Done, RowReply, ShopState};
use shop_defs::{List, NoMemory};
use shop_outside::{Keeper, Moment};
use shop_requests::{Command, RowRead};
use std::alloc::Global;
use std::marker::{Model, PhantomData};
use std::snapshot::Snapshot;
use std::sync::{Mutex, Wait};

/// A new table with the master's seat: no door was made, and nothing was accepted.
///
/// Contracts see the table's name, what its history begins with, and the count of faults.
#[derive(Drop)]
pub struct Fresh {
    table: Words,
    master: Seat<u64, View>,
}

impl Model for Fresh {
    ghost use Rattle.std.specs.Prelude.{◌≡◌, []};
    ghost use Rattle.shop_shared.specs.declared.view.View.TheVariants.{Keeps};
    ghost use Rattle.shop_shared.specs.Views.{master_of, fresh_master};
    ghost use Rattle.shop_shared.specs.Passes.{FreshTable};

    ghost Value = { FreshTable };

    ghost view = { λ f. record { table = f.table.shared.table_id; start = (master_of f.master.me.0).start; faults = (master_of f.master.me.0).faults } };

    ghost invariant = { λ f. (f.table.shared.table_id.words ≡ 3) × (f.master.table_id ≡ f.table.shared.table_id) × (f.master.id ≡ 0) × (f.master.me ≡ (Keeps (fresh_master (master_of f.master.me.0).start (master_of f.master.me.0).faults), [])) };
}

/// A new table, whose history begins with this shop. Want of memory is the only error.
pub fn fresh_table<P: Keeper + Drop>(alloc: Global, state: &ShopState<P>) -> Result<Fresh, NoMemory>
    requires none_pending { state.now.pending ≡ [] }
    ensures { IfOk result (λ fresh. BeginsWith fresh state.now) }
{
    let number = state.accepted();
    let opening = Opening {
        rows: Snapshot::of(state.rows()),
        number,
    };
    let (table, mut master) = Table::of_words(alloc, &[number, number, 0], &opening)?;
    take_count(&table, &mut master, state);
    Ok(Fresh { table, master })
}

/// The shop whose table `J` names, which many callers share: its state under one lock.
#[derive(Drop)]
pub struct Shop<P: Keeper + Drop, J: Naming> {
    lock: Mutex<Locked<P, J>>,
    board: Board<J>,
}

/// Shares a shop's state, and gives the shop with its door. It takes no lock and no memory.
pub fn share_shop<P: Keeper + Drop, J: Naming>(
    state: ShopState<P>,
    fresh: Fresh,
) -> (Shop<P, J>, Door<J>)
    requires named { fresh.table ≡ J.table }
    requires begins { BeginsWith fresh state }
    requires none_pending { state.pending ≡ [] }
    ensures { IsNewDoor result.1 state }
{
    // What always holds of a shop is known once it is read.
    let _front = state.front();
    let Fresh { table, master } = fresh;
    let board = Board {
        table,
        of: PhantomData,
    };
    let mut master = Master {
        seat: master,
        of: PhantomData,
    };
    let door = master.open_door(&board);
    let lock = Mutex::new(Locked {
        state,
        master,
        shut: false,
    });
    (Shop { lock, board }, door)
}

impl<P: Keeper + Drop, J: Naming> Shop<P, J> {
    /// A new caller, with the number of callers that the door has let in. It takes no lock and no memory.
    pub fn enter_shop(&self, door: &mut Door<J>) -> Pass<J>
        requires { door.old.made + 1 < 2 ^ 32 }
        ensures door { door.new ≡ one_more door.old }
        ensures pass { result ≡ new_caller door.old }
    {
        door.enter(&self.board)
    }

    /// Carries out a command, and keeps what it changes, after all entries that were accepted.
    ///
    /// Where 1,024 entries are pending, the shop catches up first, also where the command is then
    /// refused.
    ///
    /// # Errors
    ///
    /// `Refused` comes exactly where a step after all that the pass has then seen refuses the command,
    /// `StoreFailed` where it is accepted and the keeper failed in this very look, so that its count rose
    /// or stands at its last value, and `NoMemory` where memory is refused. The history is as it was.
    pub fn write(
        &self,
        rt: &impl Wait,
        alloc: Global,
        pass: Pass<J>,
        command: &Command,
        moment: Moment,
    ) -> (Pass<J>, Result<Done, CommitFault>)
        requires built { IsBuilt command.now }
        requires moment { IsMoment moment }
        ensures moves { MovesOn pass result.0 }
        ensures writes { Writes pass result.0 command.now moment result.1 }
        ensures cause { HasStoreCause (last_found 0 result.0.looks) (last_faults 0 result.0.looks) result.1 }
    {
        self.lock
            .lock(rt)
            .write(&self.board, alloc, pass, command, moment)
    }

    /// The row that a read asks for, with what is shown of it, after all that the pass has then seen.
    ///
    /// # Errors
    ///
    /// Those of `ShopState::read_row`.
    pub fn read(
        &self,
        rt: &impl Wait,
        alloc: Global,
        pass: Pass<J>,
        read: &RowRead,
    ) -> (Pass<J>, Result<RowReply, AskFault>)
        ensures moves { MovesOn pass result.0 }
        ensures own { SameOwn pass result.0 }
        ensures shows { Shows result.1 (reading (seen_state result.0).rows read.now) }
    {
        self.lock.lock(rt).read(&self.board, alloc, pass, read)
    }

    /// The first 100 live rows of the entity above a place in the order of keys, or all of them where
    /// they are fewer, after all that the pass has then seen.
    ///
    /// # Errors
    ///
    /// Those of `ShopState::read_list`.
    pub fn read_list(
        &self,
        rt: &impl Wait,
        alloc: Global,
        pass: Pass<J>,
        entity: &[u8],
        id: u128,
        second: u128,
    ) -> (Pass<J>, Result<List<RowReply>, AskFault>)
        ensures moves { MovesOn pass result.0 }
        ensures own { SameOwn pass result.0 }
        ensures shows { Shows result.1 (with_bare (listing (seen_state result.0).rows entity.now id second)) }
    {
        self.lock
            .lock(rt)
            .read_list(&self.board, alloc, pass, entity, id, second)
    }

    /// How many entries were accepted, and how many of them are published, with those before the
    /// start. It takes no memory.
    pub fn front(&self, rt: &impl Wait, pass: Pass<J>) -> (Pass<J>, (u64, u64))
        ensures moves { MovesOn pass result.0 }
        ensures own { SameOwn pass result.0 }
        ensures accepted { result.1.0 ≡ seen_number result.0 }
        ensures published { result.1.1 ≡ result.0.front }
    {
        self.lock.lock(rt).front(&self.board, pass)
    }

    /// Both passes are given the same: all entries that were accepted, and the published front.
    pub fn meet(&self, rt: &impl Wait, one: Pass<J>, two: Pass<J>) -> (Pass<J>, Pass<J>)
        ensures one { MovesOn one result.0 × SameOwn one result.0 }
        ensures two { MovesOn two result.1 × SameOwn two result.1 }
        ensures met { HaveMet result.0 result.1 }
    {
        self.lock.lock(rt).meet(&self.board, one, two)
    }

    /// Shuts the shop: its door is used up, and no more callers enter.
    pub fn shut(&self, rt: &impl Wait, door: Door<J>) {
        self.lock.lock(rt).shut(&self.board, door);
    }

    /// The keeper of a shop that nobody shares any more. Where it tells, it holds what is kept of sound
    /// rows, which by what stands under the lock are those after the history, and how many entries
    /// were accepted. It takes no lock and no memory.
    pub fn close(self) -> P
        ensures { HoldsAShop (P.content result) }
    {
        let Shop { lock, board: _ } = self;
        lock.into_inner().close()
    }

    /// Lets a caller go for good.
    pub fn leave(&self, rt: &impl Wait, pass: Pass<J>) {
        self.lock.lock(rt).leave(&self.board, pass);
    }
}
