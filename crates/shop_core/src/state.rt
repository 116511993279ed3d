//! The rows, the keeper and the number of accepted entries.
ghost use Rattle.std.specs.Prelude.{◌≡◌, ◌+◌, ◌-◌, ◌<◌, ◌≤◌, ◌^◌, List, length, take, ℕ, Option, Some, Ok, Err, IfOk, IfErr, MatchResult, OnOk, OnErr};
ghost use Rattle.std.specs.Arc.{arc_value};
ghost use Rattle.shop_defs.specs.declared.row.Row.{Row};
ghost use Rattle.shop_outside.specs.Clocks.{IsMoment};
ghost use Rattle.shop_check.specs.Soundness.{kept as kept_rows, AreSound};
ghost use Rattle.shop_core.specs.Steps.{IsBuilt};
ghost use Rattle.shop_core.specs.Shops.{ShopView, IsShop};
ghost use Rattle.idx_copy.specs.Answers as known;
ghost use Rattle.shop_core.specs.Indexed.{IsTold, Tells, direct_reply};
ghost use Rattle.shop_core.specs.Publishing.{CatchesUp, Installs, MakesRoom};
ghost use Rattle.shop_core.specs.Commits.{CarriesOut, Commits};
ghost use Rattle.idx_copy.specs.Fronts.{EachFits, changes_in, rows_after};
ghost use Rattle.shop_core.specs.Opening.{Opens, HasOpenCause, IsNoDamage};
ghost use Rattle.cart_loop.specs.Settled.{IsRefused, IsSettled};
ghost use Rattle.shop_core.specs.Carts.{ReadsCart};
ghost use Rattle.shop_core.specs.Requests.{Answers, IsBuiltRequest, IsRead, IsReadCaughtUp, IsWritten, Shows, cart_answer, listing, reading, with_bare};
ghost use Rattle.shop_core.specs.Seeing.{Sees, SeesRows};
ghost use Rattle.shop_core.specs.FirstBroken.{KeepsRules, NamesFirst};

use crate::answers::{
    CommitFault, Done, OpenFault, Reply, Request, RowReply, RowSeen, not_settled, not_shown,
    written,
};
use crate::known::{refused_at, told};
use crate::plan::{encode_changes, plan};
use crate::read::{copy_list, copy_row, see_list, see_row};
use crate::ready::{first_queue, make_ready};
use cart_loop::{CartRefused, settle};
use cart_price::Settled;
use idx_copy::{Answer, AskFault, IndexCopy};
use publishing::{Batch, Older, Queue};
use shop_check::{CheckFault, check_rows};
use shop_defs::{Broken, List, NoMemory, PlanFault, Refused, Row};
use shop_outside::{KeepFault, Keeper, Moment};
use shop_requests::{Command, Query, RowRead};
use shop_rows::Rows;
use std::alloc::Global;
use std::marker::Model;
use std::sync::Arc;

/// So many entries are accepted at most, with those that the keeper's number counts.
const MOST_ENTRIES: u64 = 1 << 62;

/// So many deltas are pending at most.
const MOST_PENDING: usize = 1024;

/// A shop: its rows behind a keeper, how many entries of its history were accepted, and a published copy
/// of the rows with the deltas that lead on from it.
///
/// Contracts see the rows as a list in key order, the number, what the keeper holds, where it tells,
/// the keeper's count of faults, the published copy, and the changes of each pending delta. The rows are
/// sound, and a keeper that tells holds the kept rows and the number, whatever calls of it failed. The
/// pending deltas, one after the other, lead from the copy's rows to these, over sound rows alone, and
/// there are as many as the number is above the copy's front.
#[derive(Drop)]
pub struct ShopState<P: Keeper + Drop> {
    rows: Rows,
    keeper: P,
    number: u64,
    queue: Queue,
}

impl<P: Keeper + Drop> Model for ShopState<P> {
    ghost use Rattle.shop_core.specs.Shops.{ShopView, IsShop};

    ghost Value = { ShopView };

    ghost view = { λ s. record { rows = s.rows.list; number = s.number; content = P.content s.keeper; faults = P.keep_faults s.keeper; copy = s.queue.copy; pending = s.queue.pending } };

    ghost invariant = { λ s. IsShop (record { rows = s.rows.list; number = s.number; content = P.content s.keeper; faults = P.keep_faults s.keeper; copy = s.queue.copy; pending = s.queue.pending }) };
}

/// Opens the shop that the keeper holds. Entries are counted on from the keeper's number, which is the
/// first front that is published.
///
/// # Errors
///
/// The keeper comes back with each of them, with what it held. `Damaged` comes exactly where what the
/// keeper gave breaks a rule, with the first such row and its first such rule; `StoreFault` where the
/// keeper failed, so that its count of faults rose or stands at its last value; and `NoMemory` where
/// memory is refused.
pub fn open_shop<P: Keeper + Drop>(
    alloc: Global,
    mut keeper: P,
) -> Result<ShopState<P>, (P, OpenFault)>
    ensures opens { IfOk result (Opens (P.content keeper) (P.keep_faults keeper)) }
    ensures shop { IfOk result IsShop }
    ensures cause { IfErr result (λ e. HasOpenCause (P.content keeper) (P.keep_faults keeper) (P.keep_faults e.0) e.1) }
    ensures content { IfErr result (λ e. P.content e.0 ≡ P.content keeper) }

    // What a keeper holds of sound rows is opened as these rows, and never damaged.
    ensures sound { (rows : List Row) (number : ℕ) → AreSound rows
        → P.content keeper ≡ Some (record { rows = kept_rows rows; number = number })
        → MatchResult result (λ shop. (shop.rows ≡ rows) × (shop.number ≡ number)) (λ e. IsNoDamage e.1) }
{
    match keeper.load() {
        Ok(kept) => match check_rows(alloc, kept.rows.as_slice()) {
            Ok(rows) => match first_queue(alloc, &rows, kept.number) {
                Ok(queue) => Ok(ShopState {
                    rows,
                    keeper,
                    number: kept.number,
                    queue,
                }),
                Err(_) => Err((keeper, OpenFault::NoMemory)),
            },
            Err(CheckFault::Damaged { key, rule }) => Err((
                keeper,
                OpenFault::Damaged { key, rule },
            )),
            Err(CheckFault::NoMemory) => Err((keeper, OpenFault::NoMemory)),
        },
        Err(KeepFault::Failed) => Err((keeper, OpenFault::StoreFault)),
        Err(KeepFault::NoMemory) => Err((keeper, OpenFault::NoMemory)),
    }
}

impl<P: Keeper + Drop> ShopState<P> {
    /// Carries out a command, and keeps what it changes.
    ///
    /// At 1,024 pending deltas the shop catches up before the command is looked at, and so also where it
    /// is then refused. An accepted command puts its delta behind those that are then pending. All memory
    /// is taken before the keeper is called.
    ///
    /// # Errors
    ///
    /// `Refused` comes exactly where a step refuses the command, `StoreFailed` where it is accepted
    /// and the keeper failed, so that its count of faults rose or stands at its last value, and
    /// `NoMemory` where memory is refused. Rows, number and what the keeper holds are as before.
    pub fn commit(
        &mut self,
        alloc: Global,
        command: &Command,
        moment: Moment,
    ) -> Result<Done, CommitFault>
        requires built { IsBuilt command.now }
        requires moment { IsMoment moment }
        ensures commits { Commits self.old command.now moment result self.new }
        ensures shop { IsShop self.new }
    {
        match self.make_room(alloc) {
            Ok(()) => self.carry_out(alloc, command, moment),
            Err(_) => Err(CommitFault::NoMemory),
        }
    }

    /// Catches up where as many deltas are pending as there may be. Want of memory is the only error, and
    /// nothing changes then.
    fn make_room(&mut self, alloc: Global) -> Result<(), NoMemory>
        ensures ok { OnOk result (MakesRoom self.old self.new) }
        ensures err { OnErr result (self.new ≡ self.old) }
        ensures shop { IsShop self.new }
    {
        if self.queue.pending() < MOST_PENDING {
            return Ok(());
        }
        let _front = self.catch_up(alloc)?;
        Ok(())
    }

    /// Carries out a command, where fewer deltas are pending than there may be.
    fn carry_out(
        &mut self,
        alloc: Global,
        command: &Command,
        moment: Moment,
    ) -> Result<Done, CommitFault>
        requires built { IsBuilt command.now }
        requires moment { IsMoment moment }
        ensures carries { CarriesOut self.old command.now moment result self.new }
        ensures shop { IsShop self.new }
    {
        let (delta, value) = match plan(alloc, &self.rows, command, moment) {
            Ok(plan) => plan,
            Err(PlanFault::Refused(refused)) => return Err(CommitFault::Refused(refused)),
            Err(PlanFault::NoMemory) => return Err(CommitFault::NoMemory),
        };
        if self.number >= MOST_ENTRIES {
            return Err(CommitFault::Refused(Refused {
                op: 0,
                broken: Broken::HistoryFull,
            }));
        }
        let bytes = encode_changes(alloc, delta.changes.as_slice())?;
        let shared = make_ready(alloc, &mut self.rows, &mut self.queue, &delta)?;
        match self.keeper.apply(bytes.as_slice(), self.number + 1) {
            Ok(()) => {
                self.rows.apply(delta);
                self.queue.push(shared);
                self.number += 1;
                Ok(Done {
                    front: self.number,
                    value,
                })
            }
            Err(KeepFault::Failed) => Err(CommitFault::StoreFailed),
            Err(KeepFault::NoMemory) => Err(CommitFault::NoMemory),
        }
    }

    /// Publishes the copy after all accepted entries, and answers its front. The rows, the number and the
    /// keeper stay. Where nothing is pending it takes no memory. Want of memory is the only error, and
    /// nothing changes then.
    pub fn catch_up(&mut self, alloc: Global) -> Result<u64, NoMemory>
        ensures ok { OnOk result (CatchesUp self.old self.new) }
        ensures front { IfOk result (λ front. front ≡ self.new.number) }
        ensures wanted { OnErr result (0 < length self.old.pending) }
        ensures err { OnErr result (self.new ≡ self.old) }
        ensures shop { IsShop self.new }
    {
        if self.queue.pending() == 0 {
            return Ok(self.queue.front());
        }
        let _front = self.queue.catch_up(alloc)?;
        Ok(self.queue.front())
    }

    /// The published copy and the first pending deltas, as many as are asked for, or all where they are
    /// fewer: what the next copy is built of. Want of memory is the only error.
    pub fn batch(&self, alloc: Global, most: usize) -> Result<Batch, NoMemory>
        requires { 1 ≤ most }
        ensures copy { IfOk result (λ batch. arc_value batch.copy ≡ self.now.copy) }
        ensures deltas { IfOk result (λ batch. changes_in batch.deltas ≡ take most self.now.pending) }
        // The next copy may be built of them.
        ensures fits { IfOk result (λ batch. (arc_value batch.copy).front + length batch.deltas < 2 ^ 63) }
        ensures keys { IfOk result (λ batch. EachFits (changes_in batch.deltas)) }
        ensures sound { IfOk result (λ batch. AreSound (rows_after (arc_value batch.copy).rows (changes_in batch.deltas))) }
    {
        self.queue.batch(alloc, most)
    }

    /// Publishes a copy that was built of the published one and the first pending deltas, and answers
    /// its front. The rows, the number and the keeper stay. It takes no memory.
    ///
    /// # Errors
    ///
    /// `Older` comes exactly where its front isn't above that of the published one. Nothing changes
    /// then.
    pub fn install(&mut self, copy: Arc<IndexCopy>) -> Result<u64, Older>
        requires front { (arc_value copy).front ≤ self.old.number }
        requires rows { self.old.copy.front < (arc_value copy).front → (arc_value copy).rows ≡ rows_after self.old.copy.rows (take ((arc_value copy).front - self.old.copy.front) self.old.pending) }
        ensures installs { Installs self.old (arc_value copy) result self.new }
        ensures shop { IsShop self.new }
    {
        // What always holds of a queue is known once it is read.
        let _published = self.queue.front();
        let installed = self.queue.install(copy);
        let _front = self.queue.front();
        installed
    }

    /// The published copy, shared. Want of memory is the only error.
    pub fn published(&self) -> Result<Arc<IndexCopy>, NoMemory>
        ensures copy { IfOk result (λ copy. arc_value copy ≡ self.now.copy) }
        ensures shop { IsShop self.now }
    {
        self.queue.published()
    }

    /// What a question about all rows is answered by the published copy, lent as long as the shop stays as
    /// it is. Only a page of a listing takes memory.
    ///
    /// # Errors
    ///
    /// `Refused` with `NoSuchRow` comes exactly where there is no such live category, stream or product, and
    /// `NoMemory` only of a page, where memory is refused.
    pub fn ask<'a>(&'a self, alloc: Global, query: &Query) -> Result<Answer<'a>, AskFault>
        ensures answers { known.Answers self.entry.now.copy.rows query.now result }
        ensures shop { IsShop self.entry.now }
    {
        self.queue.copy().ask(alloc, query)
    }

    /// The front of the published copy: how many accepted entries it has taken in. It takes no memory.
    pub fn front(&self) -> u64
        ensures front { result ≡ self.now.copy.front }
        ensures shop { IsShop self.now }
    {
        self.queue.front()
    }

    /// The row that a read asks for, with what is shown of it: a product or a category in the read's
    /// language, that one's parent and the system language, and a product with what it inherits
    /// where that is asked for. It is a copy, and so costs memory; `see_row` lends.
    ///
    /// # Errors
    ///
    /// `Refused` comes exactly where the read breaks a rule, with the first in this order:
    /// `UnknownEntity` where no entity has the name, `WrongKind` of `second` where a second part is
    /// given for a key of one part or is missing for one of two, `NoSuchVersion` where the version is
    /// neither live nor a draft's, and `NoSuchRow` where no row has the key. `NoMemory` comes where
    /// memory is refused.
    #[tactic(auto, using(crate::proofs::ReadWords::shown_first, crate::proofs::ReadWords::shown_kept))]
    pub fn read_row(&self, alloc: Global, read: &RowRead) -> Result<RowReply, AskFault>
        ensures shows { Shows result (reading self.now.rows read.now) }
        // In words: the refusal is by the first broken rule, and what is shown breaks none.
        ensures first { IfErr result (NamesFirst self.now.rows read.now) }
        ensures kept { OnOk result (KeepsRules self.now.rows read.now) }
        ensures shop { IsShop self.now }
    {
        copy_row(alloc, &self.rows, read)
    }

    /// The same row with what is shown of it, lent as long as the shop stays as it is.
    ///
    /// # Errors
    ///
    /// Those of `read_row`.
    #[tactic(auto, using(crate::proofs::ReadWords::seen_first, crate::proofs::ReadWords::seen_kept))]
    pub fn see_row<'a>(&'a self, alloc: Global, read: &RowRead) -> Result<RowSeen<'a>, AskFault>
        ensures sees { Sees result (reading self.entry.now.rows read.now) }
        // In words: the refusal is by the first broken rule, and what is shown breaks none.
        ensures first { IfErr result (NamesFirst self.entry.now.rows read.now) }
        ensures kept { OnOk result (KeepsRules self.entry.now.rows read.now) }
        ensures shop { IsShop self.entry.now }
    {
        see_row(alloc, &self.rows, read)
    }

    /// The first 100 live rows of the entity above a place in the order of keys, or all of them where
    /// they are fewer. Nothing is shown beside their own fields.
    ///
    /// # Errors
    ///
    /// `Refused` with `UnknownEntity` comes exactly where no entity has the name, and `NoMemory` where
    /// memory is refused.
    pub fn read_list(
        &self,
        alloc: Global,
        entity: &[u8],
        id: u128,
        second: u128,
    ) -> Result<List<RowReply>, AskFault>
        ensures shows { Shows result (with_bare (listing self.now.rows entity.now id second)) }
        ensures shop { IsShop self.now }
    {
        copy_list(alloc, &self.rows, entity, id, second)
    }

    /// The same rows, lent as long as the shop stays as it is.
    ///
    /// # Errors
    ///
    /// Those of `read_list`.
    pub fn see_list<'a>(
        &'a self,
        alloc: Global,
        entity: &[u8],
        id: u128,
        second: u128,
    ) -> Result<Vec<&'a Row>, AskFault>
        ensures sees { SeesRows result (listing self.entry.now.rows entity.now id second) }
        ensures shop { IsShop self.entry.now }
    {
        see_list(alloc, &self.rows, entity, id, second)
    }

    /// The live cart with that id as it is settled at a moment by the present rows, and how many
    /// entries were accepted by then. Nothing is changed.
    ///
    /// # Errors
    ///
    /// `NoSuchCart` comes exactly where there is no such cart, `Unstable` exactly where no two of its
    /// seven rounds in a row give the same, and `NoMemory` where memory is refused.
    #[tactic(auto, using(crate::proofs::SoundCarts::sound_rows, crate::proofs::SoundCarts::reads, crate::proofs::SoundCarts::refuses))]
    pub fn read_cart(
        &self,
        alloc: Global,
        cart: u128,
        moment: Moment,
    ) -> Result<(u64, Settled), CartRefused>
        requires moment { IsMoment moment }
        ensures reads { ReadsCart self.now cart moment result }
        // In words: it is settled so, or isn't for that cause.
        ensures settled { MatchResult result (λ answer. IsSettled self.now.rows cart moment answer.1) (IsRefused self.now.rows cart moment) }
        ensures shop { IsShop self.now }
    {
        match settle(alloc, &self.rows, cart, moment) {
            Ok(settled) => Ok((self.number, settled)),
            Err(fault) => Err(fault),
        }
    }

    /// Answers what a cart is settled at.
    #[tactic(auto, using(crate::proofs::SoundCarts::shows, crate::proofs::SoundCarts::shows_none))]
    fn show_cart(&self, alloc: Global, cart: u128, moment: Moment) -> Reply
        requires moment { IsMoment moment }
        ensures answers { IsRead self.now result (cart_answer self.now.rows self.now.number cart moment) self.now }
        ensures shop { IsShop self.now }
    {
        match self.read_cart(alloc, cart, moment) {
            Ok((front, settled)) => Reply::Cart { front, settled },
            Err(fault) => not_settled(cart, fault),
        }
    }

    /// Catches up, and answers what a cart is settled at.
    fn answer_cart(&mut self, alloc: Global, cart: u128, moment: Moment) -> Reply
        requires moment { IsMoment moment }
        ensures answers { IsReadCaughtUp self.old result (cart_answer self.old.rows self.old.number cart moment) self.new }
        ensures shop { IsShop self.new }
    {
        match self.catch_up(alloc) {
            Ok(_) => self.show_cart(alloc, cart, moment),
            Err(_) => Reply::NoMemory,
        }
    }

    /// Answers a question about all rows by the published copy.
    fn show_known(&self, alloc: Global, query: &Query) -> Reply
        ensures tells { Tells result (direct_reply self.now.copy.rows self.now.copy.front query.now) }
    {
        match self.ask(alloc, query) {
            Ok(answer) => told(alloc, self.front(), answer),
            Err(AskFault::Refused(broken)) => refused_at(self.front(), broken),
            Err(AskFault::NoMemory) => Reply::NoMemory,
        }
    }

    /// Catches up, and answers a question about all rows, unless more entries are asked for than there are.
    fn answer_known(&mut self, alloc: Global, query: &Query, min_front: u64) -> Reply
        ensures answers { IsTold self.old result query.now min_front self.new }
        ensures shop { IsShop self.new }
    {
        if min_front > self.number {
            return Reply::FrontUnknown {
                asked: min_front,
                have: self.number,
            };
        }
        match self.catch_up(alloc) {
            Ok(_) => self.show_known(alloc, query),
            Err(_) => Reply::NoMemory,
        }
    }

    /// Answers a write, and then catches up.
    fn answer_write(&mut self, alloc: Global, command: &Command, moment: Moment) -> Reply
        requires built { IsBuilt command.now }
        requires moment { IsMoment moment }
        ensures answers { IsWritten self.old result moment command.now self.new }
        ensures shop { IsShop self.new }
    {
        let reply = written(self.commit(alloc, command, moment));
        // A write stands also where no memory is left to publish it.
        let _ = self.catch_up(alloc);
        reply
    }

    /// Answers one request that is built: a write as `commit` does, after which the shop catches up; and a
    /// read as `read_row`, `read_list`, `ask` or `read_cart` does, which changes nothing, but that the shop
    /// catches up before a question about all rows and before a cart.
    pub fn answer(&mut self, alloc: Global, request: &Request, moment: Moment) -> Reply
        requires built { IsBuiltRequest request.now }
        requires moment { IsMoment moment }
        ensures answers { Answers self.old request.now moment result self.new }
        ensures shop { IsShop self.new }
    {
        match request {
            Request::Write(command) => self.answer_write(alloc, command, moment),
            Request::Row(read) => match self.read_row(alloc, read) {
                Ok(reply) => Reply::Row(reply),
                Err(fault) => not_shown(fault),
            },
            Request::RowList { entity, id, second } => {
                match self.read_list(alloc, entity.as_bytes(), *id, *second) {
                    Ok(rows) => Reply::RowList(rows),
                    Err(fault) => not_shown(fault),
                }
            }
            Request::Indexed { query, min_front } => self.answer_known(alloc, query, *min_front),
            Request::Cart { cart } => self.answer_cart(alloc, *cart, moment),
            Request::Front => Reply::Front {
                accepted: self.number,
                published: self.queue.front(),
            },
        }
    }

    /// How many entries were accepted, with those that the keeper's number counted when the shop was
    /// opened. It takes no memory.
    pub fn accepted(&self) -> u64
        ensures { result ≡ self.now.number }
    {
        self.number
    }

    /// The rows.
    pub fn rows(&self) -> &Rows
        ensures rows { result.now.list ≡ self.now.rows }
        ensures shop { IsShop self.now }
    {
        &self.rows
    }

    /// The keeper, which holds the rows and the number where it tells. It takes no memory.
    pub fn close(self) -> P
        ensures content { P.content result ≡ self.content }
        ensures faults { P.keep_faults result ≡ self.faults }
        ensures shop { IsShop self }
    {
        let ShopState {
            rows: _,
            keeper,
            number: _,
            queue: _,
        } = self;
        keeper
    }
}
