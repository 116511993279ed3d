//! The queue.
ghost use Rattle.std.specs.Prelude.{◌≡◌, ◌+◌, ◌-◌, ◌≤◌, ◌<◌, ◌^◌, ◌++◌, ◌∷◌, [], drop, take, length, IfOk, OnOk, OnErr};
ghost use Rattle.std.specs.Arc.{arc_value};
ghost use Rattle.std.specs.Vec.{vec_len, vec_capacity};
ghost use Rattle.shop_defs.specs.Rows.{change_rows};
ghost use Rattle.shop_rows.specs.Changing.{StandUnderTheirKeys};
ghost use Rattle.shop_check.specs.Soundness.{AreSound};
ghost use Rattle.idx_copy.specs.Fronts.{rows_after, changes_of, changes_in, EachFits};
ghost use Rattle.publishing.specs.Queues.{QueueView, IsQueue, Installs, StaysAs};

use idx_copy::IndexCopy;
use shop_defs::{Delta, List, NoMemory};
use std::alloc::Global;
use std::marker::Model;
use std::sync::Arc;

/// A copy that isn't above the published one.
#[derive(Drop, Clone, Copy)]
pub struct Older {
    /// Its front.
    pub mine: u64,
    /// The front of the published copy.
    pub published: u64,
}

/// What the next copy is built of.
#[derive(Drop)]
pub struct Batch {
    /// The published copy.
    pub copy: Arc<IndexCopy>,
    /// The first pending deltas.
    pub deltas: List<Arc<Delta>>,
}

/// The published copy, and the deltas that lead on from it, one after the other.
///
/// Contracts see the copy, the changes of each delta, and how many more deltas there is room for.
#[derive(Drop)]
pub struct Queue {
    copy: Arc<IndexCopy>,
    pending: Vec<Arc<Delta>>,
}

impl Model for Queue {
    ghost use Rattle.std.specs.Prelude.{◌-◌};
    ghost use Rattle.std.specs.Arc.{arc_value};
    ghost use Rattle.std.specs.Vec.{vec_len, vec_capacity};
    ghost use Rattle.idx_copy.specs.Fronts.{changes_in};
    ghost use Rattle.publishing.specs.Queues.{QueueView, IsQueue};

    ghost Value = { QueueView };

    ghost view = { λ q. record { copy = arc_value q.copy; pending = changes_in q.pending.items; room = vec_capacity q.pending - vec_len q.pending } };

    ghost invariant = { λ q. IsQueue (arc_value q.copy) (changes_in q.pending.items) };
}

impl Queue {
    /// A queue with nothing pending. It takes no memory.
    pub fn over(alloc: Global, copy: Arc<IndexCopy>) -> Queue
        requires { (arc_value copy).front < 2 ^ 63 }
        ensures copy { result.copy ≡ arc_value copy }
        ensures pending { result.pending ≡ [] }
    {
        // What always holds of a copy is known once it is read.
        let _rows = copy.rows();
        Queue {
            copy,
            pending: Vec::new(alloc),
        }
    }

    /// The front of the published copy. It takes no memory.
    pub fn front(&self) -> u64
        ensures front { result ≡ self.now.copy.front }
        ensures queue { IsQueue self.now.copy self.now.pending }
    {
        self.copy.front()
    }

    /// How many deltas are pending. It takes no memory.
    pub fn pending(&self) -> usize
        ensures count { result ≡ length self.now.pending }
        ensures queue { IsQueue self.now.copy self.now.pending }
    {
        self.pending.len()
    }

    /// The published copy, lent. It takes no memory.
    pub fn copy(&self) -> &IndexCopy
        ensures copy { result.now ≡ self.now.copy }
        ensures queue { IsQueue self.now.copy self.now.pending }
    {
        &self.copy
    }

    /// The published copy, shared. Want of memory is the only error.
    pub fn published(&self) -> Result<Arc<IndexCopy>, NoMemory>
        ensures copy { IfOk result (λ copy. arc_value copy ≡ self.now.copy) }
        ensures queue { IsQueue self.now.copy self.now.pending }
    {
        let copy = Arc::try_clone(&self.copy)?;
        Ok(copy)
    }

    /// Makes room for one more delta. Want of memory is the only error.
    pub fn reserve(&mut self) -> Result<(), NoMemory>
        ensures same { StaysAs self.old self.new }
        ensures room { OnOk result (1 ≤ self.new.room) }
    {
        self.pending.reserve(1)?;
        Ok(())
    }

    /// Puts a delta behind the pending ones, where there is room. It takes no memory.
    pub fn push(&mut self, delta: Arc<Delta>)
        requires room { 1 ≤ self.old.room }
        requires front { self.old.copy.front + length self.old.pending + 1 < 2 ^ 63 }
        requires keys { StandUnderTheirKeys (changes_of delta) }
        requires sound { AreSound (change_rows (rows_after self.old.copy.rows self.old.pending) (changes_of delta)) }
        ensures copy { self.new.copy ≡ self.old.copy }
        ensures pending { self.new.pending ≡ self.old.pending ++ changes_of delta ∷ [] }
    {
        push_in_room(&mut self.pending, delta);
    }

    /// The published copy and the first pending deltas: as many as are asked for, or all where they are
    /// fewer. Want of memory is the only error.
    pub fn batch(&self, alloc: Global, most: usize) -> Result<Batch, NoMemory>
        requires { 1 ≤ most }
        ensures copy { IfOk result (λ batch. arc_value batch.copy ≡ self.now.copy) }
        ensures deltas { IfOk result (λ batch. changes_in batch.deltas ≡ take most self.now.pending) }
        // The next copy may be built of them.
        ensures fits { IfOk result (λ batch. (arc_value batch.copy).front + length batch.deltas < 2 ^ 63) }
        ensures keys { IfOk result (λ batch. EachFits (changes_in batch.deltas)) }
        ensures sound { IfOk result (λ batch. AreSound (rows_after (arc_value batch.copy).rows (changes_in batch.deltas))) }
    {
        let copy = Arc::try_clone(&self.copy)?;
        let deltas = first_of(alloc, self.pending.as_slice(), most)?;
        Ok(Batch { copy, deltas })
    }

    /// Publishes a copy that was built of the published one and the first pending deltas, and answers
    /// its front. It takes no memory.
    ///
    /// # Errors
    ///
    /// `Older` comes exactly where its front isn't above that of the published one. Nothing changes
    /// then.
    pub fn install(&mut self, copy: Arc<IndexCopy>) -> Result<u64, Older>
        requires front { (arc_value copy).front ≤ self.old.copy.front + length self.old.pending }
        requires rows { self.old.copy.front < (arc_value copy).front → (arc_value copy).rows ≡ rows_after self.old.copy.rows (take ((arc_value copy).front - self.old.copy.front) self.old.pending) }
        ensures { Installs self.old (arc_value copy) result self.new }
    {
        // What always holds of a copy is known once it is read.
        let _rows = copy.rows();
        let mine = copy.front();
        let published = self.copy.front();
        if mine <= published {
            return Err(Older { mine, published });
        }
        drop_first(&mut self.pending, (mine - published) as usize);
        self.copy = copy;
        Ok(mine)
    }

    /// Publishes the copy after all pending deltas, and answers its front. Want of memory is the only
    /// error, and nothing changes then.
    pub fn catch_up(&mut self, alloc: Global) -> Result<u64, NoMemory>
        ensures answer { IfOk result (λ front. front ≡ self.new.copy.front) }
        ensures front { OnOk result (self.new.copy.front ≡ self.old.copy.front + length self.old.pending) }
        ensures rows { OnOk result (self.new.copy.rows ≡ rows_after self.old.copy.rows self.old.pending) }
        ensures pending { OnOk result (self.new.pending ≡ []) }
        ensures err { OnErr result (self.new ≡ self.old) }
    {
        let copy = self.copy.next(alloc, self.pending.as_slice())?;
        let front = copy.front();
        let shared = Arc::new(alloc, copy)?;
        self.copy = shared;
        self.pending.clear();
        Ok(front)
    }
}

/// Puts an item at the end where there is room, so that no memory is wanted.
fn push_in_room<T: Drop>(items: &mut Vec<T>, item: T)
    requires { vec_len items.old + 1 ≤ vec_capacity items.old }
    ensures { items.new.items ≡ items.old.items ++ item ∷ [] }
{
    match items.push(item) {
        Ok(()) => {}
        Err(_) => unreachable!(),
    }
}

/// The first deltas, shared.
fn first_of(alloc: Global, deltas: &[Arc<Delta>], most: usize) -> Result<List<Arc<Delta>>, NoMemory>
    ensures { IfOk result (λ first. changes_in first ≡ take most (changes_in deltas.now)) }
{
    let mut first = Vec::new(alloc);
    for delta in &deltas[..most.min(deltas.len())] {
        first.push(Arc::try_clone(delta)?)?;
    }
    Ok(List::from_vec(first))
}

/// Takes off the first elements.
fn drop_first<T: Drop>(items: &mut Vec<T>, count: usize)
    requires { count ≤ length items.old.items }
    ensures { items.new.items ≡ drop count items.old.items }
{
    let left = items.len() - count;
    items.rotate_left(count);
    items.truncate(left);
}
