//! What is published of a shop that is opened, and what a command that is accepted wants memory for.
ghost use Rattle.std.specs.Prelude.{◌≡◌, ◌<◌, ◌≤◌, ◌^◌, Some, [], IfOk, OnOk};
ghost use Rattle.shop_check.specs.Soundness.{AreSound};
ghost use Rattle.idx_copy.specs.Fronts.{changes_of};
ghost use Rattle.publishing.specs.Queues.{IsQueue, StaysAs};

use idx_copy::IndexCopy;
use publishing::Queue;
use shop_defs::{Copied, Delta, NoMemory};
use shop_rows::Rows;
use std::alloc::Global;
use std::sync::Arc;

/// The copy of these rows, which stand after so many entries, with nothing pending.
pub(crate) fn first_queue(alloc: Global, rows: &Rows, number: u64) -> Result<Queue, NoMemory>
    requires sound { AreSound rows.now.list }
    requires number { number < 2 ^ 63 }
    ensures front { IfOk result (λ queue. queue.copy.front ≡ number) }
    ensures rows { IfOk result (λ queue. queue.copy.rows ≡ rows.now.list) }
    ensures pending { IfOk result (λ queue. queue.pending ≡ []) }
    ensures queue { IfOk result (λ queue. IsQueue queue.copy queue.pending) }
{
    let copied = rows.copy(alloc)?;
    let copy = IndexCopy::first(alloc, number, copied)?;
    let shared = Arc::new(alloc, copy)?;
    let queue = Queue::over(alloc, shared);
    // What always holds of a queue is known once it is read.
    let _front = queue.front();
    Ok(queue)
}

/// Takes all memory that a delta wants: room in the rows and behind the pending deltas, and a copy of it
/// that can be shared.
pub(crate) fn make_ready(
    alloc: Global,
    rows: &mut Rows,
    queue: &mut Queue,
    delta: &Delta,
) -> Result<Arc<Delta>, NoMemory>
    ensures list { rows.new.list ≡ rows.old.list }
    ensures queue { StaysAs queue.old queue.new }
    ensures spare { OnOk result (rows.new.spare ≡ Some delta.now) }
    ensures room { OnOk result (1 ≤ queue.new.room) }
    ensures delta { IfOk result (λ shared. changes_of shared ≡ delta.now.changes) }
{
    queue.reserve()?;
    rows.reserve(delta)?;
    let copy = delta.copy(alloc)?;
    Ok(Arc::new(alloc, copy)?)
}
