//! A draft is dropped.
ghost use Rattle.std.specs.Prelude.{◌≡◌, ◌≢◌, Some, IfOk, map, filter};
ghost use Rattle.shop_defs.specs.declared.refused.PlanFault.TheVariants as faults;
ghost use Rattle.shop_defs.specs.Rows.{row_at};
ghost use Rattle.shop_drafts.specs.Drafts.{draft_key};
ghost use Rattle.shop_drafts.specs.Making as spec;
ghost use Rattle.shop_drafts.specs.Soundness.{AreDrafted};
ghost use Rattle.shop_version.specs.Laws.{LeavesDrop};
ghost use Rattle.shop_version.specs.Plans.{Plans};
ghost use Rattle.shop_version.specs.Taking.{take_out};
ghost use Rattle.shop_write.specs.Growth.{taken_out};

use crate::drafts::{all_keys, draft_of};
use shop_defs::{Broken, Delta, Key, List, NoMemory, PlanFault, Refused, Row};
use shop_rows::Rows;
use std::alloc::Global;

/// What dropping the draft of that version changes: its row, its commits and its rows are taken out.
///
/// `NoSuchVersion` comes exactly where there is no such draft. The other error is want of memory. It
/// costs in proportion to what is taken out.
pub fn plan_drop(alloc: Global, rows: &Rows, version: u128) -> Result<Delta, PlanFault>
    requires drafted { AreDrafted rows.now.list }
    requires not_live { version ≢ 0 }
    ensures plan { Plans rows.now.list (spec.drop_draft rows.now.list version) result }
    // What they leave, in words.
    ensures leaves { LeavesDrop rows.now.list version result }
{
    match draft_of(rows, version) {
        Some(draft) => Ok(losses(alloc, rows, version, draft)?),
        None => Err(refused(Broken::NoSuchVersion { version })),
    }
}

/// The refusal, which no operation breaks.
pub(crate) fn refused(broken: Broken) -> PlanFault
    ensures { result ≡ faults.Refused (record { op = 0; broken = broken }) }
{
    PlanFault::Refused(Refused { op: 0, broken })
}

/// Takes out what is of the draft, of which this is the row. Want of memory is the only error, here and
/// below.
pub(crate) fn losses(
    alloc: Global,
    rows: &Rows,
    version: u128,
    draft: &Row,
) -> Result<Delta, NoMemory>
    requires drafted { AreDrafted rows.now.list }
    requires not_live { version ≢ 0 }
    requires draft { row_at rows.now.list (draft_key version) ≡ Some draft.now }
    ensures { IfOk result (λ delta. delta.changes ≡ map taken_out (filter (spec.is_of_draft version) rows.now.list)) }
{
    let keys = all_keys(alloc, rows, version, draft)?;
    let changes = taken(alloc, keys.as_slice())?;
    Ok(Delta { changes })
}

/// The changes that take out the rows at the keys.
fn taken(alloc: Global, keys: &[Key]) -> Result<List<(Key, Option<Row>)>, NoMemory>
    ensures { IfOk result (λ changes. changes ≡ map take_out keys.now) }
{
    let mut changes = List::new(alloc);
    for key in keys {
        changes.push((*key, None))?;
    }
    Ok(changes)
}
