//! What a command changes, as rows and as the bytes that are kept of them.
ghost use Rattle.std.specs.Prelude.{◌≡◌, IfOk, OnOk};
ghost use Rattle.std.specs.Option.{IfSome, option_map};
ghost use Rattle.shop_check.specs.Soundness.{AreSound};
ghost use Rattle.shop_kept.specs.Spelling.{FitsRow, IsKeptRow, kept_row};
ghost use Rattle.shop_core.specs.Plans.{Plans, encoded, AreKeptRows, FitTheFormat};
ghost use Rattle.shop_core.specs.Steps.{IsBuilt};

use shop_defs::{Delta, Key, List, NoMemory, PlanFault, Row};
use shop_kept::encode_row;
use shop_outside::Moment;
use shop_requests::Command;
use shop_rows::Rows;
use shop_write::plan as plan_batch;
use std::alloc::Global;

/// What the command changes of the rows, and its value, by all rules but that on the length of the
/// history.
pub(crate) fn plan(
    alloc: Global,
    rows: &Rows,
    command: &Command,
    moment: Moment,
) -> Result<(Delta, i64), PlanFault>
    requires built { IsBuilt command.now }
    requires sound { AreSound rows.now.list }
    ensures { Plans rows.now.list command.now moment result }
{
    // No command that is built yet looks at the moment.
    let _ = moment;
    match command {
        Command::Sync { version: _, ops } => {
            let delta = plan_batch(alloc, rows, ops)?;
            Ok((delta, ops.len() as i64))
        }
        _ => unreachable!(),
    }
}

fn encode_change(alloc: Global, row: &Option<Row>) -> Result<Option<List<u8>>, NoMemory>
    requires { IfSome row.now FitsRow }
    ensures bytes { IfOk result (λ bytes. bytes ≡ option_map kept_row row.now) }
    ensures kept { OnOk result (IfSome row.now IsKeptRow) }
{
    match row {
        None => Ok(None),
        Some(row) => Ok(Some(encode_row(alloc, row)?)),
    }
}

/// The changes as they are kept.
pub(crate) fn encode_changes(
    alloc: Global,
    changes: &[(Key, Option<Row>)],
) -> Result<List<(Key, Option<List<u8>>)>, NoMemory>
    requires { FitTheFormat changes.now }
    ensures bytes { IfOk result (λ bytes. bytes ≡ encoded changes.now) }
    ensures kept { OnOk result (AreKeptRows changes.now) }
{
    let mut bytes = List::from_vec(Vec::with_capacity(alloc, changes.len())?);
    for (key, row) in changes {
        bytes.push((*key, encode_change(alloc, row)?))?;
    }
    Ok(bytes)
}
