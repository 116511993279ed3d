//! The word `check`: whether what a keeper holds is a shop.
ghost use Rattle.std.specs.Prelude.{◌≡◌, IfOk, List, Option, ℕ, ℤ};
ghost use Rattle.shop_outside.specs.Causes.{Rose};
ghost use Rattle.shop_server.specs.Run.{HasChecked, HasReportedText, ReportsFault};

use crate::reports::{counts, damage};
use crate::status::Status;
use crate::writing::write_whole;
use shop_core::{OpenFault, open_shop};
use shop_defs::NoMemory;
use shop_outside::{Keeper, Sink};
use std::alloc::Global;

/// Writes a report, and gives the status that goes with it: 4 where a write failed, and 9 where there was no memory for it.
fn report<K: Sink>(sink: &mut K, text: Result<Vec<u8>, NoMemory>, number: u8) -> Status
    ensures reported { (wanted : List ℕ) → IfOk text (λ t. t.items ≡ wanted)
        → HasReportedText (K.written sink.old) (K.written sink.new) wanted number result.number }
    ensures failed { (number ≡ 4 → ⊥) → result.number ≡ 4 → Rose (K.write_faults sink.old) (K.write_faults sink.new) }
    ensures kept { (result.number ≡ 4 → ⊥) → K.write_faults sink.new ≡ K.write_faults sink.old }
{
    let Ok(text) = text else {
        return Status { number: 9 };
    };
    match write_whole(sink, text.as_slice()) {
        Ok(()) => Status { number },
        Err(_) => Status { number: 4 },
    }
}

/// Reports damage. Of another fault, only the status tells.
fn report_fault<K: Sink>(alloc: Global, sink: &mut K, fault: &OpenFault) -> Status
    ensures reported { ReportsFault fault.now (K.written sink.old) (K.written sink.new) result.number }
    ensures failed { result.number ≡ 4 → Rose (K.write_faults sink.old) (K.write_faults sink.new) }
    ensures kept { (result.number ≡ 4 → ⊥) → K.write_faults sink.new ≡ K.write_faults sink.old }
{
    match fault {
        OpenFault::Damaged { key, rule } => {
            let text = damage(alloc, key, *rule);
            report(sink, text, 7)
        }
        OpenFault::StoreFault => Status { number: 5 },
        OpenFault::NoMemory => Status { number: 9 },
    }
}

/// Opens the shop that the keeper holds, and reports how many rows it has and how many entries led to them, or which row is
/// damaged first. The keeper comes back with what it held.
pub(crate) fn check<K: Sink, P: Keeper + Drop>(
    alloc: Global,
    sink: &mut K,
    keeper: P,
) -> (P, Status)
    ensures checked { (left : Option (List ℕ)) (coming : Option (ℕ → ℤ)) → HasChecked
        (record { left = left; written = K.written sink.old; content = P.content keeper; faults = P.keep_faults keeper; coming = coming })
        (record { left = left; written = K.written sink.new; content = P.content result.0; faults = P.keep_faults result.0; coming = coming })
        result.1.number }
    ensures failed { result.1.number ≡ 4 → Rose (K.write_faults sink.old) (K.write_faults sink.new) }
    ensures kept { (result.1.number ≡ 4 → ⊥) → K.write_faults sink.new ≡ K.write_faults sink.old }
{
    match open_shop(alloc, keeper) {
        Ok(shop) => {
            let text = counts(alloc, shop.rows().len(), shop.accepted());
            let status = report(sink, text, 0);
            (shop.close(), status)
        }
        Err((keeper, fault)) => {
            let status = report_fault(alloc, sink, &fault);
            (keeper, status)
        }
    }
}
