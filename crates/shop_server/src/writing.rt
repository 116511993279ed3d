//! Bytes that are written whole.
ghost use Rattle.std.specs.Prelude.{◌≡◌, ◌<◌, List, ℕ, length, OnOk, OnErr};
ghost use Rattle.std.specs.Io.KnownBytes.{Appends};
ghost use Rattle.shop_outside.specs.Causes.{Rose};
ghost use Rattle.shop_server.specs.Session.{IsFront};

use shop_outside::{Failed, Sink};

/// Writes all of the bytes, or a front of them where a write failed.
pub(crate) fn write_whole<K: Sink>(sink: &mut K, bytes: &[u8]) -> Result<(), Failed>
    ensures wrote { (front : List ℕ) × IsFront front bytes.now
        × Appends (K.written sink.old) (K.written sink.new) front × OnOk result (front ≡ bytes.now) }
    ensures failed { OnErr result (Rose (K.write_faults sink.old) (K.write_faults sink.new)) }
    ensures kept { OnOk result (K.write_faults sink.new ≡ K.write_faults sink.old) }
    ensures some { OnErr result (0 < length bytes.now) }
    ensures beside { K.past_writes sink.new ≡ K.past_writes sink.old }
{
    let mut done = 0;
    while done < bytes.len() {
        done += sink.write(&bytes[done..])?;
    }
    Ok(())
}
