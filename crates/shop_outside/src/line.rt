//! Where bytes come from and where they go.
ghost use Rattle.std.specs.Prelude.{◌≡◌, ◌≤◌, List, ℕ, length, IfOk, Option};
ghost use Rattle.std.specs.Io.KnownBytes.{ReadConsumes, WriteAppends};
ghost use Rattle.shop_outside.specs.Causes.{HasCause, Half, Takes};

use crate::failed::Failed;

/// Where bytes come from.
pub trait Source {
    /// The bytes that are left to read, where they are told.
    ghost left: { Self → Option (List ℕ) };

    /// How often a read has failed.
    ghost read_faults: { Self → ℕ };

    /// What a read leaves as it was.
    ghost past_reads: { Self → Half };

    /// Reads bytes to the front of `into` and says how many. Into a place that isn't empty it reads
    /// at least one byte, or none at the end.
    ///
    /// # Errors
    ///
    /// `Failed` where the count of faults rose or stands at its last value. What is left stays.
    fn read(&mut self, into: &mut [u8]) -> Result<usize, Failed>
        ensures within { IfOk result (λ n. n ≤ length into.new) }
        ensures bytes { ReadConsumes (left self.old) (left self.new) result into.new }
        ensures cause { HasCause (read_faults self.old) (read_faults self.new) result }
        ensures beside { past_reads self.new ≡ past_reads self.old };
}

/// Where bytes go.
pub trait Sink {
    /// The bytes that were written, where they are told.
    ghost written: { Self → Option (List ℕ) };

    /// How often a write has failed.
    ghost write_faults: { Self → ℕ };

    /// What a write leaves as it was.
    ghost past_writes: { Self → Half };

    /// Writes a front of the piece and says how many bytes it took: at least one of a piece that
    /// isn't empty.
    ///
    /// # Errors
    ///
    /// `Failed` where the count of faults rose or stands at its last value, as also where it can
    /// take none of a piece that isn't empty. It writes nothing then.
    fn write(&mut self, piece: &[u8]) -> Result<usize, Failed>
        ensures takes { Takes piece.now result }
        ensures bytes { WriteAppends (written self.old) (written self.new) result piece.now }
        ensures cause { HasCause (write_faults self.old) (write_faults self.new) result }
        ensures beside { past_writes self.new ≡ past_writes self.old };
}
