//! A source over a reader and a sink over a writer.
ghost use Rattle.std.specs.Prelude.{◌≡◌, ◌≤◌, length, None, [], IfOk, OnErr};
ghost use Rattle.std.specs.Io.KnownBytes.{ReadConsumes, WriteAppends};
ghost use Rattle.shop_outside.specs.Causes.{Half, Takes};

use crate::failed::Failed;
use crate::line::{Sink, Source};
use std::io::{ErrorKind, Read, Write};

/// A source over a reader. It tells what the reader tells.
#[derive(Drop)]
pub struct ReaderSource<R: Read> {
    inner: R,
    faults: u64,
}

impl<R: Read> ReaderSource<R> {
    /// A source that reads from `inner`.
    pub fn new(inner: R) -> ReaderSource<R>
        ensures left { ⟦<ReaderSource<R> as Source>⟧.left result ≡ R.remaining inner }
        ensures faults { ⟦<ReaderSource<R> as Source>⟧.read_faults result ≡ 0 }
    {
        ReaderSource { inner, faults: 0 }
    }
}

/// Reads, and again for as long as a signal interrupts the call (POSIX's `EINTR`).
#[tactic(auto, using(crate::proofs::Known::reading))]
pub(crate) fn read_again<R: Read>(inner: &mut R, into: &mut [u8]) -> Result<usize, Failed>
    ensures within { IfOk result (λ n. n ≤ length into.new) }
    ensures bytes { ReadConsumes (R.remaining inner.old) (R.remaining inner.new) result into.new }
{
    'calls: for _ in 0..u64::MAX {
        match inner.read(into) {
            Ok(count) => return Ok(count),
            Err(error) if error.kind() == ErrorKind::Interrupted => {}
            Err(_) => return Err(Failed),
        }
    }
    Err(Failed)
}

impl<R: Read> Source for ReaderSource<R> {
    ghost left = { λ s. R.remaining s.inner };

    ghost read_faults = { λ s. s.faults };

    ghost past_reads = { λ s. record { bytes = None; faults = 0; names = [] } };

    fn read(&mut self, into: &mut [u8]) -> Result<usize, Failed> {
        match read_again(&mut self.inner, into) {
            Ok(count) => Ok(count),
            Err(failed) => {
                self.faults = self.faults.saturating_add(1);
                Err(failed)
            }
        }
    }
}

/// A sink over a writer. It tells what the writer tells.
#[derive(Drop)]
pub struct WriterSink<W: Write> {
    inner: W,
    faults: u64,
}

impl<W: Write> WriterSink<W> {
    /// A sink that writes to `inner`. The writer must not buffer: what it has taken counts as
    /// written, and it is never flushed.
    pub fn new(inner: W) -> WriterSink<W>
        ensures written { ⟦<WriterSink<W> as Sink>⟧.written result ≡ W.contents inner }
        ensures faults { ⟦<WriterSink<W> as Sink>⟧.write_faults result ≡ 0 }
    {
        WriterSink { inner, faults: 0 }
    }
}

/// Writes, and again for as long as a signal interrupts the call (POSIX's `EINTR`). A writer that
/// takes none of a piece that isn't empty has failed.
#[tactic(auto, using(crate::proofs::Known::writing))]
pub(crate) fn write_again<W: Write>(inner: &mut W, piece: &[u8]) -> Result<usize, Failed>
    ensures takes { Takes piece.now result }
    ensures bytes { WriteAppends (W.contents inner.old) (W.contents inner.new) result piece.now }
{
    'calls: for _ in 0..u64::MAX {
        match inner.write(piece) {
            Ok(count) if count > 0 || piece.is_empty() => return Ok(count),
            Err(error) if error.kind() == ErrorKind::Interrupted => {}
            _ => return Err(Failed),
        }
    }
    Err(Failed)
}

impl<W: Write> Sink for WriterSink<W> {
    ghost written = { λ s. W.contents s.inner };

    ghost write_faults = { λ s. s.faults };

    ghost past_writes = { λ s. record { bytes = None; faults = 0; names = [] } };

    fn write(&mut self, piece: &[u8]) -> Result<usize, Failed> {
        match write_again(&mut self.inner, piece) {
            Ok(count) => Ok(count),
            Err(failed) => {
                self.faults = self.faults.saturating_add(1);
                Err(failed)
            }
        }
    }
}
