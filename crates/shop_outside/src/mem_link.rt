//! A link in memory.
ghost use Rattle.std.specs.Prelude.{◌≡◌, ◌<◌, ◌≤◌, ◌+◌, ◌↔◌, ◌⊎◌, length, [], Some, IfOk, IsErr, MatchResult};
ghost use Rattle.std.specs.Io.KnownBytes.{ReadConsumes, WriteAppends};
ghost use Rattle.shop_outside.specs.Causes.{HasCause, Half, Takes};

use crate::failed::Failed;
use crate::line::{Sink, Source};
use crate::link::Link;
use crate::mem_line::{MemSink, MemSource};

/// A source and a sink in memory, as one object that a thread may take over.
#[derive(Drop)]
pub struct MemLink {
    pub source: MemSource,
    pub sink: MemSink,
}

impl Source for MemLink {
    ghost use Rattle.shop_outside.specs.Failing.{FailsNext, IsCounted};
    ghost use Rattle.shop_outside.specs.MemLines.{bytes_left, reads_of, read_count, read_piece};
    ghost use Rattle.shop_outside.specs.MemLines.{bytes_written, writes_of};

    ghost left = { λ l. Some (bytes_left l.source) };

    ghost read_faults = { λ l. (reads_of l.source).faults };

    ghost past_reads = { λ l. record {
      bytes = Some (bytes_written l.sink);
      faults = (writes_of l.sink).faults;
      names = [];
    } };

    /// Gives as many bytes as are left, fit into the place and are allowed a read. It fails where
    /// the call is listed.
    fn read(&mut self, into: &mut [u8]) -> Result<usize, Failed>
        ensures within { IfOk result (λ n. n ≤ length into.new) }
        ensures bytes { ReadConsumes (Some (bytes_left self.old.source))
            (Some (bytes_left self.new.source)) result into.new }
        ensures cause { HasCause
            (reads_of self.old.source).faults (reads_of self.new.source).faults result }

        ensures fails { IsErr result ↔ FailsNext (reads_of self.old.source) }
        ensures count { IfOk result (λ n. n ≡ read_count self.old.source (length into.new)) }
        ensures piece { read_piece self.new.source ≡ read_piece self.old.source }
        ensures calls { IsCounted (reads_of self.old.source) (reads_of self.new.source) }
        ensures sink { self.new.sink ≡ self.old.sink }
    {
        self.source.read(into)
    }
}

impl Sink for MemLink {
    ghost use Rattle.shop_outside.specs.Failing.{FailsNext, IsCounted};
    ghost use Rattle.shop_outside.specs.MemLines.{bytes_left, reads_of};
    ghost use Rattle.shop_outside.specs.MemLines.{bytes_written, writes_of, write_piece};
    ghost use Rattle.shop_outside.specs.MemLines.{room_left, write_count, IsFull};

    ghost written = { λ l. Some (bytes_written l.sink) };

    ghost write_faults = { λ l. (writes_of l.sink).faults };

    ghost past_writes = { λ l. record {
      bytes = Some (bytes_left l.source);
      faults = (reads_of l.source).faults;
      names = [];
    } };

    /// Takes as many bytes as are allowed a write and find room. It fails where the call is listed,
    /// or where there is no room for a piece that isn't empty.
    fn write(&mut self, piece: &[u8]) -> Result<usize, Failed>
        ensures takes { Takes piece.now result }
        ensures bytes { WriteAppends (Some (bytes_written self.old.sink))
            (Some (bytes_written self.new.sink)) result piece.now }
        ensures cause { HasCause
            (writes_of self.old.sink).faults (writes_of self.new.sink).faults result }

        ensures fails { IsErr result ↔
            (FailsNext (writes_of self.old.sink) ⊎ IsFull self.old.sink (length piece.now)) }
        ensures count { IfOk result (λ n. n ≡ write_count self.old.sink (length piece.now)) }
        ensures room { MatchResult result
            (λ n. room_left self.new.sink + n ≡ room_left self.old.sink)
            (λ _. room_left self.new.sink ≡ room_left self.old.sink) }
        ensures piece { write_piece self.new.sink ≡ write_piece self.old.sink }
        ensures calls { IsCounted (writes_of self.old.sink) (writes_of self.new.sink) }
        ensures source { self.new.source ≡ self.old.source }
    {
        self.sink.write(piece)
    }
}

impl Link for MemLink {
    ghost use Rattle.std.specs.Prelude.{[], refl};

    ghost names = { λ _. [] };

    ghost reads_alone = { λ x. refl };

    ghost writes_alone = { λ x. refl };
}
