//! One object for both ways.
ghost use Rattle.std.specs.Prelude.{◌≡◌, ◌∷◌, [], List, ℕ};

use crate::failed::Failed;
use crate::line::{Sink, Source};

/// One object for both ways. Each way leaves the other as it was.
pub trait Link: Source + Sink {
    /// The references that the object holds, by their ghost names: no call puts others in their
    /// place.
    ghost names: { Self → List ℕ };

    ghost reads_alone: { (x : Self) → Self.past_reads x
        ≡ record { bytes = Self.written x; faults = Self.write_faults x; names = names x } };

    ghost writes_alone: { (x : Self) → Self.past_writes x
        ≡ record { bytes = Self.left x; faults = Self.read_faults x; names = names x } };
}

/// A source and a sink, as one object.
#[derive(Drop)]
pub struct Pair<'a, S: Source, K: Sink> {
    pub source: &'a mut S,
    pub sink: &'a mut K,
}

impl<'a, S: Source, K: Sink> Source for Pair<'a, S, K> {
    ghost left = { λ p. S.left p.source.now };

    ghost read_faults = { λ p. S.read_faults p.source.now };

    ghost past_reads = { λ p. record {
      bytes = K.written p.sink.now;
      faults = K.write_faults p.sink.now;
      names = p.source.ghost_name ∷ p.sink.ghost_name ∷ [];
    } };

    fn read(&mut self, into: &mut [u8]) -> Result<usize, Failed> {
        self.source.read(into)
    }
}

impl<'a, S: Source, K: Sink> Sink for Pair<'a, S, K> {
    ghost written = { λ p. K.written p.sink.now };

    ghost write_faults = { λ p. K.write_faults p.sink.now };

    ghost past_writes = { λ p. record {
      bytes = S.left p.source.now;
      faults = S.read_faults p.source.now;
      names = p.source.ghost_name ∷ p.sink.ghost_name ∷ [];
    } };

    fn write(&mut self, piece: &[u8]) -> Result<usize, Failed> {
        self.sink.write(piece)
    }
}

impl<'a, S: Source, K: Sink> Link for Pair<'a, S, K> {
    ghost use Rattle.std.specs.Prelude.{◌∷◌, [], refl};

    ghost names = { λ p. p.source.ghost_name ∷ p.sink.ghost_name ∷ [] };

    ghost reads_alone = { λ x. refl };

    ghost writes_alone = { λ x. refl };
}
