//! A source and a sink in memory, which tell their bytes.
ghost use Rattle.std.specs.Prelude.{◌≡◌, ◌<◌, ◌≤◌, ◌+◌, ◌-◌, ◌↔◌, ◌⊎◌, ◌++◌, length, max, [], Some};
ghost use Rattle.std.specs.Prelude.{None, IfOk, IsErr, MatchResult};
ghost use Rattle.std.specs.Vec.{vec_len, vec_capacity};
ghost use Rattle.std.specs.Io.KnownBytes.{ReadConsumes, WriteAppends};
ghost use Rattle.shop_outside.specs.Causes.{HasCause, Half, Takes};

use crate::calls::Calls;
use crate::failed::Failed;
use crate::line::{Sink, Source};

/// Bytes in memory, given in pieces of at most a chosen size. The reads in a list fail, counted
/// from 1.
#[derive(Drop)]
pub struct MemSource {
    bytes: Vec<u8>,
    at: usize,
    piece: usize,
    calls: Calls,
    ghost within: { at ≤ length bytes.items },
    ghost some: { 0 < piece },
}

impl MemSource {
    ghost use Rattle.shop_outside.specs.Failing.{Begins};
    ghost use Rattle.shop_outside.specs.MemLines.{reads_of, read_piece};

    /// A source of these bytes that gives at most `piece` of them a read, and one where that is 0.
    pub fn new(bytes: Vec<u8>, piece: usize, failing: Vec<u64>) -> MemSource
        ensures left { ⟦<MemSource as Source>⟧.left result ≡ Some bytes.items }
        ensures faults { ⟦<MemSource as Source>⟧.read_faults result ≡ 0 }
        ensures piece { read_piece result ≡ max piece 1 }
        ensures calls { Begins failing.items (reads_of result) }
    {
        MemSource {
            bytes,
            at: 0,
            piece: piece.max(1),
            calls: Calls::new(failing),
        }
    }
}

impl Source for MemSource {
    ghost use Rattle.shop_outside.specs.Failing.{FailsNext, IsCounted};
    ghost use Rattle.shop_outside.specs.MemLines.{bytes_left, reads_of, read_count, read_piece};

    ghost left = { λ s. Some (bytes_left s) };

    ghost read_faults = { λ s. s.calls.faults };

    ghost past_reads = { λ s. record { bytes = None; faults = 0; names = [] } };

    /// Gives as many bytes as are left, fit into the place and are allowed a read. It fails where
    /// the call is listed.
    fn read(&mut self, into: &mut [u8]) -> Result<usize, Failed>
        ensures within { IfOk result (λ n. n ≤ length into.new) }
        ensures bytes { ReadConsumes
            (Some (bytes_left self.old)) (Some (bytes_left self.new)) result into.new }
        ensures cause { HasCause (reads_of self.old).faults (reads_of self.new).faults result }

        ensures fails { IsErr result ↔ FailsNext (reads_of self.old) }
        ensures count { IfOk result (λ n. n ≡ read_count self.old (length into.new)) }
        ensures piece { read_piece self.new ≡ read_piece self.old }
        ensures calls { IsCounted (reads_of self.old) (reads_of self.new) }
    {
        self.calls.begin()?;
        let left = self.bytes.len() - self.at;
        let count = left.min(into.len()).min(self.piece);
        let from = self.at;
        into[..count].copy_from_slice(&self.bytes[from..from + count]);
        self.at += count;
        Ok(count)
    }
}

/// Puts bytes at the end of a list that has room for them, which takes no memory.
fn extend_in_room(bytes: &mut Vec<u8>, piece: &[u8])
    requires { vec_len bytes.old + length piece.now ≤ vec_capacity bytes.old }
    ensures items { bytes.new.items ≡ bytes.old.items ++ piece.now }
    ensures len { vec_len bytes.new ≡ vec_len bytes.old + length piece.now }
    ensures capacity { vec_capacity bytes.old ≤ vec_capacity bytes.new }
{
    match bytes.extend_from_slice(piece) {
        Ok(()) => {}
        Err(_) => unreachable!(),
    }
}

/// Writes to the room of a list in memory, at most a chosen number of bytes a call, and takes no
/// memory itself. The writes in a list fail, counted from 1, as does one that finds no room.
#[derive(Drop)]
pub struct MemSink {
    bytes: Vec<u8>,
    room: usize,
    piece: usize,
    calls: Calls,
    ghost fits: { vec_len bytes + room ≤ vec_capacity bytes },
    ghost some: { 0 < piece },
}

impl MemSink {
    ghost use Rattle.shop_outside.specs.Failing.{Begins};
    ghost use Rattle.shop_outside.specs.MemLines.{room_left, writes_of, write_piece};

    /// A sink that holds these bytes and takes at most `piece` a write, and one where `piece` is 0.
    /// It has room for as many more as the capacity of `bytes` leaves, so hand in
    /// `Vec::with_capacity(alloc, room)?`.
    pub fn new(bytes: Vec<u8>, piece: usize, failing: Vec<u64>) -> MemSink
        ensures written { ⟦<MemSink as Sink>⟧.written result ≡ Some bytes.items }
        ensures faults { ⟦<MemSink as Sink>⟧.write_faults result ≡ 0 }
        ensures room { room_left result ≡ vec_capacity bytes - vec_len bytes }
        ensures piece { write_piece result ≡ max piece 1 }
        ensures calls { Begins failing.items (writes_of result) }
    {
        MemSink {
            room: bytes.capacity() - bytes.len(),
            bytes,
            piece: piece.max(1),
            calls: Calls::new(failing),
        }
    }

    /// The bytes that it holds: those that it was made with, and those written since.
    pub fn bytes(&self) -> &[u8]
        ensures { ⟦<MemSink as Sink>⟧.written self.now ≡ Some result.now }
    {
        &self.bytes
    }
}

impl Sink for MemSink {
    ghost use Rattle.shop_outside.specs.Failing.{FailsNext, IsCounted};
    ghost use Rattle.shop_outside.specs.MemLines.{bytes_written, writes_of, write_piece};
    ghost use Rattle.shop_outside.specs.MemLines.{room_left, write_count, IsFull};

    ghost written = { λ s. Some (bytes_written s) };

    ghost write_faults = { λ s. s.calls.faults };

    ghost past_writes = { λ s. record { bytes = None; faults = 0; names = [] } };

    /// Takes as many bytes as are allowed a write and find room. It fails where the call is listed,
    /// or where there is no room for a piece that isn't empty.
    fn write(&mut self, piece: &[u8]) -> Result<usize, Failed>
        ensures takes { Takes piece.now result }
        ensures bytes { WriteAppends
            (Some (bytes_written self.old)) (Some (bytes_written self.new)) result piece.now }
        ensures cause { HasCause (writes_of self.old).faults (writes_of self.new).faults result }

        ensures fails { IsErr result ↔
            (FailsNext (writes_of self.old) ⊎ IsFull self.old (length piece.now)) }
        ensures count { IfOk result (λ n. n ≡ write_count self.old (length piece.now)) }
        ensures room { MatchResult result
            (λ n. room_left self.new + n ≡ room_left self.old)
            (λ _. room_left self.new ≡ room_left self.old) }
        ensures piece { write_piece self.new ≡ write_piece self.old }
        ensures calls { IsCounted (writes_of self.old) (writes_of self.new) }
    {
        self.calls.begin()?;
        if self.room == 0 && !piece.is_empty() {
            return Err(self.calls.fault());
        }
        let count = piece.len().min(self.piece).min(self.room);
        extend_in_room(&mut self.bytes, &piece[..count]);
        self.room -= count;
        Ok(count)
    }
}
