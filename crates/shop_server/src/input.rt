//! The bytes that were read off a connection and not yet used.
ghost use Rattle.std.specs.Prelude.{◌≡◌, ◌+◌, ◌-◌, ◌<◌, ◌≤◌, ◌++◌, ℕ, List, [], length, take, drop, true, false, IfOk, OnOk, OnErr, IsErrOf, MatchResult};
ghost use Rattle.std.specs.Io.KnownBytes.{Consumes, IsAtEnd};
ghost use Rattle.shop_outside.specs.Causes.{HasCause, Rose};

use shop_defs::NoMemory;
use shop_outside::{Failed, Link};
use std::alloc::Global;
use std::marker::Model;

/// As many bytes as one read asks for.
const READ_SIZE: usize = 65_536;

/// Why no more bytes could be read.
#[derive(Clone, Copy)]
pub(crate) enum FillFault {
    /// The read failed.
    ReadFault,
    /// There was no room for a read.
    NoMemory,
}

/// The bytes that were read and not yet used.
#[derive(Drop)]
pub(crate) struct Input {
    /// What was read, and behind it room for more.
    bytes: Vec<u8>,
    /// Where the bytes begin that aren't used.
    start: usize,
    /// Where they end, and the room begins.
    end: usize,
}

impl Model for Input {
    ghost Value = { List ℕ };

    ghost view = { λ i. take (i.end - i.start) (drop i.start i.bytes.items) };

    ghost invariant = { λ i. (i.start ≤ i.end) × (i.end ≤ length i.bytes.items) };
}

impl Input {
    pub(crate) fn new(alloc: Global) -> Input
        ensures { result ≡ [] }
    {
        Input {
            bytes: Vec::new(alloc),
            start: 0,
            end: 0,
        }
    }

    /// The bytes.
    pub(crate) fn rest(&self) -> &[u8]
        ensures { result.now ≡ self.now }
    {
        &self.bytes[self.start..self.end]
    }

    /// Reads until there are so many bytes, or to the end of the input: `true` says that it ended. No error comes where there
    /// are as many.
    pub(crate) fn fill_to<L: Link>(&mut self, link: &mut L, least: usize) -> Result<bool, FillFault>
        ensures read { (piece : List ℕ) × Consumes (L.left link.old) (L.left link.new) piece × (self.new ≡ self.old ++ piece) }
        ensures ok { IfOk result (λ ended. (ended ≡ true → IsAtEnd (L.left link.new)) × (ended ≡ false → least ≤ length self.new)) }
        ensures err { OnErr result (length self.new < least) }
        ensures failed { IsErrOf result FillFault.ReadFault → Rose (L.read_faults link.old) (L.read_faults link.new) }
        ensures kept { (IsErrOf result FillFault.ReadFault → ⊥) → L.read_faults link.new ≡ L.read_faults link.old }
        ensures written { L.written link.new ≡ L.written link.old }
        ensures writes { L.write_faults link.new ≡ L.write_faults link.old }
        ensures names { L.names link.new ≡ L.names link.old }
    {
        while self.rest().len() < least {
            if self.fill(link)? == 0 {
                return Ok(true);
            }
        }
        Ok(false)
    }

    /// Takes the first bytes away. The others stay where they are.
    pub(crate) fn consume(&mut self, used: usize)
        requires { used ≤ length self.old }
        ensures { self.new ≡ drop used self.old }
    {
        self.start += used;
    }

    /// Moves the bytes to the front of the buffer, where any before them were consumed. What is moved before a read is the
    /// beginning of one request, which is consumed whole, so no byte is moved twice.
    fn compact(&mut self)
        ensures { self.new ≡ self.old }
    {
        if self.start > 0 {
            self.bytes.copy_within(self.start..self.end, 0);
            self.end -= self.start;
            self.start = 0;
        }
    }

    /// Reads once onto the end of the bytes, and reads none only at the end.
    pub(crate) fn fill<L: Link>(&mut self, link: &mut L) -> Result<usize, FillFault>
        ensures read { (piece : List ℕ) × Consumes (L.left link.old) (L.left link.new) piece
            × (self.new ≡ self.old ++ piece)
            × MatchResult result (λ n. (length piece ≡ n) × (n ≡ 0 → IsAtEnd (L.left link.new))) (λ _. piece ≡ []) }
        ensures failed { IsErrOf result FillFault.ReadFault → Rose (L.read_faults link.old) (L.read_faults link.new) }
        ensures kept { (IsErrOf result FillFault.ReadFault → ⊥) → L.read_faults link.new ≡ L.read_faults link.old }
        ensures written { L.written link.new ≡ L.written link.old }
        ensures writes { L.write_faults link.new ≡ L.write_faults link.old }
        ensures names { L.names link.new ≡ L.names link.old }
    {
        self.compact();
        let end = self.end;
        if grow(&mut self.bytes, end + READ_SIZE).is_err() {
            return Err(FillFault::NoMemory);
        }
        match read_at(link, &mut self.bytes, end) {
            Ok(count) => {
                self.end = end + count;
                Ok(count)
            }
            Err(_) => Err(FillFault::ReadFault),
        }
    }
}

/// Makes the buffer at least `wanted` bytes long, by zeros behind its bytes.
fn grow(bytes: &mut Vec<u8>, wanted: usize) -> Result<(), NoMemory>
    ensures front { (n : ℕ) → n ≤ length bytes.old.items → take n bytes.new.items ≡ take n bytes.old.items }
    ensures len { length bytes.old.items ≤ length bytes.new.items }
    ensures ok { OnOk result (wanted ≤ length bytes.new.items) }
{
    if bytes.len() < wanted {
        bytes.resize(wanted, 0)?;
    }
    Ok(())
}

/// Reads once into the room behind the first `at` bytes, and reads none only at the end.
fn read_at<L: Link>(link: &mut L, bytes: &mut Vec<u8>, at: usize) -> Result<usize, Failed>
    requires { at + READ_SIZE ≤ length bytes.old.items }
    ensures read { (piece : List ℕ) × Consumes (L.left link.old) (L.left link.new) piece
        × (take (at + length piece) bytes.new.items ≡ take at bytes.old.items ++ piece)
        × MatchResult result (λ n. (length piece ≡ n) × (n ≡ 0 → IsAtEnd (L.left link.new))) (λ _. piece ≡ []) }
    ensures len { length bytes.new.items ≡ length bytes.old.items }
    ensures within { IfOk result (λ n. at + n ≤ length bytes.new.items) }
    ensures cause { HasCause (L.read_faults link.old) (L.read_faults link.new) result }
    ensures beside { L.past_reads link.new ≡ L.past_reads link.old }
{
    link.read(&mut bytes[at..at + READ_SIZE])
}
