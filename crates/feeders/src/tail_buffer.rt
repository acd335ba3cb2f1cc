//! The last bytes of a trace that comes in chunks.

ghost use Rattle.std.specs.Prelude.{◌≡◌, ◌+◌, ◌-◌, ◌≤◌, ◌<◌, ◌^◌, ◌++◌, List, [], ℕ, length, drop, vec_len, vec_capacity, OnOk, OnErr};
ghost use Rattle.feeders.specs.TailBuffer.{AreLastBytes};

use crate::line_count::first_bytes;
use std::alloc::{AllocError, Global};

/// The bytes that were taken so far, from the place `from` on.
#[derive(Drop)]
pub struct TailBuffer {
    pub from: usize,
    pub bytes: Vec<u8>,
}

impl TailBuffer {
    /// The buffer before the first byte.
    pub fn new(alloc: Global) -> TailBuffer
        ensures { AreLastBytes [] result }
    {
        TailBuffer {
            from: 0,
            bytes: Vec::new(alloc),
        }
    }

    /// How many bytes were taken in all, those that were dropped among them.
    pub fn end(&self) -> usize
        requires { self.now.from + vec_len self.now.bytes < 2 ^ 64 }
        ensures { result ≡ self.now.from + vec_len self.now.bytes }
    {
        self.from + self.bytes.len()
    }

    /// Makes room for `more` bytes after those that are kept.
    pub fn make_room(&mut self, more: usize) -> Result<(), AllocError>
        ensures kept { (self.new.from ≡ self.old.from) × (self.new.bytes.items ≡ self.old.bytes.items) }
        ensures room { OnOk result (vec_len self.new.bytes + more ≤ vec_capacity self.new.bytes) }
        ensures refused { OnErr result (vec_capacity self.old.bytes < vec_len self.old.bytes + more) }
    {
        self.bytes.reserve(more)
    }

    /// The bytes from the place `start` on.
    pub fn text(&self, start: usize) -> &[u8]
        requires low { self.now.from ≤ start }
        requires high { start ≤ self.now.from + vec_len self.now.bytes }
        ensures { result.now ≡ drop (start - self.now.from) self.now.bytes.items }
    {
        &self.bytes[start - self.from..]
    }

    /// The bytes that are kept before the place `end`.
    pub fn front(&self, end: usize) -> &[u8] {
        first_bytes(self.bytes.as_slice(), end.saturating_sub(self.from))
    }

    /// Takes a chunk, for which there is room. Bytes before the place `keep` are dropped, but only where `keep` is
    /// not before the end of all bytes so far.
    pub fn take(&mut self, piece: &[u8], keep: usize)
        requires fits { self.old.from + vec_len self.old.bytes + length piece.now < 2 ^ 64 }
        requires room { vec_len self.old.bytes + length piece.now ≤ vec_capacity self.old.bytes }
        ensures holds { (taken : List ℕ) → AreLastBytes taken self.old → AreLastBytes (taken ++ piece.now) self.new }
        ensures low { self.old.from ≤ keep → self.new.from ≤ keep }
        ensures let_go { self.old.from + vec_len self.old.bytes ≤ keep → keep ≤ self.old.from + vec_len self.old.bytes + length piece.now → self.new.from ≡ keep }
    {
        let end = self.from + self.bytes.len();
        if keep < end {
            let _ = self.bytes.extend_from_slice(piece);
            return;
        }
        let passed = piece.len().min(keep - end);
        self.bytes.clear();
        self.from = end + passed;
        let _ = self.bytes.extend_from_slice(&piece[passed..]);
    }

    /// Drops all kept bytes; `end` is how many were taken in all.
    pub fn restart(&mut self, end: usize)
        ensures holds { (taken : List ℕ) → length taken ≡ end → AreLastBytes taken self.new }
        ensures from { self.new.from ≡ end }
        ensures empty { self.new.bytes.items ≡ [] }
    {
        self.bytes.clear();
        self.from = end;
    }
}
