//! A sink in memory, for tests.

ghost use Rattle.std.specs.Prelude.{◌≡◌, ◌↔◌, ◌≤◌, ◌<◌, [], Contains, length, Some, IfOk, IsErr, IsTrue, vec_len, vec_capacity};
ghost use Rattle.std.specs.Io.KnownBytes.{WriteAppends};
ghost use Rattle.cjvm_io.specs.Faults.{HasCause, next_count};

use crate::sink::{Failed, Sink};
use jvm_base::NoMemory;
use std::alloc::Global;

/// A sink in memory, with so much room, that takes pieces of at most so many bytes. A write that
/// finds no room is a fault, and so is each call whose number, from 1, was given.
#[derive(Drop)]
pub struct VecSink {
    bytes: Vec<u8>,
    room: usize,
    piece: usize,
    fails: Vec<u64>,
    calls: u64,
    faults: u64,
    ghost fits: { (vec_len bytes ≤ room) × (room ≤ vec_capacity bytes) × (1 ≤ piece) },
}

impl VecSink {
    ghost use Rattle.cjvm_io.specs.MemForms.{IsFull, IsSinkFault};

    /// An empty sink. All its memory is taken here.
    pub fn new(alloc: Global, room: u64, piece: u64, fails: Vec<u64>) -> Result<VecSink, NoMemory>
        requires { 1 ≤ piece }
        ensures bytes { IfOk result (λ sink. sink.bytes.items ≡ []) }
        ensures room { IfOk result (λ sink. (sink.room ≡ room) × (sink.piece ≡ piece)) }
        ensures fails { IfOk result (λ sink. (sink.fails ≡ fails) × (sink.calls ≡ 0)) }
        ensures faults { IfOk result (λ sink. sink.faults ≡ 0) }
    {
        let room = room as usize;
        let Ok(bytes) = Vec::with_capacity(alloc, room) else {
            return Err(NoMemory);
        };
        Ok(VecSink {
            bytes,
            room,
            piece: piece as usize,
            fails,
            calls: 0,
            faults: 0,
        })
    }

    /// The bytes so far.
    pub fn bytes(&self) -> &[u8]
        ensures { result.now ≡ self.now.bytes.items }
    {
        self.bytes.as_slice()
    }

    /// Whether there is no room for any byte of a piece.
    fn is_full(&self, piece: &[u8]) -> bool
        ensures { IsTrue result ↔ IsFull self.now piece.now }
    {
        self.bytes.len() == self.room && !piece.is_empty()
    }

    /// Whether the next call is one of those that fail.
    fn is_given(&self) -> bool
        ensures { IsTrue result ↔ Contains self.now.fails.items (next_count self.now.calls) }
    {
        self.fails.contains(&self.calls.saturating_add(1))
    }

    /// Whether the next write, of this piece, is a fault.
    fn is_fault(&self, piece: &[u8]) -> bool
        ensures { IsTrue result ↔ IsSinkFault self.now piece.now }
    {
        if self.is_full(piece) {
            return true;
        }
        self.is_given()
    }
}

impl Sink for VecSink {
    ghost use Rattle.cjvm_io.specs.MemForms.{IsSinkFault, taken};

    ghost held = { λ s. Some s.bytes.items };

    ghost faults = { λ s. s.faults };

    fn write(&mut self, piece: &[u8]) -> Result<usize, Failed>
        ensures bound { IfOk result (λ n. (n ≤ length piece.now) × (0 < length piece.now → 0 < n)) }
        ensures bytes { WriteAppends (Some self.old.bytes.items) (Some self.new.bytes.items)
            result piece.now }
        ensures cause { HasCause self.old.faults self.new.faults result }

        // It fails at the calls that were given, and where there is no room; else it takes all it may.
        ensures failed { IsErr result ↔ IsSinkFault self.old piece.now }
        ensures count { IfOk result (λ n. n ≡ taken self.old piece.now) }
        ensures made { (self.new.room ≡ self.old.room) × (self.new.piece ≡ self.old.piece) }
        ensures fails { self.new.fails ≡ self.old.fails }
        ensures calls { self.new.calls ≡ next_count self.old.calls }
    {
        let is_fault = self.is_fault(piece);
        self.calls = self.calls.saturating_add(1);
        if is_fault {
            self.faults = self.faults.saturating_add(1);
            return Err(Failed);
        }
        let free = self.room - self.bytes.len();
        let count = piece.len().min(self.piece).min(free);
        match self.bytes.extend_from_slice(&piece[..count]) {
            Ok(()) => Ok(count),
            Err(_) => unreachable!(),
        }
    }
}
