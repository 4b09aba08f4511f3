//! A sink over memory, with faults at calls that are named.
ghost use Rattle.std.specs.Prelude.{◌≡◌, ◌<◌, ◌≤◌, ◌-◌, ◌^◌, ◌↔◌, ◌⊎◌, [], ◌++◌, length, take, min, Some, IfOk, OnOk, OnErr, IsErr, Contains};
ghost use Rattle.fort_io.specs.Devices.{counted};

use crate::sink::Sink;
use crate::source::Failed;
use std::alloc::{AllocError, Global};
use std::marker::Model;

/// A sink over memory that takes bytes in pieces, has a limited room and fails at chosen calls.
#[derive(Drop)]
pub struct MemSink {
    taken: Vec<u8>,
    room: usize,
    piece: usize,
    fails: Vec<u64>,
    calls: u64,
    faults: u64,
}

impl Model for MemSink {
    ghost use Rattle.std.specs.Prelude.{ℕ, ◌≤◌, ◌<◌, vec_len, vec_capacity};
    ghost use Rattle.fort_io.specs.Replay.{Record};

    ghost Value = { Record };

    ghost view = { λ s. record { taken = s.taken.items; room = s.room; piece = s.piece; fails = s.fails.items; calls = s.calls; faults = s.faults } };

    ghost invariant = { λ s. (vec_len s.taken ≤ s.room) × (s.room ≤ vec_capacity s.taken) × (0 < s.piece) };
}

impl MemSink {
    /// An empty sink with room for so many bytes, which is reserved here. It takes at most `piece` bytes a call, and
    /// the calls that fail are named by their numbers, counted from 0.
    pub fn new(
        alloc: Global,
        room: usize,
        piece: usize,
        fails: &[u64],
    ) -> Result<MemSink, AllocError>
        requires { 0 < piece }
        ensures taken { IfOk result (λ s. s.taken ≡ []) }
        ensures room { IfOk result (λ s. s.room ≡ room) }
        ensures piece { IfOk result (λ s. s.piece ≡ piece) }
        ensures fails { IfOk result (λ s. s.fails ≡ fails.now) }
        ensures calls { IfOk result (λ s. s.calls ≡ 0) }
        ensures faults { IfOk result (λ s. s.faults ≡ 0) }
    {
        Ok(MemSink {
            taken: Vec::with_capacity(alloc, room)?,
            room,
            piece,
            fails: Vec::from_slice(alloc, fails)?,
            calls: 0,
            faults: 0,
        })
    }

    /// What it took.
    pub fn taken(&self) -> &[u8]
        ensures { result.now ≡ self.now.taken }
    {
        self.taken.as_slice()
    }
}

impl Sink for MemSink {
    ghost taken = { λ s. Some s.taken };

    ghost faults = { λ s. s.faults };

    /// Fails exactly at the chosen calls and where no room is left, and else takes as much as the piece, the bytes and
    /// the room allow.
    fn write(&mut self, piece: &[u8]) -> Result<usize, Failed>
        requires { 0 < length piece.now }
        ensures some { IfOk result (λ n. 1 ≤ n) }
        ensures bound { IfOk result (λ n. n ≤ length piece.now) }
        ensures moved { IfOk result (λ n. self.new.taken ≡ self.old.taken ++ take n piece.now) }
        ensures most { IfOk result (λ n. n ≡ min self.old.piece
            (min (length piece.now) (self.old.room - length self.old.taken))) }
        ensures fails { IsErr result ↔ (Contains self.old.fails self.old.calls
            ⊎ (self.old.room ≤ length self.old.taken)) }
        ensures kept { OnErr result (self.new.taken ≡ self.old.taken) }
        ensures calls { self.new.calls ≡ counted self.old.calls }
        ensures fault { OnErr result (self.new.faults ≡ counted self.old.faults) }
        ensures no_fault { OnOk result (self.new.faults ≡ self.old.faults) }
        ensures never_falls { self.old.faults ≤ self.new.faults }
        ensures in_range { self.new.faults < 2 ^ 64 }
        ensures same_room { self.new.room ≡ self.old.room }
        ensures same_piece { self.new.piece ≡ self.old.piece }
        ensures same_fails { self.new.fails ≡ self.old.fails }
    {
        let call = self.calls;
        self.calls = call.saturating_add(1);
        let room = self.room - self.taken.len();
        if room == 0 || self.fails.contains(&call) {
            self.faults = self.faults.saturating_add(1);
            return Err(Failed);
        }
        let n = self.piece.min(piece.len()).min(room);
        self.taken.extend_from_slice(&piece[..n]).unwrap();
        Ok(n)
    }
}
