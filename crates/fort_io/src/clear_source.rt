//! A source over memory that never fails.
ghost use Rattle.std.specs.Prelude.{◌≡◌, ◌<◌, ◌++◌, length, take, min, Some, IfOk, IsOk};

use crate::source::{Failed, Source};
use std::alloc::{AllocError, Global};
use std::marker::Model;

/// A source over memory that never fails.
#[derive(Drop)]
pub struct ClearSource {
    bytes: Vec<u8>,
    at: usize,
}

impl Model for ClearSource {
    ghost use Rattle.std.specs.Prelude.{List, ℕ, ◌≤◌, drop, vec_len};

    ghost Value = { List ℕ };

    ghost view = { λ s. drop s.at s.bytes.items };

    ghost invariant = { λ s. s.at ≤ vec_len s.bytes };
}

impl ClearSource {
    /// A source of these bytes.
    pub fn new(alloc: Global, bytes: &[u8]) -> Result<ClearSource, AllocError>
        ensures { IfOk result (λ s. s ≡ bytes.now) }
    {
        Ok(ClearSource {
            bytes: Vec::from_slice(alloc, bytes)?,
            at: 0,
        })
    }
}

impl Source for ClearSource {
    ghost rest = { Some };

    ghost faults = { λ _. 0 };

    /// Moves as much as the buffer and the rest allow.
    fn read(&mut self, buf: &mut [u8]) -> Result<usize, Failed>
        requires { 0 < length buf.old }
        ensures ok { IsOk result }
        ensures most { IfOk result (λ n. n ≡ min (length buf.old) (length self.old)) }
        ensures moved { IfOk result (λ n. self.old ≡ take n buf.new ++ self.new) }
    {
        let rest = &self.bytes[self.at..];
        let n = buf.len().min(rest.len());
        buf[..n].copy_from_slice(&rest[..n]);
        self.at += n;
        Ok(n)
    }
}
