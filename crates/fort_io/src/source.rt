//! Sources of bytes, and reading one to its end.
ghost use Rattle.std.specs.Prelude.{◌≡◌, ℕ, ◌<◌, ◌≤◌, ◌^◌, List, length, take, Option, IfOk, OnOk, OnErr, IsErrOf, IfSome, vec_len};
ghost use Rattle.std.specs.Io.KnownBytes.{Consumes, IsAtEnd};
ghost use Rattle.fort_io.specs.Devices.{FaultCounted, GivesPast};

use std::alloc::{AllocError, Global};

/// A device failed, and counted it.
#[derive(Clone, Copy, Debug, PartialEq, Eq)]
pub struct Failed;

/// What bytes come from.
pub trait Source {
    /// The bytes still to come, where the source tells them.
    ghost rest: { Self → Option (List ℕ) };

    /// How many faults there were. It never falls, stays at its last value, 2^64 - 1, and rises only where a read fails.
    ghost faults: { Self → ℕ };

    /// Moves some of the next bytes to the front of `buf` and says how many: 0 only at the end.
    fn read(&mut self, buf: &mut [u8]) -> Result<usize, Failed>
        requires { 0 < length buf.old }
        ensures bound { IfOk result (λ n. n ≤ length buf.old) }
        ensures moved { IfOk result (λ n.
            Consumes (rest self.old) (rest self.new) (take n buf.new)) }
        ensures end { result ≡ Ok 0 → IsAtEnd (rest self.new) }
        ensures kept { OnErr result (rest self.new ≡ rest self.old) }
        ensures cause { OnErr result (FaultCounted (faults self.old) (faults self.new)) }
        ensures quiet { OnOk result (faults self.new ≡ faults self.old) }
        ensures never_falls { faults self.old ≤ faults self.new }
        ensures in_range { faults self.new < 2 ^ 64 };
}

/// Why `read_all` has no bytes to give.
#[derive(Clone, Copy, Debug, PartialEq, Eq)]
pub enum ReadAll {
    /// Want of memory.
    Memory,
    /// A read failed.
    Fault,
    /// More bytes came than the limit.
    TooLong,
}

impl From<AllocError> for ReadAll {
    ghost use Rattle.std.specs.Prelude.{◌≡◌};
    ghost use Rattle.fort_io.specs.declared.source.ReadAll.TheVariants.{Memory};

    ghost from_gives = { λ _ r. r ≡ Memory };

    fn from(_e: AllocError) -> ReadAll {
        ReadAll::Memory
    }
}

impl From<Failed> for ReadAll {
    ghost use Rattle.std.specs.Prelude.{◌≡◌};
    ghost use Rattle.fort_io.specs.declared.source.ReadAll.TheVariants.{Fault};

    ghost from_gives = { λ _ r. r ≡ Fault };

    fn from(_e: Failed) -> ReadAll {
        ReadAll::Fault
    }
}

/// How many bytes are asked for at a time.
const PIECE: usize = 65_536;

/// All bytes that come from a source, up to `limit` of them.
///
/// After `Fault` and `Memory` the source has given a front of its bytes.
/// Promised to callers: the program itself doesn't call it.
pub fn read_all<S: Source>(alloc: Global, source: &mut S, limit: usize) -> Result<Vec<u8>, ReadAll>
    ensures all { IfOk result (λ v. Consumes (S.rest source.old) (S.rest source.new) v.items) }
    ensures end { OnOk result (IsAtEnd (S.rest source.new)) }
    ensures within { IfOk result (λ v. vec_len v ≤ limit) }
    ensures too_long { IsErrOf result ReadAll.TooLong →
        IfSome (S.rest source.old) (λ bytes. limit < length bytes) }
    ensures past { IsErrOf result ReadAll.TooLong →
        GivesPast limit PIECE (S.rest source.old) (S.rest source.new) }
    ensures fault { IsErrOf result ReadAll.Fault →
        FaultCounted (S.faults source.old) (S.faults source.new) }
    ensures reported { S.faults source.old < S.faults source.new → IsErrOf result ReadAll.Fault }
    ensures err { OnErr result
        ((given : List ℕ) × Consumes (S.rest source.old) (S.rest source.new) given) }
    ensures never_falls { S.faults source.old ≤ S.faults source.new }
{
    let mut bytes = Vec::new(alloc);
    let mut piece = vec![in alloc; 0u8; PIECE]?;
    loop {
        let n = source.read(&mut piece)?;
        if n == 0 {
            return Ok(bytes);
        }
        if n > limit - bytes.len() {
            return Err(ReadAll::TooLong);
        }
        bytes.extend_from_slice(&piece[..n])?;
    }
}
