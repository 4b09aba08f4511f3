//! Takes a text from a source and reads it as it comes.
ghost use Rattle.std.specs.Prelude.{◌≡◌, ◌⊎◌, ℕ, ◌<◌, ◌≤◌, ◌^◌, List, length, IfOk, IfErr, IfSome, OnOk, OnErr, IsErrOf};
ghost use Rattle.std.specs.Io.KnownBytes.{Consumes, IsAtEnd};
ghost use Rattle.fort_grammar.specs.Forms.{AreFormsOf};
ghost use Rattle.fort_io.specs.Devices.{FaultCounted, GivesPast};
ghost use Rattle.fort_sexpr.specs.declared.fault.SFault.{SFault};
ghost use Rattle.fort_sexpr.specs.declared.fault.SFault.TheVariants.{Memory};
ghost use Rattle.fort_intake.specs.Unread.{IsTextAtFault, IsPassed};

use crate::unread::Unread;
use fort_io::Source;
use fort_sexpr::{Forms, Reader, SFault};
use std::alloc::Global;

/// How many bytes are asked for at a time.
const PIECE: usize = 4_096;

/// The forms of all bytes that come from a source, up to `limit` of them.
///
/// The text is read as it comes. Behind its fault nothing is kept, and the rest is read for its length alone: that too many
/// bytes come, or that a read fails, is told in place of the fault. After `Fault` and `Memory` the source has given a front
/// of its bytes.
pub fn take_forms<S: Source>(alloc: Global, source: &mut S, limit: usize) -> Result<Forms, Unread>
    requires { limit < 2 ^ 32 }
    ensures all { IfOk result (λ text.
        Consumes (S.rest source.old) (S.rest source.new) text.bytes) }
    ensures end { OnOk result (IsAtEnd (S.rest source.new)) }
    ensures within { IfOk result (λ text. length text.bytes ≤ limit) }
    ensures forms { IfOk result (λ text. AreFormsOf text.bytes text.forms) }
    ensures text { (fault : SFault) → IsErrOf result (Unread.Text fault) →
        IsTextAtFault limit (S.rest source.old) (S.rest source.new) fault }
    ensures too_long { IsErrOf result Unread.TooLong →
        IfSome (S.rest source.old) (λ bytes. limit < length bytes) }
    ensures past { IsErrOf result Unread.TooLong →
        GivesPast limit PIECE (S.rest source.old) (S.rest source.new) }
    ensures fault { IsErrOf result Unread.Fault →
        FaultCounted (S.faults source.old) (S.faults source.new) }
    ensures reported { S.faults source.old < S.faults source.new → IsErrOf result Unread.Fault }
    ensures err { OnErr result
        ((given : List ℕ) × Consumes (S.rest source.old) (S.rest source.new) given) }
    ensures never_falls { S.faults source.old ≤ S.faults source.new }
{
    let mut reader = Reader::new(alloc);
    let mut piece = [0u8; PIECE];
    let mut count = 0usize;
    loop {
        let n = source.read(&mut piece)?;
        if n == 0 {
            return Ok(reader.finish()?);
        }
        if n > limit - count {
            return Err(Unread::TooLong);
        }
        count += n;
        if let Err(fault) = reader.feed(&piece[..n]) {
            drop(reader);
            return Err(unread_behind(source, &mut piece, limit - count, fault));
        }
    }
}

/// Why a text is unread that has this fault so far, or memory ran out, and of which `left` bytes may come.
fn unread_behind<S: Source>(source: &mut S, piece: &mut [u8], left: usize, fault: SFault) -> Unread
    requires { 0 < length piece.old }
    ensures same { (f : SFault) → result ≡ Unread.Text f → f ≡ fault }
    ensures not_memory { (f : SFault) → result ≡ Unread.Text f → f ≡ Memory → ⊥ }
    ensures passed { (f : SFault) → result ≡ Unread.Text f →
        IsPassed left (S.rest source.old) (S.rest source.new) }
    ensures past { result ≡ Unread.TooLong →
        GivesPast left (length piece.old) (S.rest source.old) (S.rest source.new) }
    ensures fault { result ≡ Unread.Fault →
        FaultCounted (S.faults source.old) (S.faults source.new) }
    ensures reported { S.faults source.old < S.faults source.new → result ≡ Unread.Fault }
    ensures given { (given : List ℕ) × Consumes (S.rest source.old) (S.rest source.new) given }
    ensures never_falls { S.faults source.old ≤ S.faults source.new }
{
    if fault == SFault::Memory {
        return Unread::Memory;
    }
    match pass_rest(source, piece, left) {
        Ok(()) => Unread::Text(fault),
        Err(unread) => unread,
    }
}

/// Reads on to the end, or until more than `left` bytes came, and keeps none.
fn pass_rest<S: Source>(source: &mut S, piece: &mut [u8], left: usize) -> Result<(), Unread>
    requires { 0 < length piece.old }
    ensures ok { OnOk result (IsPassed left (S.rest source.old) (S.rest source.new)) }
    ensures past { IsErrOf result Unread.TooLong →
        GivesPast left (length piece.old) (S.rest source.old) (S.rest source.new) }
    ensures only { IfErr result (λ u. (u ≡ Unread.Fault) ⊎ (u ≡ Unread.TooLong)) }
    ensures fault { IsErrOf result Unread.Fault →
        FaultCounted (S.faults source.old) (S.faults source.new) }
    ensures reported { S.faults source.old < S.faults source.new → IsErrOf result Unread.Fault }
    ensures given { (given : List ℕ) × Consumes (S.rest source.old) (S.rest source.new) given }
    ensures never_falls { S.faults source.old ≤ S.faults source.new }
{
    let mut count = 0usize;
    loop {
        let n = source.read(piece)?;
        if n == 0 {
            return Ok(());
        }
        if n > left - count {
            return Err(Unread::TooLong);
        }
        count += n;
    }
}
