//! Sinks for bytes, and giving one all of a text.
ghost use Rattle.std.specs.Prelude.{◌≡◌, ℕ, ◌<◌, ◌≤◌, ◌^◌, List, ◌++◌, length, take, Option, IfOk, OnOk, OnErr};
ghost use Rattle.fort_io.specs.Devices.{FaultCounted, Takes};

use crate::source::Failed;

/// What bytes go to.
pub trait Sink {
    /// The bytes that the sink took, where it tells them. One that has ceased to tell never tells again.
    ghost taken: { Self → Option (List ℕ) };

    /// How many faults there were. It never falls, and stays at its last value, 2^64 - 1.
    ghost faults: { Self → ℕ };

    /// Takes a front of `piece` and says how many bytes, at least one: a device that takes nothing has failed.
    fn write(&mut self, piece: &[u8]) -> Result<usize, Failed>
        requires { 0 < length piece.now }
        ensures some { IfOk result (λ n. 1 ≤ n) }
        ensures bound { IfOk result (λ n. n ≤ length piece.now) }
        ensures moved { IfOk result (λ n.
            Takes (taken self.old) (taken self.new) (take n piece.now)) }
        ensures kept { OnErr result (taken self.new ≡ taken self.old) }
        ensures cause { OnErr result (FaultCounted (faults self.old) (faults self.new)) }
        ensures never_falls { faults self.old ≤ faults self.new }
        ensures in_range { faults self.new < 2 ^ 64 };
}

/// A write failed.
#[derive(Clone, Copy, Debug, PartialEq, Eq)]
pub struct WriteFault;

impl From<Failed> for WriteFault {
    fn from(_e: Failed) -> WriteFault {
        WriteFault
    }
}

/// Gives all bytes to a sink. After a fault a front of them was taken. It takes no memory.
pub fn write_all<K: Sink>(sink: &mut K, bytes: &[u8]) -> Result<(), WriteFault>
    ensures all { OnOk result (Takes (K.taken sink.old) (K.taken sink.new) bytes.now) }
    ensures front { OnErr result ((front back : List ℕ) × (bytes.now ≡ front ++ back)
        × Takes (K.taken sink.old) (K.taken sink.new) front) }
    ensures fault { OnErr result (FaultCounted (K.faults sink.old) (K.faults sink.new)) }
    ensures never_falls { K.faults sink.old ≤ K.faults sink.new }
{
    let mut rest = bytes;
    while !rest.is_empty() {
        let n = sink.write(rest)?;
        rest = &rest[n..];
    }
    Ok(())
}
