//! Reads a text into its forms, whole or in pieces.
ghost use Rattle.std.specs.Prelude.{◌≡◌, ◌+◌, ◌<◌, ◌^◌, ◌++◌, [], None, Some, length, flat_map, IfOk, IfErr, IfSome, IsErrOf, OnOk};
ghost use Rattle.fort_grammar.specs.Forms.{AreFormsOf};
ghost use Rattle.fort_grammar.specs.Text.{IsFaultlessBelow};
ghost use Rattle.fort_sexpr.specs.declared.fault.SFault.TheVariants.{Memory};
ghost use Rattle.fort_sexpr.specs.Faults.{IsFirstFaultUnlessMemory, IsFaultOfFrontUnlessMemory, IsFaultlessSoFar};

use crate::fault::SFault;
use crate::front::Front;
use crate::text::Forms;
use crate::walk::TextWalk;
use std::alloc::Global;
use std::marker::Model;

/// Reads a text into its forms, or finds its first fault.
pub fn read(alloc: Global, bytes: Vec<u8>) -> Result<Forms, SFault>
    requires few { length bytes.items < 2 ^ 32 }
    ensures bytes { IfOk result (λ text. text.bytes ≡ bytes.items) }
    ensures forms { IfOk result (λ text. AreFormsOf bytes.items text.forms) }
    ensures fault { IfErr result (λ fault. IsFirstFaultUnlessMemory bytes.items fault) }
    ensures memory { IsErrOf result Memory → IsFaultlessSoFar bytes.items }
{
    let mut walk = TextWalk::new(alloc);
    let at = walk.go_on(bytes.as_slice(), 0, 0)?;
    walk.finish(alloc, bytes, at)
}

/// Reads a text that comes in pieces, however it is cut.
#[derive(Drop)]
pub struct Reader {
    front: Front,
    /// The text's fault, once a byte brought it; nothing is kept in front of it.
    fault: Option<SFault>,
}

impl Model for Reader {
    ghost use Rattle.fort_sexpr.specs.Pieces.{Fed};

    ghost Value = { Fed };

    ghost use Rattle.fort_sexpr.specs.Fronts.{IsReader};

    ghost view = { λ a. record { bytes = a.front.bytes.items; fault = a.fault } };

    ghost invariant = { IsReader };
}

impl Reader {
    /// A reader that was fed nothing.
    pub fn new(alloc: Global) -> Reader
        ensures { result ≡ record { bytes = []; fault = None } }
    {
        Reader {
            front: Front::new(alloc),
            fault: None,
        }
    }

    /// Takes the next piece of a text. A fault is told with the byte that brings it, and from then on in each call.
    ///
    /// For want of memory nothing changes, and the piece may be fed again. Room is taken for the bytes of the piece and for
    /// the lists that open in it; where it is short, for as many lists as it has bytes.
    pub fn feed(&mut self, piece: &[u8]) -> Result<(), SFault>
        requires few { length self.old.bytes + length piece.now < 2 ^ 32 }
        // Without a fault the piece is behind the others, and no byte of them is at fault.
        ensures fed { OnOk result
            (self.new ≡ record { bytes = self.old.bytes ++ piece.now; fault = None }) }
        ensures faultless { OnOk result (IsFaultlessBelow self.new.bytes (length self.new.bytes)) }
        // A fault is the first one of the text, whatever follows, and stays.
        ensures fault { IfErr result (λ fault. self.old.fault ≡ None →
            IsFaultOfFrontUnlessMemory (self.old.bytes ++ piece.now) fault) }
        ensures stays { IfErr result (λ fault. (fault ≡ Memory → ⊥) →
            self.new ≡ record { bytes = []; fault = Some fault }) }
        ensures again { IfSome self.old.fault (λ fault. result ≡ Err fault) }
        // Want of memory comes with some byte, where none is at fault.
        ensures kept { IsErrOf result Memory → self.new ≡ self.old }
        ensures some { IsErrOf result Memory → 0 < length piece.now }
        ensures memory { IsErrOf result Memory → let text = self.old.bytes ++ piece.now in
            IsFaultlessBelow text (length text) }
    {
        if let Some(fault) = self.fault {
            return Err(fault);
        }
        if piece.is_empty() {
            return Ok(());
        }
        match self.front.feed(piece) {
            Ok(()) => Ok(()),
            Err(SFault::Memory) => Err(SFault::Memory),
            Err(fault) => {
                self.front = Front::new(*self.front.bytes.allocator());
                self.fault = Some(fault);
                Err(fault)
            }
        }
    }

    /// The forms of the pieces, which are the whole text, or its fault: that it is unclosed is told here alone.
    pub fn finish(self) -> Result<Forms, SFault>
        ensures bytes { IfOk result (λ text. text.bytes ≡ self.bytes) }
        ensures forms { IfOk result (λ text. AreFormsOf self.bytes text.forms) }
        ensures fault { IfErr result (λ fault. self.fault ≡ None →
            IsFirstFaultUnlessMemory self.bytes fault) }
        ensures again { IfSome self.fault (λ fault. result ≡ Err fault) }
        ensures memory { IsErrOf result Memory → IsFaultlessSoFar self.bytes }
    {
        if let Some(fault) = self.fault {
            return Err(fault);
        }
        self.front.finish()
    }
}

/// Reads a text that comes in these pieces into its forms, or finds its first fault.
/// Promised to callers: the program itself doesn't call it.
pub fn read_pieces(alloc: Global, pieces: &[&[u8]]) -> Result<Forms, SFault>
    requires few { length (flat_map (λ p. p.now) pieces.now) < 2 ^ 32 }
    ensures bytes { let bytes = flat_map (λ p. p.now) pieces.now in
        IfOk result (λ text. text.bytes ≡ bytes) }
    ensures forms { let bytes = flat_map (λ p. p.now) pieces.now in
        IfOk result (λ text. AreFormsOf bytes text.forms) }
    ensures fault { let bytes = flat_map (λ p. p.now) pieces.now in
        IfErr result (λ fault. IsFirstFaultUnlessMemory bytes fault) }
    ensures memory { let bytes = flat_map (λ p. p.now) pieces.now in
        IsErrOf result Memory → IsFaultlessSoFar bytes }
{
    let mut reader = Reader::new(alloc);
    for piece in pieces {
        reader.feed(piece)?;
    }
    reader.finish()
}
