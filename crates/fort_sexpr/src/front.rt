//! The front of a text: what has come of it, read as far as it goes.
ghost use Rattle.std.specs.Prelude.{◌≡◌, ◌+◌, ◌<◌, ◌≤◌, ◌^◌, ◌++◌, [], length, vec_len, vec_capacity, IfOk, IfErr, IsErrOf, OnOk};
ghost use Rattle.fort_grammar.specs.Forms.{AreFormsOf};
ghost use Rattle.fort_grammar.specs.Text.{IsFaultlessBelow};
ghost use Rattle.fort_sexpr.specs.declared.fault.SFault.TheVariants.{Memory};
ghost use Rattle.fort_sexpr.specs.Faults.{IsFirstFaultUnlessMemory, IsFaultOfFront, IsFaultOfFrontUnlessMemory, IsFaultlessSoFar};
ghost use Rattle.fort_sexpr.specs.Nodes.{opens_before};
ghost use Rattle.fort_sexpr.specs.Progress.{comment_before};
ghost use Rattle.fort_sexpr.specs.Reading.{HasRoom};
ghost use Rattle.fort_sexpr.specs.Fronts.{IsRead, IsSameFront};

use crate::ahead::{Tally, look_over};
use crate::fault::SFault;
use crate::text::Forms;
use crate::token::DEEPEST;
use crate::walk::TextWalk;
use std::alloc::{AllocError, Global};

/// The most bytes of a piece that isn't looked over before it is taken.
const SHORT: usize = 4_096;

/// What has come of a text.
#[derive(Drop)]
pub(crate) struct Front {
    pub bytes: Vec<u8>,
    pub walk: TextWalk,
    /// What begins here goes on at the end of the bytes.
    pub at: usize,
}

impl Front {
    /// Nothing has come.
    pub(crate) fn new(alloc: Global) -> Front
        ensures bytes { result.bytes.items ≡ [] }
        ensures read { IsRead result }
    {
        Front {
            bytes: Vec::new(alloc),
            walk: TextWalk::new(alloc),
            at: 0,
        }
    }

    /// Takes the next piece, or tells its fault. Where there is want of memory, nothing changes but the room.
    pub(crate) fn feed(&mut self, piece: &[u8]) -> Result<(), SFault>
        requires few { length self.old.bytes.items + length piece.now < 2 ^ 32 }
        requires read { IsRead self.old }
        ensures fed { OnOk result (self.new.bytes.items ≡ self.old.bytes.items ++ piece.now) }
        ensures read { OnOk result (IsRead self.new) }
        ensures fault { IfErr result
            (IsFaultOfFrontUnlessMemory (self.old.bytes.items ++ piece.now)) }
        ensures kept { IsErrOf result Memory → IsSameFront self.old self.new }
        ensures memory { IsErrOf result Memory → let text = self.old.bytes.items ++ piece.now in
            IsFaultlessBelow text (length text) }
    {
        self.make_room(piece)?;
        let seen = self.bytes.len();
        self.bytes.extend_from_slice(piece).unwrap();
        self.at = self.walk.go_on(self.bytes.as_slice(), self.at, seen)?;
        Ok(())
    }

    /// Room for a piece. Where there is none, a fault of the piece goes before want of memory.
    fn make_room(&mut self, piece: &[u8]) -> Result<(), SFault>
        requires few { length self.old.bytes.items + length piece.now < 2 ^ 32 }
        requires read { IsRead self.old }
        ensures same { IsSameFront self.old self.new }
        ensures bytes { OnOk result
            (vec_len self.new.bytes + length piece.now ≤ vec_capacity self.new.bytes) }
        ensures lists { OnOk result (HasRoom (self.old.bytes.items ++ piece.now) self.new.walk) }
        ensures fault { IfErr result
            (IsFaultOfFrontUnlessMemory (self.old.bytes.items ++ piece.now)) }
        ensures memory { IsErrOf result Memory → let text = self.old.bytes.items ++ piece.now in
            IsFaultlessBelow text (length text) }
    {
        // room for as many lists as a short piece has bytes is little
        let lists = if piece.len() <= SHORT {
            piece.len()
        } else {
            self.lists_in(piece)?
        };
        match self.reserve(piece.len(), lists) {
            Ok(()) => Ok(()),
            Err(AllocError) => {
                self.lists_in(piece)?;
                Err(SFault::Memory)
            }
        }
    }

    /// How many lists open in a piece without fault, or the piece's fault.
    fn lists_in(&self, piece: &[u8]) -> Result<usize, SFault>
        requires few { length self.now.bytes.items + length piece.now < 2 ^ 32 }
        requires read { IsRead self.now }
        ensures lists { IfOk result (λ n. let text = self.now.bytes.items ++ piece.now in
            opens_before text (length text) ≡ length self.now.walk.lists.items + n) }
        ensures faultless { OnOk result (let text = self.now.bytes.items ++ piece.now in
            IsFaultlessBelow text (length text)) }
        ensures fault { IfErr result (IsFaultOfFront (self.now.bytes.items ++ piece.now)) }
    {
        let tally = Tally {
            in_comment: self.in_comment(),
            height: self.walk.open.len(),
            lists: self.walk.lists.len(),
        };
        let end = look_over(tally, piece, self.bytes.len())?;
        Ok(end.lists - tally.lists)
    }

    /// Whether a comment goes on at the end of the bytes.
    fn in_comment(&self) -> bool
        requires { IsRead self.now }
        ensures { let bytes = self.now.bytes.items in result ≡ comment_before bytes (length bytes) }
    {
        self.at < self.bytes.len() && self.bytes[self.at] == b';'
    }

    /// Room for so many more bytes and lists, and for as many open lists as may be.
    fn reserve(&mut self, bytes: usize, lists: usize) -> Result<(), AllocError>
        ensures same { IsSameFront self.old self.new }
        ensures bytes { OnOk result
            (vec_len self.new.bytes + bytes ≤ vec_capacity self.new.bytes) }
        ensures open { OnOk result (DEEPEST ≤ vec_capacity self.new.walk.open) }
        ensures lists { OnOk result
            (vec_len self.new.walk.lists + lists ≤ vec_capacity self.new.walk.lists) }
    {
        self.bytes.reserve(bytes)?;
        self.walk.reserve(lists)
    }

    /// The forms of the text, which has come whole.
    pub(crate) fn finish(self) -> Result<Forms, SFault>
        requires { IsRead self }
        ensures bytes { IfOk result (λ text. text.bytes ≡ self.bytes.items) }
        ensures forms { IfOk result (λ text. AreFormsOf self.bytes.items text.forms) }
        ensures fault { IfErr result (IsFirstFaultUnlessMemory self.bytes.items) }
        ensures memory { IsErrOf result Memory → IsFaultlessSoFar self.bytes.items }
    {
        let alloc = *self.bytes.allocator();
        self.walk.finish(alloc, self.bytes, self.at)
    }
}
