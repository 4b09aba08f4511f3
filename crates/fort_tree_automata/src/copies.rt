//! Copies of automata.
ghost use Rattle.std.specs.Prelude.{◌≡◌, IfOk, map};
ghost use Rattle.fort_tree_automata.specs.NtaView.{as_move};
ghost use Rattle.fort_tree_automata.specs.Copies.{IsCopy};

use crate::nta::{Move, Nta};
use std::alloc::{AllocError, Global};

impl Nta {
    /// An equal automaton.
    pub fn copy(&self, alloc: Global) -> Result<Nta, AllocError>
        ensures { IfOk result (IsCopy self.now) }
    {
        Ok(Nta {
            states: self.states,
            any: self.any,
            moves: copied_moves(alloc, &self.moves)?,
            silent: Vec::from_slice(alloc, &self.silent)?,
        })
    }
}

impl Move {
    /// An equal move.
    pub(crate) fn copy(&self, alloc: Global) -> Result<Move, AllocError>
        ensures { IfOk result (λ m. as_move m ≡ as_move self.now) }
    {
        Ok(Move {
            sym: self.sym,
            kids: Vec::from_slice(alloc, &self.kids)?,
            target: self.target,
        })
    }
}

fn copied_moves(alloc: Global, moves: &[Move]) -> Result<Vec<Move>, AllocError>
    ensures { IfOk result (λ copies. map as_move copies.items ≡ map as_move moves.now) }
{
    let mut copies = Vec::new(alloc);
    for step in moves {
        copies.push(step.copy(alloc)?)?;
    }
    Ok(copies)
}
