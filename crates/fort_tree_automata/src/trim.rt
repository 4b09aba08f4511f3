//! An automaton without the moves that no term makes.
ghost use Rattle.std.specs.Prelude.{◌≡◌, IfOk, OnOk, map, filter, slice_index_or, false, ◌++◌, ◌∷◌, []};
ghost use Rattle.fort_tree_automata.specs.NtaView.{NamesItsStates, as_move};
ghost use Rattle.fort_tree_automata.specs.Marks.{all_marked};
ghost use Rattle.fort_tree_automata.specs.Trimmed.{IsTrimmed};

use crate::flags::{all_marked, is_marked};
use crate::nta::{Move, Nta};
use std::alloc::{AllocError, Global};

impl Nta {
    /// The automaton with those moves alone that name no state without terms.
    /// Promised to callers: the program itself doesn't call it.
    pub fn trim(&self, alloc: Global) -> Result<Nta, AllocError>
        requires { NamesItsStates self.now }
        ensures { IfOk result (IsTrimmed self.now) }
    {
        let flags = self.inhabited(alloc)?;
        Ok(Nta {
            states: self.states,
            any: self.any,
            moves: kept_moves(alloc, &flags, &self.moves)?,
            silent: kept_silent(alloc, &flags, &self.silent)?,
        })
    }
}

/// The moves whose kids are marked: with them the target takes a term too.
fn kept_moves(alloc: Global, flags: &[bool], moves: &[Move]) -> Result<Vec<Move>, AllocError>
    ensures { IfOk result (λ kept. map as_move kept.items ≡
        filter (λ m. all_marked flags.now m.1) (map as_move moves.now)) }
{
    let mut kept = Vec::new(alloc);
    for step in moves {
        keep_move(alloc, flags, step, &mut kept)?;
    }
    Ok(kept)
}

fn keep_move(
    alloc: Global,
    flags: &[bool],
    step: &Move,
    kept: &mut Vec<Move>,
) -> Result<(), AllocError>
    ensures { OnOk result (map as_move kept.new.items ≡ map as_move kept.old.items ++
        filter (λ m. all_marked flags.now m.1) (as_move step.now ∷ [])) }
{
    if all_marked(flags, &step.kids) {
        kept.push(step.copy(alloc)?)?;
    }
    Ok(())
}

fn kept_silent(
    alloc: Global,
    flags: &[bool],
    silent: &[(u32, u32)],
) -> Result<Vec<(u32, u32)>, AllocError>
    ensures { IfOk result (λ kept. kept.items ≡
        filter (λ m. slice_index_or flags.now m.0 false) silent.now) }
{
    let mut kept = Vec::new(alloc);
    for step in silent {
        keep_silent(flags, *step, &mut kept)?;
    }
    Ok(kept)
}

fn keep_silent(
    flags: &[bool],
    step: (u32, u32),
    kept: &mut Vec<(u32, u32)>,
) -> Result<(), AllocError>
    ensures { OnOk result (kept.new.items ≡ kept.old.items ++
        filter (λ m. slice_index_or flags.now m.0 false) (step ∷ [])) }
{
    if is_marked(flags, step.0) {
        kept.push(step)?;
    }
    Ok(())
}
