//! The transducer that relates the same terms the other way round.
ghost use Rattle.std.specs.Prelude.{◌≡◌, ◌↔◌, IfOk, map};
ghost use Rattle.fort_theory.specs.Trees.{Tree};
ghost use Rattle.fort_theory.specs.Signatures.{Signature};
ghost use Rattle.fort_reachability.specs.Transducers.{Transduces};
ghost use Rattle.fort_tree_automata.specs.Copies.{IsCopy};
ghost use Rattle.fort_transducers.specs.AgttView.{NamesItsStates, transducer_of};

use crate::agtt::Agtt;
use std::alloc::{AllocError, Global};

/// The transducer with its automata and the states of its pairs exchanged.
pub fn inverse(alloc: Global, agtt: &Agtt) -> Result<Agtt, AllocError>
    ensures left { IfOk result (λ inverse. IsCopy agtt.now.right inverse.left) }
    ensures right { IfOk result (λ inverse. IsCopy agtt.now.left inverse.right) }
    ensures pairs { IfOk result (λ inverse.
        inverse.pairs.items ≡ map (λ p. (p.1, p.0)) agtt.now.pairs.items) }
    ensures named { IfOk result (λ inverse. NamesItsStates agtt.now → NamesItsStates inverse) }
    ensures related { IfOk result (λ inverse. (signature : Signature) (s t : Tree) →
        Transduces signature (transducer_of inverse) s t ↔
        Transduces signature (transducer_of agtt.now) t s) }
{
    Ok(Agtt {
        left: agtt.right.copy(alloc)?,
        right: agtt.left.copy(alloc)?,
        pairs: exchanged(alloc, &agtt.pairs)?,
    })
}

/// The pairs the other way round.
pub fn exchanged(alloc: Global, pairs: &[(u32, u32)]) -> Result<Vec<(u32, u32)>, AllocError>
    ensures { IfOk result (λ ps. ps.items ≡ map (λ p. (p.1, p.0)) pairs.now) }
{
    let mut backwards = Vec::new(alloc);
    for (from, to) in pairs {
        backwards.push((*to, *from))?;
    }
    Ok(backwards)
}
