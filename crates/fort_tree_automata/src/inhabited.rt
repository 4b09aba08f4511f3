//! Which states take some term.
ghost use Rattle.std.specs.Prelude.{◌≡◌, IfOk, length};
ghost use Rattle.fort_tree_automata.specs.NtaView.{NamesItsStates};
ghost use Rattle.fort_tree_automata.specs.Marks.{with_pass};
ghost use Rattle.fort_tree_automata.specs.InhabitedStates.{MarksInhabited};

use crate::flags::{count_marked, mark_any, mark_by_moves, mark_by_silent};
use crate::nta::Nta;
use std::alloc::{AllocError, Global};

impl Nta {
    /// For each state whether it takes some term.
    pub fn inhabited(&self, alloc: Global) -> Result<Vec<bool>, AllocError>
        requires { NamesItsStates self.now }
        ensures count { IfOk result (λ v. length v.items ≡ self.now.states) }
        ensures exact { IfOk result (λ v. MarksInhabited self.now v.items) }
    {
        let mut flags = vec![in alloc; false; self.states as usize]?;
        mark_any(&mut flags, self.any);
        loop {
            let before = count_marked(&flags);
            self.pass(&mut flags);
            if count_marked(&flags) == before {
                return Ok(flags);
            }
        }
    }

    fn pass(&self, flags: &mut Vec<bool>)
        ensures { flags.new.items ≡ with_pass self.now flags.old.items }
    {
        mark_by_silent(flags, &self.silent);
        mark_by_moves(flags, &self.moves);
    }
}
