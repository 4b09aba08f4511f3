//! A list of states for each state.
ghost use Rattle.std.specs.Prelude.{◌≡◌, ℕ, ◌<◌, ◌^◌, ◌==◌, List, [], ◌++◌, length, slice_index_or, if◌then◌else◌, replicate, IfOk, OnOk};

use std::alloc::{AllocError, Global};
use std::marker::Model;

/// A list of states for each state.
#[derive(Drop)]
pub(crate) struct StateLists {
    lists: Vec<Vec<u32>>,
}

impl Model for StateLists {
    ghost use Rattle.std.specs.Prelude.{ℕ, List};
    ghost use Rattle.fort_infinity.specs.StateListsView.{lists_of};

    ghost Value = { List (List ℕ) };

    ghost view = { λ s. lists_of s.lists.items };
}

impl StateLists {
    /// Nothing in the list of any state.
    pub(crate) fn new(alloc: Global, states: u32) -> Result<StateLists, AllocError>
        ensures { IfOk result (λ s. s ≡ replicate states []) }
    {
        let mut lists = Vec::new(alloc);
        for i in 0..states {
            lists.push(Vec::new(alloc))?;
        }
        Ok(StateLists { lists })
    }

    /// How many states there are.
    pub(crate) fn states(&self) -> u32
        requires { length self.now < 2 ^ 32 }
        ensures { result ≡ length self.now }
    {
        self.lists.len() as u32
    }

    /// The list of a state.
    pub(crate) fn list(&self, q: u32) -> &[u32]
        requires { q < length self.now }
        ensures { result.now ≡ slice_index_or self.now q [] }
    {
        &self.lists[q as usize]
    }

    /// Appends states to the list of a state.
    pub(crate) fn append(&mut self, q: u32, states: &[u32]) -> Result<(), AllocError>
        requires { q < length self.old }
        ensures count { length self.new ≡ length self.old }
        ensures appended { OnOk result ((k : ℕ) → slice_index_or self.new k []
            ≡ (if k == q then slice_index_or self.old k [] ++ states.now
            else slice_index_or self.old k [])) }
    {
        self.lists[q as usize].extend_from_slice(states)?;
        Ok(())
    }
}
