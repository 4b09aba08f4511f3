//! Pairs of numbers in groups, each group under a number.
ghost use Rattle.std.specs.Prelude.{◌≡◌, ◌+◌, IfOk, OnErr, OnOk};
ghost use Rattle.fort_theory.specs.Sides.{empty_lists, pushed_at};
ghost use Rattle.fort_gtt_closure.specs.Groups.{AreByFirst, group, lists};

use std::alloc::{AllocError, Global};

/// For each number below the count its pairs, in the order in which they were pushed.
#[derive(Drop)]
pub(crate) struct Groups {
    groups: Vec<Vec<(u32, u32)>>,
}

impl Groups {
    /// Groups with nothing in them.
    pub(crate) fn new(alloc: Global, count: u32) -> Result<Groups, AllocError>
        ensures { IfOk result (λ g. lists g ≡ empty_lists count) }
    {
        let mut groups = Vec::new(alloc);
        for i in 0..count {
            groups.push(Vec::new(alloc))?;
        }
        Ok(Groups { groups })
    }

    /// Puts the pair behind those of its number; one for which there is no group is left out.
    pub(crate) fn push(&mut self, number: u32, pair: (u32, u32)) -> Result<(), AllocError>
        ensures ok { OnOk result (lists self.new ≡ pushed_at (number + 1) pair (lists self.old)) }
        ensures err { OnErr result (lists self.new ≡ lists self.old) }
    {
        if (number as usize) < self.groups.len() {
            self.groups[number as usize].push(pair)?;
        }
        Ok(())
    }

    pub(crate) fn get(&self, number: u32) -> &[(u32, u32)]
        ensures { result.now ≡ group self.now number }
    {
        if (number as usize) < self.groups.len() {
            &self.groups[number as usize]
        } else {
            &[]
        }
    }
}

/// The pairs by their first numbers.
pub(crate) fn grouped(alloc: Global, count: u32, pairs: &[(u32, u32)]) -> Result<Groups, AllocError>
    ensures { IfOk result (AreByFirst count pairs.now) }
{
    let mut groups = Groups::new(alloc, count)?;
    for pair in pairs {
        groups.push(pair.0, *pair)?;
    }
    Ok(groups)
}
