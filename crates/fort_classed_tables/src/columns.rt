//! The targets under one tuple symbol, by the child at one place.
ghost use Rattle.std.specs.Prelude.{◌≡◌, ◌<◌, IfOk};
ghost use Rattle.fort_classed_tables.specs.TargetColumns.{IsWithin, column_at};

use std::alloc::{AllocError, Global};

/// Where the targets under one tuple symbol stand: by the children before a place, then by the child there, then by those behind it.
#[derive(Clone, Copy)]
pub struct Columns<'a> {
    pub targets: &'a [u32],
    /// Where those under the tuple symbol start.
    pub start: usize,
    /// How many lists of states there are for the children before the place.
    pub outer: usize,
    /// How many states may stand there.
    pub count: usize,
    /// How many lists of states there are for the children behind it.
    pub inner: usize,
}

impl<'a> Columns<'a> {
    /// The targets over the state of this rank, in order.
    pub fn column(&self, alloc: Global, rank: usize) -> Result<Vec<u32>, AllocError>
        requires within { IsWithin self.now }
        requires rank { rank < self.now.count }
        ensures { IfOk result (λ column. column.items ≡ column_at self.now rank) }
    {
        let targets = self.targets;
        let mut column = Vec::with_capacity(alloc, self.outer * self.inner)?;
        for run in 0..self.outer {
            let from = self.start + (run * self.count + rank) * self.inner;
            column.extend_from_slice(&targets[from..from + self.inner])?;
        }
        Ok(column)
    }
}
