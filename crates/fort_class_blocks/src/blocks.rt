//! Blocks of targets in one list.
ghost use Rattle.std.specs.Prelude.{◌≡◌, ℕ, ◌<◌, ◌≤◌, List, [], ◌∷◌, ◌++◌, length, slice_index, OnOk, OnErr};
ghost use Rattle.fort_class_blocks.specs.Blocks.{AreFull, AreClasses, AreFirstClasses, block_at, counts_at, target_of, new_block, with_target, row_of, last_count};

use crate::shape::{Shape, combinations, number};
use std::alloc::{AllocError, Global};
use std::marker::Model;

/// Targets by classes: blocks, each with a target for each combination of classes, one class for
/// each of up to 8 children.
#[derive(Drop)]
pub struct Blocks {
    shapes: Vec<Shape>,
    targets: Vec<u32>,
}

impl Model for Blocks {
    ghost use Rattle.std.specs.Prelude.{List};
    ghost use Rattle.fort_class_blocks.specs.Blocks.{Block};

    ghost Value = { List Block };

    ghost use Rattle.fort_class_blocks.specs.BlocksInside.{blocks_in, AreLaid};

    ghost view = { blocks_in };

    ghost invariant = { AreLaid };
}

impl Blocks {
    /// No blocks.
    pub fn new(alloc: Global) -> Blocks
        ensures { result ≡ [] }
    {
        Blocks {
            shapes: Vec::new(alloc),
            targets: Vec::new(alloc),
        }
    }

    /// Appends a block over so many classes at each place, whose targets are 0 at first.
    pub fn add(&mut self, counts: &[u32]) -> Result<(), AllocError>
        requires { length counts.now ≤ 8 }
        ensures ok { OnOk result (self.new ≡ self.old ++ new_block counts.now ∷ []) }
        ensures err { OnErr result (self.new ≡ self.old) }
    {
        let start = self.targets.len();
        let shape = Shape::new(start, counts);
        self.shapes.reserve(1)?;
        // what is more than a word counts is more than there is room for
        self.targets
            .resize(start.saturating_add(combinations(counts)), 0)?;
        self.shapes.push_reserved(shape);
        Ok(())
    }

    /// How many blocks there are.
    pub fn len(&self) -> usize
        ensures count { result ≡ length self.now }
        ensures full { AreFull self.now }
        ensures places { (b : ℕ) → length (counts_at self.now b) ≤ 8 }
    {
        self.shapes.len()
    }

    /// Gives a combination of classes its target.
    pub fn put(&mut self, block: usize, classes: &[u32], target: u32)
        requires block { block < length self.old }
        requires classes { AreClasses (counts_at self.old block) classes.now }
        ensures cell { self.new ≡ with_target self.old block classes.now target }
        ensures counts { (b : ℕ) → counts_at self.new b ≡ counts_at self.old b }
        ensures there { target_of self.new block classes.now ≡ target }
        ensures others { (b : ℕ) (cs : List ℕ) → b < length self.old
            → AreClasses (counts_at self.old b) cs → (b ≡ block → cs ≡ classes.now → ⊥)
            → target_of self.new b cs ≡ target_of self.old b cs }
    {
        let place = self.shapes[block].place(classes);
        self.targets[place] = target;
    }

    /// The target of a combination of classes.
    pub fn target(&self, block: usize, classes: &[u32]) -> u32
        requires block { block < length self.now }
        requires classes { AreClasses (counts_at self.now block) classes.now }
        ensures { result ≡ target_of self.now block classes.now }
    {
        self.targets[self.shapes[block].place(classes)]
    }

    /// The targets over these classes of all places but the last one, by the class there.
    pub fn row(&self, block: usize, classes: &[u32]) -> &[u32]
        requires block { block < length self.now }
        requires classes { AreFirstClasses (counts_at self.now block) classes.now }
        ensures row { result.now ≡ row_of (block_at self.now block) classes.now }
        ensures count { length result.now ≡ last_count (counts_at self.now block) classes.now }
        ensures targets { (c : ℕ) → c < last_count (counts_at self.now block) classes.now
            → slice_index result.now c ≡ target_of self.now block (classes.now ++ c ∷ []) }
    {
        let shape = &self.shapes[block];
        let counts = shape.counts();
        let count = counts[classes.len()] as usize;
        let targets = self.targets.as_slice();
        // without a class there, the number of the others may pass a word's range
        if count == 0 {
            return &targets[..0];
        }
        let from = shape.start + number(&counts[..classes.len()], classes) * count;
        &targets[from..from + count]
    }
}
