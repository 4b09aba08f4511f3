//! The pairs to be visited: a pair waits from when it may have come to follow until its visit.
ghost use Rattle.std.specs.Prelude.{◌≡◌, ◌≢◌, ◌*◌, ◌<◌, ◌+◌, ◌⊎◌, ◌↔◌, ℕ, Contains, IfOk, OnOk, vec_len, true, false, slice_index_or, []};
ghost use Rattle.fort_gtt_closure.specs.Grids.{is_listed};
ghost use Rattle.fort_gtt_closure.specs.Marks.{IsMarked, IsSet, KeepsSet, AreSources};

use crate::grid::Grid;
use crate::groups::Groups;
use crate::links::{Links, leaves};
use crate::marks::{Shape, mark_any, mark_lefts, mark_meeting, mark_rights, mark_row};
use fort_transducers::Agtt;
use std::alloc::{AllocError, Global};

/// Which pairs wait, and which right states lead through a pair of the transducer to which.
#[derive(Drop)]
pub(crate) struct Agenda {
    shape: Shape,
    waiting: Vec<bool>,
    through: Vec<bool>,
    sources: Groups,
    ghost sized: { vec_len waiting ≡ shape.height * shape.width },
    ghost square: { vec_len through ≡ shape.height * shape.height },
    ghost sourced: { AreSources shape.height through.items sources },
}

impl Agenda {
    ghost use Rattle.fort_gtt_closure.specs.Ready.{IsAwake, LeadsThrough, Passed, Wakes};
    ghost use Rattle.fort_gtt_closure.specs.Groups.{group};

    /// The pairs that follow from nothing wait.
    pub(crate) fn new(alloc: Global, agtt: &Agtt) -> Result<Agenda, AllocError>
        ensures { IfOk result (IsAwake agtt.now []) }
    {
        let (height, width) = (agtt.right.states, agtt.left.states);
        let shape = Shape { height, width };
        let mut waiting = vec![in alloc; false; height as usize * width as usize]?;
        mark_any(&mut waiting, shape, agtt.right.any, agtt.left.any);
        let rights = leaves(alloc, &agtt.right.moves)?;
        let lefts = leaves(alloc, &agtt.left.moves)?;
        mark_meeting(&mut waiting, shape, &rights, &lefts);
        Ok(Agenda {
            shape,
            waiting,
            through: vec![in alloc; false; height as usize * height as usize]?,
            sources: Groups::new(alloc, height)?,
        })
    }

    pub(crate) fn waits(&self, p: u32, q: u32) -> bool
        requires right { p < self.now.shape.height }
        requires left { q < self.now.shape.width }
        ensures { result ≡
            slice_index_or self.now.waiting.items (p * self.now.shape.width + q) false }
    {
        self.waiting[p as usize * self.shape.width as usize + q as usize]
    }

    /// The pair waits no more.
    pub(crate) fn rest(&mut self, p: u32, q: u32)
        requires right { p < self.old.shape.height }
        requires left { q < self.old.shape.width }
        ensures shape { self.new.shape ≡ self.old.shape }
        ensures through { self.new.through ≡ self.old.through }
        ensures others { (i : ℕ) → i ≢ p * self.old.shape.width + q →
            IsSet self.old.waiting.items i → IsSet self.new.waiting.items i }
    {
        self.waiting[p as usize * self.shape.width as usize + q as usize] = false;
    }

    /// What may have come to follow by the pair of p and q, which has been listed, waits.
    pub(crate) fn wake(
        &mut self,
        links: &Links,
        grid: &Grid,
        p: u32,
        q: u32,
    ) -> Result<(), AllocError>
        requires { p < self.old.shape.height }
        ensures { OnOk result (Wakes links.now grid.now.entries.items p q self.old self.new) }
    {
        self.wait_by_moves(links, p, q);
        self.wait_by_pairs(links.pairs.get(q), grid, p)?;
        self.wait_by_sources(p, q);
        Ok(())
    }

    fn wait_by_moves(&mut self, links: &Links, p: u32, q: u32)
        ensures shape { self.new.shape ≡ self.old.shape }
        ensures through { self.new.through ≡ self.old.through }
        ensures kept { KeepsSet self.old.waiting.items self.new.waiting.items }
        ensures met { (right : ℕ × ℕ) → Contains (group links.now.right_uses p) right →
            (left : ℕ × ℕ) → Contains (group links.now.left_uses q) left → right.0 ≡ left.0 →
            IsMarked self.new.shape self.new.waiting.items right.1 left.1 }
        ensures right_silent { (step : ℕ × ℕ) → Contains (group links.now.right_silent p) step →
            IsMarked self.new.shape self.new.waiting.items step.1 q }
        ensures left_silent { (step : ℕ × ℕ) → Contains (group links.now.left_silent q) step →
            IsMarked self.new.shape self.new.waiting.items p step.1 }
    {
        let shape = self.shape;
        let rights = links.right_uses.get(p);
        let lefts = links.left_uses.get(q);
        mark_meeting(&mut self.waiting, shape, rights, lefts);
        mark_rights(&mut self.waiting, shape, links.right_silent.get(p), q);
        mark_lefts(&mut self.waiting, shape, p, links.left_silent.get(q));
    }

    fn wait_by_pairs(&mut self, pairs: &[(u32, u32)], grid: &Grid, p: u32) -> Result<(), AllocError>
        requires { p < self.old.shape.height }
        ensures { OnOk result (Passed self.old.shape grid.now.entries.items p
            self.old self.new pairs.now) }
    {
        for pair in pairs {
            self.pass(grid, p, pair.1)?;
        }
        Ok(())
    }

    /// What leads through p goes on to q.
    fn wait_by_sources(&mut self, p: u32, q: u32)
        ensures shape { self.new.shape ≡ self.old.shape }
        ensures through { self.new.through ≡ self.old.through }
        ensures kept { KeepsSet self.old.waiting.items self.new.waiting.items }
        ensures back { (x : ℕ) → x < self.old.shape.height → p < self.old.shape.height →
            LeadsThrough self.old x p → IsMarked self.new.shape self.new.waiting.items x q }
    {
        mark_rights(&mut self.waiting, self.shape, self.sources.get(p), q);
    }

    /// From p a pair leads to another right state, and so to all that it is listed with.
    fn pass(&mut self, grid: &Grid, p: u32, through: u32) -> Result<(), AllocError>
        requires { p < self.old.shape.height }
        ensures shape { self.new.shape ≡ self.old.shape }
        ensures kept { OnOk result (KeepsSet self.old.waiting.items self.new.waiting.items) }
        ensures through { OnOk result ((x b : ℕ) → x < self.old.shape.height →
            b < self.old.shape.height → LeadsThrough self.new x b ↔
            (LeadsThrough self.old x b ⊎ ((x ≡ p) × (b ≡ through)))) }
        ensures row { OnOk result (through < self.old.shape.height →
            LeadsThrough self.old p through ⊎ ((q : ℕ) →
            is_listed grid.now.entries.items through q ≡ true →
            IsMarked self.new.shape self.new.waiting.items p q)) }
    {
        if through >= self.shape.height {
            return Ok(());
        }
        let place = p as usize * self.shape.height as usize + through as usize;
        if self.through[place] {
            return Ok(());
        }
        self.sources.push(through, (through, p))?;
        self.through[place] = true;
        mark_row(&mut self.waiting, self.shape, grid, through, p);
        Ok(())
    }
}
