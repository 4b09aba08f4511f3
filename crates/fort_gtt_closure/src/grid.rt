//! The pairs listed so far, with a table of truths in which each pair is found at once.
ghost use Rattle.std.specs.Prelude.{◌≡◌, ◌+◌, ◌*◌, ◌<◌, ◌++◌, ◌∷◌, [], true, false, IfOk, is_ok, if◌then◌else◌, count_by, vec_len};
ghost use Rattle.fort_gtt_closure.specs.Grids.{is_listed, CellsAgree, CellsWithin};

use crate::entry::Entry;
use std::alloc::{AllocError, Global};

/// The entries so far; the truth at row p and column q tells whether the pair of p and q is listed.
#[derive(Drop)]
pub(crate) struct Grid {
    height: u32,
    width: u32,
    seen: Vec<bool>,
    entries: Vec<Entry>,
    ghost sized: { vec_len seen ≡ height * width },
    ghost agrees: { CellsAgree height width seen.items entries.items },
    ghost within: { CellsWithin height width entries.items },
    ghost counted: { count_by (λ b. b) seen.items ≡ vec_len entries },
}

impl Grid {
    pub(crate) fn new(alloc: Global, height: u32, width: u32) -> Result<Grid, AllocError>
        ensures { IfOk result
            (λ g. (g.height ≡ height) × (g.width ≡ width) × (g.entries.items ≡ [])) }
    {
        let size = height as usize * width as usize;
        Ok(Grid {
            height,
            width,
            seen: vec![in alloc; false; size]?,
            entries: Vec::new(alloc),
        })
    }

    pub(crate) fn height(&self) -> u32
        ensures { result ≡ self.now.height }
    {
        self.height
    }

    pub(crate) fn width(&self) -> u32
        ensures { result ≡ self.now.width }
    {
        self.width
    }

    pub(crate) fn len(&self) -> usize
        ensures { result ≡ vec_len self.now.entries }
    {
        self.entries.len()
    }

    pub(crate) fn has(&self, p: u32, q: u32) -> bool
        ensures { result ≡ is_listed self.now.entries.items p q }
    {
        if p >= self.height || q >= self.width {
            return false;
        }
        self.seen[p as usize * self.width as usize + q as usize]
    }

    pub(crate) fn add(&mut self, entry: Entry) -> Result<(), AllocError>
        requires row { entry.p < self.old.height }
        requires column { entry.q < self.old.width }
        requires fresh { is_listed self.old.entries.items entry.p entry.q ≡ false }
        ensures items { self.new.entries.items ≡ (if is_ok result
            then self.old.entries.items ++ entry ∷ [] else self.old.entries.items) }
        ensures height { self.new.height ≡ self.old.height }
        ensures width { self.new.width ≡ self.old.width }
    {
        let place = entry.p as usize * self.width as usize + entry.q as usize;
        self.entries.push(entry)?;
        self.seen[place] = true;
        Ok(())
    }

    /// The entries.
    pub(crate) fn into_entries(self) -> Vec<Entry>
        ensures { result.items ≡ self.entries.items }
    {
        self.entries
    }
}
