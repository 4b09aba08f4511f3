//! Places by the symbols at their roots.
ghost use Rattle.std.specs.Prelude.{◌≡◌, ℕ, ◌+◌, ◌<◌, ◌≤◌, [], ◌∷◌, ◌++◌, map, set, length, OnOk, vec_items, Option};
ghost use Rattle.fort_tuple_symbols.specs.Columns.{as_column};
ghost use Rattle.fort_label_bits.specs.RootPlaces.{IsRooted, HasMoreRoots, list_at, places_at};

use fort_terms::Sym;
use std::alloc::{AllocError, Global};

/// For each symbol, by its number, the places where it is the root; and those where any symbol is.
#[derive(Drop)]
pub struct Rooted {
    pub by_symbol: Vec<Vec<usize>>,
    pub any: Vec<usize>,
}

/// Makes lists until there are so many.
pub fn grow(alloc: Global, lists: &mut Vec<Vec<usize>>, count: usize) -> Result<(), AllocError>
    ensures same { (g : ℕ) → list_at (map vec_items lists.new.items) g
        ≡ list_at (map vec_items lists.old.items) g }
    ensures room { OnOk result (count ≤ length lists.new.items) }
{
    'lists: while lists.len() < count {
        lists.push(Vec::new(alloc))?;
    }
    Ok(())
}

/// One more place in one of the lists.
pub fn push_in(lists: &mut Vec<Vec<usize>>, at: usize, place: usize) -> Result<(), AllocError>
    requires { at < length lists.old.items }
    ensures { OnOk result (map vec_items lists.new.items ≡ set (map vec_items lists.old.items) at
        (list_at (map vec_items lists.old.items) at ++ place ∷ [])) }
{
    push_one(&mut lists[at], place)
}

fn push_one(list: &mut Vec<usize>, place: usize) -> Result<(), AllocError>
    ensures { OnOk result (list.new.items ≡ list.old.items ++ place ∷ []) }
{
    list.push(place)?;
    Ok(())
}

impl Rooted {
    pub fn new(alloc: Global) -> Rooted
        ensures { IsRooted [] result }
    {
        Rooted {
            by_symbol: Vec::new(alloc),
            any: Vec::new(alloc),
        }
    }

    /// One more place, with this root, or with any.
    pub fn push(&mut self, alloc: Global, root: Option<Sym>, place: usize) -> Result<(), AllocError>
        ensures { OnOk result (HasMoreRoots self.old (as_column root) place self.new) }
    {
        match root {
            None => push_one(&mut self.any, place),
            Some(f) => {
                let number = f.0 as usize;
                grow(alloc, &mut self.by_symbol, number + 1)?;
                push_in(&mut self.by_symbol, number, place)
            }
        }
    }

    /// The places where this symbol is the root.
    pub fn at(&self, root: Sym) -> &[usize]
        ensures { result.now ≡ places_at self.now root.0 }
    {
        match self.by_symbol.get(root.0 as usize) {
            Some(places) => places.as_slice(),
            None => &[],
        }
    }
}
