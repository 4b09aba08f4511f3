//! Classes numbered by first state.
ghost use Rattle.std.specs.Prelude.{◌≡◌, ℕ, ◌+◌, ◌<◌, ◌^◌, set, length, slice_index_or, IfOk};
ghost use Rattle.fort_tables.specs.Refinement.{IsRenumbered};

use std::alloc::{AllocError, Global};

/// So many unnamed classes.
fn unnamed(alloc: Global, count: usize) -> Result<Vec<u32>, AllocError>
    ensures count { IfOk result (λ v. length v.items ≡ count) }
    ensures unnamed { IfOk result (λ v. (c : ℕ) → c < count → slice_index_or v.items c 0
        ≡ 4294967295) }
{
    let mut names = Vec::new(alloc);
    for _k in 0..count {
        names.push(u32::MAX)?;
    }
    Ok(names)
}

/// Names a class by the next number, where it has none; answers the next number then.
fn name(names: &mut Vec<u32>, class: usize, next: u32) -> u32
    requires class { class < length names.old.items }
    requires few { next < 4294967295 }
    ensures fresh { slice_index_or names.old.items class 0 ≡ 4294967295
        → (names.new.items ≡ set names.old.items class next) × (result ≡ next + 1) }
    ensures kept { (slice_index_or names.old.items class 0 ≡ 4294967295 → ⊥)
        → (names.new.items ≡ names.old.items) × (result ≡ next) }
{
    if names[class] == u32::MAX {
        names[class] = next;
        return next + 1;
    }
    next
}

/// The same classes, numbered by first state.
pub fn renumber(alloc: Global, of: &[u32], count: usize) -> Result<Vec<u32>, AllocError>
    requires few { length of.now < 2 ^ 32 }
    requires within { (q : ℕ) → q < length of.now → slice_index_or of.now q 0 < count }
    ensures { IfOk result (λ new. IsRenumbered of.now new.items) }
{
    let mut names = unnamed(alloc, count)?;
    let mut new = Vec::new(alloc);
    let mut next = 0u32;
    for q in 0..of.len() {
        let class = of[q] as usize;
        next = name(&mut names, class, next);
        new.push(names[class])?;
    }
    Ok(new)
}
