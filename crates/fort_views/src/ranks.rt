//! The ranks of states among those of one presence.
ghost use Rattle.std.specs.Prelude.{◌≡◌, ℕ, ◌<◌, ◌≤◌, ◌^◌, length, slice_index, IfOk};
ghost use Rattle.fort_views.specs.Ranks.{AreRanks};

use std::alloc::{AllocError, Global};

/// Each state's rank among the states of its presence.
pub fn ranks_of(alloc: Global, columns: usize, presences: &[u16]) -> Result<Vec<u32>, AllocError>
    requires narrow { columns ≤ 16 }
    requires few { length presences.now < 2 ^ 32 }
    requires within { (q : ℕ) → q < length presences.now
        → slice_index presences.now q < 2 ^ columns }
    ensures { IfOk result (λ ranks. AreRanks presences.now ranks.items) }
{
    let mut counts = vec![in alloc; 0u32; 2usize.pow(columns as u32)]?;
    let mut ranks = Vec::with_capacity(alloc, presences.len())?;
    for q in 0..presences.len() {
        let presence = presences[q] as usize;
        ranks.push(counts[presence])?;
        counts[presence] += 1;
    }
    Ok(ranks)
}
