//! A table's targets in one list, laid as they are told.
ghost use Rattle.std.specs.Prelude.{◌≡◌, ℕ, ◌<◌, ◌≤◌, ◌^◌, length, slice_index, IfOk, None};
ghost use Rattle.fort_tables.specs.Tables as tables;
ghost use Rattle.fort_target_lists.specs.TargetLists.{IsTargetListOf};
ghost use Rattle.fort_target_lists.specs.ToldTables.{IsTableOver};

use crate::entry_targets::EntryTargets;
use crate::flat::{FlatTargets, Spots};
use crate::states::LayRoom;
use crate::target_list::TargetList;
use crate::told_walk::ToldWalk;
use fort_terms::Signature;
use std::alloc::{AllocError, Global};

impl TargetList {
    /// The list of the table with this signature and these presences whose targets these are. It is made even where the table has no
    /// entries.
    pub fn laid_by<T: EntryTargets>(
        alloc: Global,
        signature: &Signature,
        columns: usize,
        presences: &[u16],
        targets: &mut T,
    ) -> Result<TargetList, AllocError>
        requires narrow { columns ≤ 16 }
        requires few { length presences.now < 2 ^ 32 }
        requires within { (q : ℕ) → q < length presences.now
            → slice_index presences.now q < 2 ^ columns }
        requires told { (body : tables.Table)
            × IsTableOver body signature.now columns presences.now × T.tells targets.old body }
        ensures list { IfOk result (λ l. (body : tables.Table)
            → IsTableOver body signature.now columns presences.now → T.tells targets.old body
            → IsTargetListOf body l) }
        ensures made { IfOk result (λ l. l.by_classes ≡ None) }
    {
        let states = presences.len();
        let mut spots = Spots {
            ranks: Vec::with_capacity(alloc, states)?,
            alike: Vec::with_capacity(alloc, states)?,
        };
        let mut room = LayRoom::below(alloc, 2usize.pow(columns as u32), states)?;
        room.take_up(columns, presences, &mut spots);
        let base = signature.len() + 1;
        let walk = ToldWalk {
            signature,
            columns,
            base,
            chains: &room.chains,
        };
        let listing = walk.listing(alloc, room.counts.as_slice(), targets)?;
        Ok(TargetList {
            is_made: true,
            list: FlatTargets {
                base,
                spots,
                listing,
            },
            by_classes: None,
        })
    }
}
