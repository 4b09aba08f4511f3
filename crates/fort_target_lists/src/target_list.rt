//! A table's targets in one list, laid from the targets in the order of the table's entries.
ghost use Rattle.std.specs.Prelude.{◌≡◌, ℕ, ◌<◌, ◌≤◌, ◌^◌, length, Some, None, IfOk, IfSome, IfNone, IsTrue, IsFalse};
ghost use Rattle.fort_tables.specs.Entries.{Entry, entry};
ghost use Rattle.fort_tables.specs.Tables as tables;
ghost use Rattle.fort_tables.specs.Products as products;
ghost use Rattle.fort_target_lists.specs.Flats.{base_of};
ghost use Rattle.fort_target_lists.specs.ClassLists.{IsClassListOf};
ghost use Rattle.fort_target_lists.specs.LayRooms.{HasLayRoom};
ghost use Rattle.fort_target_lists.specs.TargetLists.{IsTargetListOf, IsOperandList, HasListRoom, IsTableWith};
ghost use Rattle.fort_target_lists.specs.ListedOperands.{IsListOf};

use crate::class_list::ClassList;
use crate::flat::{FlatTargets, Listing, Spots};
use crate::numbers::symbol_number;
use crate::states::LayRoom;
use fort_terms::Signature;
use fort_tuple_symbols::TupleSym;
use std::alloc::{AllocError, Global};

/// A table's targets in one list, where it is made, and the room for them, or by the classes of its states. For a table without entries
/// there may be neither.
#[derive(Drop)]
pub struct TargetList {
    pub(crate) is_made: bool,
    pub(crate) list: FlatTargets,
    pub(crate) by_classes: Option<ClassList>,
}

impl TargetList {
    /// No list.
    pub fn new(alloc: Global) -> TargetList
        ensures made { IsFalse result.is_made }
        ensures by_classes { result.by_classes ≡ None }
    {
        TargetList {
            is_made: false,
            list: FlatTargets::new(alloc),
            by_classes: None,
        }
    }

    /// A table's targets by the classes of its states.
    pub fn of_classes(alloc: Global, list: ClassList) -> TargetList
        ensures { (body : tables.Table) → IsClassListOf body list → IsTargetListOf body result }
    {
        TargetList {
            is_made: false,
            list: FlatTargets::new(alloc),
            by_classes: Some(list),
        }
    }

    /// No list, and the room for that of a table of at most so many states and entries.
    pub fn with_room(alloc: Global, states: usize, entries: usize) -> Result<TargetList, AllocError>
        requires { entries < 2 ^ 63 }
        ensures { IfOk result (HasListRoom states entries) }
    {
        Ok(TargetList {
            is_made: false,
            list: FlatTargets {
                base: 0,
                spots: Spots {
                    ranks: Vec::with_capacity(alloc, states)?,
                    alike: Vec::with_capacity(alloc, states)?,
                },
                listing: Listing {
                    starts: Vec::with_capacity(alloc, entries + 1)?,
                    targets: Vec::with_capacity(alloc, entries)?,
                },
            },
            by_classes: None,
        })
    }

    /// Makes this the list of the table with this signature, these presences and these targets, which stand in the order of its
    /// entries. It takes no memory.
    pub fn lay(
        &mut self,
        room: &mut LayRoom,
        signature: &Signature,
        columns: usize,
        presences: &[u16],
        targets: &[u32],
    )
        requires few { length presences.now < 2 ^ 32 }
        requires table { (t : tables.Listed) × IsTableWith t signature.now columns presences.now
            targets.now }
        requires room { HasLayRoom (length presences.now) room.old }
        requires list_room { HasListRoom (length presences.now) (length targets.now)
            self.old }
        ensures list { (t : tables.Listed) → IsTableWith t signature.now columns presences.now
            targets.now → IsTargetListOf (tables.listed_table t) self.new }
        ensures room { (n : ℕ) → HasLayRoom n room.old → HasLayRoom n room.new }
        ensures list_room { (n k : ℕ) → HasListRoom n k self.old → HasListRoom n k self.new }
    {
        self.by_classes = None;
        self.is_made = !targets.is_empty();
        if targets.is_empty() {
            return;
        }
        self.list.lay(room, signature, columns, presences, targets);
    }

    /// The list of the table with this signature, these presences and these targets, which stand in the order of its entries.
    pub fn laid(
        alloc: Global,
        signature: &Signature,
        columns: usize,
        presences: &[u16],
        targets: &[u32],
    ) -> Result<TargetList, AllocError>
        requires few { length presences.now < 2 ^ 32 }
        requires table { (t : tables.Listed) × IsTableWith t signature.now columns presences.now
            targets.now }
        ensures list { IfOk result (λ l. (t : tables.Listed) → IsTableWith t signature.now columns
            presences.now targets.now → IsTargetListOf (tables.listed_table t) l) }
    {
        if targets.is_empty() {
            return Ok(TargetList::new(alloc));
        }
        // where there is memory for the targets, there are no more tuple symbols than a word counts
        let laid = Vec::with_capacity(alloc, targets.len())?;
        let symbols = (signature.len() + 1).pow(columns as u32);
        let states = presences.len();
        let mut list = FlatTargets {
            base: 0,
            spots: Spots {
                ranks: Vec::with_capacity(alloc, states)?,
                alike: Vec::with_capacity(alloc, states)?,
            },
            listing: Listing {
                starts: Vec::with_capacity(alloc, symbols)?,
                targets: laid,
            },
        };
        let mut room = LayRoom::below(alloc, 2usize.pow(columns as u32), states)?;
        list.lay(&mut room, signature, columns, presences, targets);
        Ok(TargetList {
            is_made: true,
            list,
            by_classes: None,
        })
    }

    /// The list, where it is made.
    pub fn flat(&self) -> Option<&FlatTargets>
        ensures made { IfSome result (λ l. IsTrue self.now.is_made × (l.now ≡ self.now.list)) }
        ensures not_made { IfNone result (IsFalse self.now.is_made) }
    {
        if self.is_made { Some(&self.list) } else { None }
    }

    /// The targets by classes, where they are kept so.
    pub fn by_classes(&self) -> Option<&ClassList>
        ensures some { IfSome result (λ c. self.now.by_classes ≡ Some c.now) }
        ensures none { IfNone result (self.now.by_classes ≡ None) }
    {
        self.by_classes.as_ref()
    }

    /// One more than there are symbols.
    fn base(&self) -> usize
        ensures { (body : tables.Table) (e : Entry) → IsTargetListOf body self.now
            → tables.IsTableEntry body e → result ≡ base_of body }
    {
        match &self.by_classes {
            Some(list) => list.base,
            None => self.list.base,
        }
    }

    /// The target of an entry of the list's table.
    pub fn target(&self, symbol: &TupleSym, kids: &[u32]) -> u32
        requires { (body : tables.Table) × IsTargetListOf body self.now
            × tables.IsTableEntry body (entry symbol.now kids.now) }
        ensures { (body : tables.Table) → IsTargetListOf body self.now
            → tables.IsTableEntry body (entry symbol.now kids.now)
            → result ≡ body.target (entry symbol.now kids.now) }
    {
        self.look_up(symbol_number(symbol, self.base()))
            .target(kids)
    }
}

/// The list of an operand's targets, where it is there and made.
pub fn flat_of<'a>(list: Option<&'a TargetList>) -> Option<&'a FlatTargets>
    ensures { (o : products.Operand) → IfSome list.entry (λ l. IsOperandList o l.now)
        → IfSome result (λ l. IsListOf o l.now) }
{
    match list {
        Some(list) => list.flat(),
        None => None,
    }
}
