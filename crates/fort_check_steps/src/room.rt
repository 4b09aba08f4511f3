//! Room for the tables of parts, and for their check.
ghost use Rattle.std.specs.Prelude.{◌≡◌, ℕ, ◌↔◌, ◌*◌, ◌<◌, ◌≤◌, ◌^◌, IsTrue, IsFalse, IfOk, IfSome, IfNone};
ghost use Rattle.fort_tables.specs.Entries.{stage};
ghost use Rattle.fort_target_lists.specs.TargetLists.{HasListRoom};
ghost use Rattle.fort_check_steps.specs.Room.{HasRoom, HasMergeRoom, IsAsLong, IsSpaceFor, IsAsNeedy, HasNeeds, most_states as most_states_lem};

use crate::state_labels::{NARROW, StateLabels};
use fort_target_lists::{LayRoom, TargetList};
use std::alloc::{AllocError, Global};

/// A list has no more targets than these, so that there is a number for each start.
const MOST_TARGETS: usize = 0x7fff_ffff_ffff_ffff;

/// What is kept of a part that was checked: the presences and the acceptance of its states, and the targets over classes where it is merged.
#[derive(Drop)]
pub struct PartRoom {
    pub presences: Vec<u16>,
    pub finals: Vec<bool>,
    /// The targets of the entries over classes.
    pub merged: Vec<u32>,
    /// Whether the states are classes: the targets are those in `merged` then.
    pub is_merged: bool,
}

/// Where the targets of a part's operands are laid, before the part is checked.
#[derive(Drop)]
pub struct ListRoom {
    pub first: TargetList,
    pub second: TargetList,
    pub lay: LayRoom,
}

/// What each part in its turn is checked in: the labels of its states, and one label more; the lists of its operands' targets; and the
/// first state of each class, where it is merged.
#[derive(Drop)]
pub struct LabelRoom {
    pub rows: StateLabels,
    pub out: Vec<u64>,
    pub lists: ListRoom,
    pub leaders: Vec<u32>,
}

/// The most states and targets of a table whose list is laid.
#[derive(Clone, Copy, Default)]
pub struct ListNeeds {
    pub states: usize,
    pub targets: usize,
}

/// What room labels need, and the lists of operands.
#[derive(Clone, Copy, Default)]
pub struct LabelNeeds {
    /// The words of a label.
    pub width: usize,
    /// The words of all labels, where a label is narrow.
    pub narrow: usize,
    /// The words of all labels, where a label is wide.
    pub wide: usize,
    /// How many wide labels there are.
    pub most: usize,
    /// The words of a wide label.
    pub widest: usize,
    /// How many states the part has at most: `LayRoom` is for these too.
    pub states: usize,
    pub first: ListNeeds,
    pub second: ListNeeds,
    /// The most classes of a merge.
    pub leaders: usize,
}

/// One more than the greatest target, or 0.
fn states_named(targets: &[u32]) -> usize
    ensures { result ≡ stage targets.now }
{
    let mut most = 0u32;
    // the greatest of bare numbers is found several at a time
    for target in targets {
        most = most.max(*target);
    }
    if targets.is_empty() {
        0
    } else {
        most as usize + 1
    }
}

/// The most states that the targets can make.
pub fn most_states(targets: &[u32]) -> usize
    ensures { result ≡ most_states_lem targets.now }
{
    states_named(targets).min(targets.len())
}

impl PartRoom {
    /// Room for all that is kept of these targets, and for those over classes where they are merged.
    pub fn new(alloc: Global, targets: &[u32], merges: bool) -> Result<PartRoom, AllocError>
        ensures room { IfOk result (HasRoom targets.now) }
        ensures merge_room { IfOk result (λ r. IsTrue merges → HasMergeRoom targets.now r) }
        ensures not_merged { IfOk result (λ r. IsFalse r.is_merged) }
    {
        let states = most_states(targets);
        let classes = if merges { targets.len() } else { 0 };
        Ok(PartRoom {
            presences: Vec::with_capacity(alloc, states)?,
            finals: Vec::with_capacity(alloc, states)?,
            merged: Vec::with_capacity(alloc, classes)?,
            is_merged: false,
        })
    }
}

impl ListNeeds {
    /// What suffices for both.
    fn max(self, other: ListNeeds) -> ListNeeds
        ensures own { IsAsLong self result }
        ensures other { IsAsLong other result }
    {
        ListNeeds {
            states: self.states.max(other.states),
            targets: self.targets.max(other.targets),
        }
    }
}

/// Whether there is a number for each start in a list of so many targets.
fn has_starts(targets: usize) -> bool
    ensures { IsTrue result ↔ (targets < 2 ^ 63) }
{
    targets <= MOST_TARGETS
}

/// The room for a list. More targets than there are numbers for are want of memory.
fn list_for(alloc: Global, needs: ListNeeds) -> Result<TargetList, AllocError>
    ensures { IfOk result (HasListRoom needs.states needs.targets) }
{
    if !has_starts(needs.targets) {
        return Err(AllocError);
    }
    TargetList::with_room(alloc, needs.states, needs.targets)
}

impl LabelNeeds {
    /// What so many labels of this width need, or none where there are more words than numbers for them.
    pub fn new(width: usize, count: usize) -> Option<LabelNeeds>
        ensures some { IfSome result (IsSpaceFor width count) }
        ensures none { IfNone result (2 ^ 64 ≤ width * count) }
    {
        let words = width.checked_mul(count)?;
        if width > NARROW {
            return Some(LabelNeeds {
                width,
                narrow: 0,
                wide: words,
                most: count,
                widest: width,
                states: count,
                first: ListNeeds::default(),
                second: ListNeeds::default(),
                leaders: 0,
            });
        }
        Some(LabelNeeds {
            width,
            narrow: words,
            wide: 0,
            most: 0,
            widest: 0,
            states: count,
            first: ListNeeds::default(),
            second: ListNeeds::default(),
            leaders: 0,
        })
    }

    /// The same, with room for the lists of operands.
    pub fn with_lists(self, first: ListNeeds, second: ListNeeds) -> LabelNeeds
        ensures labels { (width count : ℕ) → IsSpaceFor width count self
            → IsSpaceFor width count result }
        ensures first { result.first ≡ first }
        ensures second { result.second ≡ second }
        ensures leaders { result.leaders ≡ self.leaders }
    {
        LabelNeeds {
            width: self.width,
            narrow: self.narrow,
            wide: self.wide,
            most: self.most,
            widest: self.widest,
            states: self.states,
            first,
            second,
            leaders: self.leaders,
        }
    }

    /// The same, with room for the first states of so many classes.
    pub fn with_leaders(self, leaders: usize) -> LabelNeeds
        ensures labels { (width count : ℕ) → IsSpaceFor width count self
            → IsSpaceFor width count result }
        ensures first { result.first ≡ self.first }
        ensures second { result.second ≡ self.second }
        ensures leaders { result.leaders ≡ leaders }
    {
        LabelNeeds {
            width: self.width,
            narrow: self.narrow,
            wide: self.wide,
            most: self.most,
            widest: self.widest,
            states: self.states,
            first: self.first,
            second: self.second,
            leaders,
        }
    }

    /// What suffices for both.
    pub fn max(self, other: LabelNeeds) -> LabelNeeds
        ensures own { IsAsNeedy self result }
        ensures other { IsAsNeedy other result }
    {
        LabelNeeds {
            width: self.width.max(other.width),
            narrow: self.narrow.max(other.narrow),
            wide: self.wide.max(other.wide),
            most: self.most.max(other.most),
            widest: self.widest.max(other.widest),
            states: self.states.max(other.states),
            first: self.first.max(other.first),
            second: self.second.max(other.second),
            leaders: self.leaders.max(other.leaders),
        }
    }
}

impl LabelRoom {
    /// Room for what labels need.
    pub fn new(alloc: Global, needs: LabelNeeds) -> Result<LabelRoom, AllocError>
        ensures { IfOk result (HasNeeds needs) }
    {
        let lists = needs.first.states.max(needs.second.states);
        let states = needs.states.max(lists);
        Ok(LabelRoom {
            rows: StateLabels::new(alloc, needs.narrow, needs.wide, needs.most, needs.widest)?,
            out: Vec::with_capacity(alloc, needs.width)?,
            lists: ListRoom {
                first: list_for(alloc, needs.first)?,
                second: list_for(alloc, needs.second)?,
                lay: LayRoom::new(alloc, states)?,
            },
            leaders: Vec::with_capacity(alloc, needs.leaders)?,
        })
    }
}
