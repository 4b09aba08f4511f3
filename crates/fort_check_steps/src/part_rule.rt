//! Rules by which the targets of a part may be held otherwise than entry by entry.
ghost use Rattle.std.specs.Prelude.{◌≡◌, ℕ, ◌<◌, ◌^◌, map, length, IsTrue};
ghost use Rattle.fort_tables.specs.Labels.{first_word, AreLabels};
ghost use Rattle.fort_tables.specs.LabelRules.{label_of};
ghost use Rattle.fort_target_lists.specs.LayRooms.{HasLayRoom};
ghost use Rattle.fort_products.specs.HeldTargets.{AreHeldFrom};

use fort_labels::{LocalRule, Rows};
use fort_products::Both;
use fort_table::Table;
use fort_target_lists::LayRoom;
use fort_terms::Signature;

/// A rule whose part's targets may be held against the labels by other means than entry by entry.
pub trait PartRule: LocalRule {
    /// Whether `are_targets` may say true: else a walk before it would be in vain.
    fn is_quick(&self) -> bool {
        false
    }

    /// Whether the targets are those of the entries from a place on, where the states have these labels; false where it isn't known.
    /// It takes no memory.
    fn are_targets(
        &self,
        lay: &mut LayRoom,
        sig: &Signature,
        presences: &[u16],
        labels: &Rows,
        targets: &[u32],
        from: usize,
    ) -> bool
        requires signature { (Self.rule self.now).signature ≡ sig.now }
        requires few { length targets.now < 2 ^ 32 }
        requires few_states { length presences.now < 2 ^ 32 }
        requires presences { presences.now ≡ map first_word labels.now.labels }
        requires labels { AreLabels (Self.rule self.now).signature (Self.rule self.now).columns
            (label_of (Self.rule self.now)) labels.now.labels }
        requires room { HasLayRoom (length presences.now) lay.old }
        ensures held { IsTrue result → AreHeldFrom (Self.rule self.now) from targets.now
            labels.now.labels }
        ensures room { (n : ℕ) → HasLayRoom n lay.old → HasLayRoom n lay.new }
    {
        false
    }
}

impl<'a, T: Table> PartRule for Both<'a, T> {
    fn is_quick(&self) -> bool {
        true
    }

    fn are_targets(
        &self,
        lay: &mut LayRoom,
        sig: &Signature,
        presences: &[u16],
        labels: &Rows,
        targets: &[u32],
        from: usize,
    ) -> bool {
        Both::are_targets(self, lay, sig, presences, labels, targets, from)
    }
}
