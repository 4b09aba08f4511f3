//! Tables that tell their states by classes.
ghost use Rattle.std.specs.Prelude.{◌≡◌, ℕ, ◌<◌, ◌^◌};
ghost use Rattle.fort_tables.specs.Tuples.{TupleSymbol};
ghost use Rattle.fort_classes.specs.Leaders.{Leaders, MayBeKid};
ghost use Rattle.fort_operand_keys.specs.TableLeaders.{IsLedBy};
ghost use Rattle.fort_table_classes.specs.ClassViews.{IsPlaceUnder, IsSeenIn};

use fort_table::Table;
use fort_tuple_symbols::TupleSym;

/// A table that tells, at each place under a tuple symbol, its states by classes.
pub trait TableClasses: Table {
    /// The leader of a state's class.
    ghost lead: { Self → Leaders };

    /// Which view a place has: places of one view have the same leaders.
    ghost view_number: { Self → TupleSymbol → ℕ → ℕ };

    /// The leader of a state in the view of this number.
    ghost leader_in: { Self → ℕ → ℕ → ℕ };

    /// The number of a place's view.
    fn view(&self, symbol: &TupleSym, place: usize) -> u32
        requires { IsPlaceUnder (Self.table self.now) symbol.now place }
        ensures { result ≡ view_number self.now symbol.now place };

    /// The leader of a state that may stand at some place of this view.
    fn leader(&self, view: u32, state: u32) -> u32
        requires { IsSeenIn (Self.table self.now) (view_number self.now) view state }
        ensures { result ≡ leader_in self.now view state };

    /// Views are few.
    ghost few: { (s : Self) (f : TupleSymbol) (j : ℕ) → IsPlaceUnder (Self.table s) f j
        → view_number s f j < 2 ^ 32 };

    /// A place's leaders are those in its view.
    ghost leads: { (s : Self) (f : TupleSymbol) (j q : ℕ) → MayBeKid (Self.table s).signature
        (Self.table s).columns (Self.table s).presences f j q
        → lead s f j q ≡ leader_in s (view_number s f j) q };

    /// The leaders tell the targets.
    ghost is_led: { (s : Self) → IsLedBy (Self.table s) (lead s) };
}
