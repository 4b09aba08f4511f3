//! The leaders at the places under one tuple symbol after another.
ghost use Rattle.std.specs.Prelude.{◌≡◌, ℕ, ◌+◌, ◌^◌, ◌<◌, ◌≤◌, List, [], ◌∷◌, ◌++◌, map, length, slice_index_or, OnOk};
ghost use Rattle.fort_theory.specs.Signatures.{Signature};
ghost use Rattle.fort_tables.specs.Labels.{first_word};
ghost use Rattle.fort_tuple_symbols.specs.Columns.{symbol_of};
ghost use Rattle.fort_classes.specs.Keys.{Keys, leaders_by};
ghost use Rattle.fort_leading_walk.specs.LeaderStates.{leader_states};
ghost use Rattle.fort_leading_walk.specs.Turns.{MayTurn};

use crate::leader_lists::LeaderLists;
use fort_labels::Rows;
use std::alloc::AllocError;

/// The leaders at the places under one tuple symbol after another, of states that go by the keys of their labels.
pub trait SymbolLeaders: LeaderLists {
    /// What is asked of a child's label at a place.
    ghost keys: { Self → Keys };

    /// How many words each label has.
    ghost word_count: { Self → ℕ };

    /// It serves entries of this signature over so many columns; of the states with these labels it has taken up those before this one.
    ghost knows: { Self → Signature → ℕ → List (List ℕ) → ℕ → Type 0 };

    /// Turns to a tuple symbol: the lists become those of its places, of the states up to the newest one. After an error it cannot be
    /// asked again.
    fn turn_to(
        &mut self,
        rows: &Rows,
        digits: &[u32],
        wanted: &[u32],
        newest: u32,
    ) -> Result<(), AllocError>
        requires known { (sig : Signature) × (columns : ℕ) × (until : ℕ)
            × MayTurn (knows self.old) sig columns rows.now.labels until (symbol_of digits.now)
            wanted.now newest }
        requires width { rows.now.width ≡ word_count self.old }
        requires within { newest < length rows.now.labels }
        requires numbers { length rows.now.labels < 2 ^ 32 }
        requires columns { length digits.now ≤ 16 }
        requires small { (k : ℕ) → slice_index_or digits.now k 0 ≤ 65536 }
        requires places { length wanted.now ≤ 8 }
        ensures asked { keys self.new ≡ keys self.old }
        ensures width { word_count self.new ≡ word_count self.old }
        ensures known { OnOk result ((sig : Signature) (columns until : ℕ)
            → MayTurn (knows self.old) sig columns rows.now.labels until (symbol_of digits.now)
            wanted.now newest → knows self.new sig columns rows.now.labels (newest + 1)) }
        ensures turned { OnOk result ((sig : Signature) (columns until : ℕ)
            → MayTurn (knows self.old) sig columns rows.now.labels until (symbol_of digits.now)
            wanted.now newest → Self.lists self.new ≡ leader_states
            (leaders_by (keys self.old) rows.now.labels) (symbol_of digits.now)
            (map first_word rows.now.labels) newest 0 wanted.now) };

    /// What it knows stays where a state is added.
    ghost stays: { (s : Self) (sig : Signature) (columns : ℕ) (labels : List (List ℕ))
        (w : List ℕ) (until : ℕ) → until ≤ length labels → knows s sig columns labels until
        → knows s sig columns (labels ++ w ∷ []) until };
}
