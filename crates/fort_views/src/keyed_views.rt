//! Leaders by keys: the least states of each presence and key.
ghost use Rattle.std.specs.Prelude.{◌≡◌, ℕ, ◌+◌, ◌^◌, ◌<◌, ◌≤◌, List, [], map, length, slice_index, slice_index_or, OnOk};
ghost use Rattle.fort_theory.specs.Signatures as theory;
ghost use Rattle.fort_tables.specs.Tuples.{TupleSymbol};
ghost use Rattle.fort_tables.specs.Labels.{first_word};
ghost use Rattle.fort_classes.specs.Keys.{leaders_by};
ghost use Rattle.fort_tuple_symbols.specs.Columns.{symbol_of};
ghost use Rattle.fort_label_keys.specs.ViewKeys.{keys_by};
ghost use Rattle.fort_leading_walk.specs.Turns.{MayTurn};
ghost use Rattle.fort_views.specs.Views.{IsClassOf, HaveClasses};
ghost use Rattle.fort_views.specs.SymbolViews.{AreViewsOf, IsTurnedTo, IsRankedAt, IsStateAt, place_states, leaders_at};
ghost use Rattle.fort_views.specs.Ranks.{AreRanks};

use crate::place_views::PlaceViews;
use crate::views::Views;
use fort_label_keys::LabelKeys;
use fort_labels::Rows;
use fort_leading_walk::{LeaderLists, SymbolLeaders};
use fort_terms::Signature;
use std::alloc::{AllocError, Global};

/// Keys, and the views by them.
#[derive(Drop)]
pub struct KeyedViews<'a, K: LabelKeys> {
    pub keys: &'a K,
    pub views: Views,
    /// The views of the places under the tuple symbol to which it is turned.
    pub places: PlaceViews,
    /// For the key of one label after another.
    pub key: Vec<u64>,
}

impl<'a, K: LabelKeys> KeyedViews<'a, K> {
    /// No state is taken up.
    pub fn new(alloc: Global, sig: &Signature, columns: usize, keys: &'a K) -> KeyedViews<'a, K>
        requires { columns ≤ 16 }
        ensures keys { result.keys.now ≡ keys.now }
        ensures views { (labels : List (List ℕ)) → AreViewsOf (K.view keys.now) (K.key keys.now)
            sig.now columns labels 0 result.views }
        ensures places { result.places ≡ [] }
    {
        KeyedViews {
            keys,
            views: Views::new(alloc, sig, columns),
            places: PlaceViews::none(),
            key: Vec::new(alloc),
        }
    }

    /// Turns to a tuple symbol: to the views of its places, which take up the states up to the newest one. After an error it cannot be
    /// asked again.
    pub fn turn(
        &mut self,
        rows: &Rows,
        digits: &[u32],
        wanted: &[u32],
        newest: u32,
    ) -> Result<(), AllocError>
        requires known { (sig : theory.Signature) × (columns : ℕ) × (until : ℕ)
            × MayTurn (λ sig columns labels until. AreViewsOf (K.view self.old.keys.now)
            (K.key self.old.keys.now) sig columns labels until self.old.views) sig columns
            rows.now.labels until (symbol_of digits.now) wanted.now newest }
        requires width { rows.now.width ≡ K.word_count self.old.keys.now }
        requires within { newest < length rows.now.labels }
        requires numbers { length rows.now.labels < 2 ^ 32 }
        requires columns { length digits.now ≤ 16 }
        requires small { (k : ℕ) → slice_index_or digits.now k 0 ≤ 65536 }
        requires places { length wanted.now ≤ 8 }
        ensures keys { self.new.keys ≡ self.old.keys }
        ensures known { OnOk result ((sig : theory.Signature) (columns until : ℕ)
            → MayTurn (λ sig columns labels until. AreViewsOf (K.view self.old.keys.now)
            (K.key self.old.keys.now) sig columns labels until self.old.views) sig columns
            rows.now.labels until (symbol_of digits.now) wanted.now newest
            → AreViewsOf (K.view self.new.keys.now) (K.key self.new.keys.now) sig columns
            rows.now.labels (newest + 1) self.new.views) }
        ensures turned { OnOk result (IsTurnedTo (K.view self.old.keys.now)
            (K.key self.old.keys.now) rows.now.labels newest (symbol_of digits.now) wanted.now
            self.new.views.views.items self.new.places) }
    {
        let places = self.views.places(self.keys, digits, wanted)?;
        self.views.take_up(self.keys, rows, places.numbers(), newest + 1, &mut self.key)?;
        self.places = places;
        Ok(())
    }

    /// How many classes there are at a place: as many as leaders.
    pub fn class_count(&self, place: usize) -> usize
        requires { place < length self.now.places }
        ensures { result ≡ length (slice_index_or (leaders_at self.now.views.views.items
            self.now.places) place []) }
    {
        let numbers = self.places.numbers();
        self.views.leaders(numbers[place]).len()
    }

    /// The class of a state at a place, by its rank among the states of the presence there: the place of its leader among the
    /// leaders.
    pub fn class_of(&self, place: usize, rank: usize) -> u32
        requires { (labels : List (List ℕ)) × (newest : ℕ) × (f : TupleSymbol) × (wanted : List ℕ)
            × IsTurnedTo (K.view self.now.keys.now) (K.key self.now.keys.now) labels newest f wanted
            self.now.views.views.items self.now.places
            × IsRankedAt labels newest wanted place rank }
        ensures { (labels : List (List ℕ)) (newest : ℕ) (f : TupleSymbol) (wanted : List ℕ)
            → IsTurnedTo (K.view self.now.keys.now) (K.key self.now.keys.now) labels newest f wanted
            self.now.views.views.items self.now.places
            → IsRankedAt labels newest wanted place rank
            → IsClassOf (slice_index_or (leaders_at self.now.views.views.items self.now.places)
            place []) (leaders_by (keys_by (K.view self.now.keys.now) (K.key self.now.keys.now))
            labels f place (slice_index (place_states labels newest wanted place) rank)) result }
    {
        let numbers = self.places.numbers();
        self.views.class_of(numbers[place], rank)
    }

    /// The classes of the states at a place that have the presence there, by their ranks.
    pub fn classes(&self, place: usize) -> &[u32]
        requires { place < length self.now.places }
        ensures { (labels : List (List ℕ)) (newest : ℕ) (f : TupleSymbol) (wanted : List ℕ)
            → IsTurnedTo (K.view self.now.keys.now) (K.key self.now.keys.now) labels newest f wanted
            self.now.views.views.items self.now.places
            → HaveClasses (slice_index_or (leaders_at self.now.views.views.items self.now.places)
            place []) (leaders_by (keys_by (K.view self.now.keys.now) (K.key self.now.keys.now))
            labels f place) (place_states labels newest wanted place) result.now }
    {
        let numbers = self.places.numbers();
        self.views.classes(numbers[place])
    }

    /// The leader of a state at a place; `ranks` are those of all states.
    pub fn leader_of(&self, place: usize, state: u32, ranks: &[u32]) -> u32
        requires { (labels : List (List ℕ)) × (newest : ℕ) × (f : TupleSymbol) × (wanted : List ℕ)
            × IsTurnedTo (K.view self.now.keys.now) (K.key self.now.keys.now) labels newest f wanted
            self.now.views.views.items self.now.places
            × IsStateAt labels newest wanted place state
            × AreRanks (map first_word labels) ranks.now }
        ensures { (labels : List (List ℕ)) (newest : ℕ) (f : TupleSymbol) (wanted : List ℕ)
            → IsTurnedTo (K.view self.now.keys.now) (K.key self.now.keys.now) labels newest f wanted
            self.now.views.views.items self.now.places
            → IsStateAt labels newest wanted place state
            → AreRanks (map first_word labels) ranks.now
            → result ≡ leaders_by (keys_by (K.view self.now.keys.now) (K.key self.now.keys.now))
            labels f place state }
    {
        let class = self.class_of(place, ranks[state as usize] as usize);
        self.leaders(place)[class as usize]
    }
}

impl<'a, K: LabelKeys> LeaderLists for KeyedViews<'a, K> {
    ghost use Rattle.fort_views.specs.SymbolViews.{leaders_at};

    ghost lists = { λ s. leaders_at s.views.views.items s.places };

    fn places(&self) -> usize {
        self.places.numbers().len()
    }

    fn leaders(&self, place: usize) -> &[u32] {
        let numbers = self.places.numbers();
        self.views.leaders(numbers[place])
    }
}

impl<'a, K: LabelKeys> SymbolLeaders for KeyedViews<'a, K> {
    ghost use Rattle.fort_label_keys.specs.ViewKeys.{keys_by};
    ghost use Rattle.fort_views.specs.SymbolViews.{AreViewsOf};
    ghost use Rattle.fort_views.specs.ViewsStay.{AreViewsOf-stay};

    ghost keys = { λ s. keys_by (K.view s.keys.now) (K.key s.keys.now) };

    ghost word_count = { λ s. K.word_count s.keys.now };

    ghost knows = { λ s sig columns labels until. AreViewsOf (K.view s.keys.now)
        (K.key s.keys.now) sig columns labels until s.views };

    ghost stays = { λ s sig columns labels w until within known. AreViewsOf-stay
        (K.view s.keys.now) (K.key s.keys.now) sig columns labels w until s.views known };

    fn turn_to(
        &mut self,
        rows: &Rows,
        digits: &[u32],
        wanted: &[u32],
        newest: u32,
    ) -> Result<(), AllocError> {
        self.turn(rows, digits, wanted, newest)
    }
}
