//! A table's targets by the classes of its states.
ghost use Rattle.std.specs.Prelude.{◌≡◌, ℕ, ◌+◌, ◌<◌, ◌≤◌, ◌^◌, length, slice_index};
ghost use Rattle.fort_tables.specs.Tuples.{TupleSymbol};
ghost use Rattle.fort_tables.specs.Entries.{entry};
ghost use Rattle.fort_tables.specs.Tables as tables;
ghost use Rattle.fort_target_lists.specs.Places.{number_of};
ghost use Rattle.fort_target_lists.specs.Flats.{base_of};
ghost use Rattle.fort_target_lists.specs.ClassLists.{IsClassListOf, IsListAt, IsClassRow, IsClassed, HasClassAt, view_of, view_classes, class_in, leader_in, view_leaders};
ghost use Rattle.fort_target_lists.specs.ToldTables.{AreAllButLast};

use crate::numbers::symbol_number;
use fort_class_blocks::Blocks;
use fort_tuple_symbols::TupleSym;

/// Of the states of one presence each one's class, by its rank among them, and the least state of each class, its leader.
#[derive(Drop)]
pub struct ClassView {
    pub classes: Vec<u32>,
    pub leaders: Vec<u32>,
}

/// The targets of a table by the classes of its states: at a place under a tuple symbol states of one class can take each other's
/// place, whatever the other children are, and an entry's target is found by its children's classes.
///
/// A tuple symbol's number leads to where the numbers of its places' views begin, and to its block: a target for each combination of
/// classes, in mixed radices.
#[derive(Drop)]
pub struct ClassList {
    /// One more than there are symbols.
    pub base: usize,
    /// Each state's rank among the states of its presence.
    pub ranks: Vec<u32>,
    pub views: Vec<ClassView>,
    /// For each tuple symbol, by its number, where the numbers of its places' views begin.
    pub starts: Vec<usize>,
    pub numbers: Vec<u32>,
    /// For each tuple symbol, by its number, its targets.
    pub blocks: Blocks,
}

impl ClassList {
    /// The number of a tuple symbol.
    pub fn number(&self, symbol: &TupleSym) -> usize
        requires some { 0 < self.now.base }
        requires small { number_of self.now.base symbol.now < 2 ^ 64 }
        ensures { result ≡ number_of self.now.base symbol.now }
    {
        symbol_number(symbol, self.base)
    }

    /// The number of a place's view, under the tuple symbol of this number.
    pub fn view(&self, number: usize, place: usize) -> u32
        requires number { number < length self.now.starts.items }
        requires place { slice_index self.now.starts.items number + place
            < length self.now.numbers.items }
        ensures { result ≡ view_of self.now number place }
    {
        // its clause bounds the length
        let _count = self.numbers.len();
        self.numbers[self.starts[number] + place]
    }

    /// The class of a state in the view of this number.
    pub fn class(&self, view: u32, state: u32) -> u32
        requires state { state < length self.now.ranks.items }
        requires classed { IsClassed self.now view state }
        ensures { result ≡ class_in self.now view state }
    {
        let rank = self.ranks[state as usize];
        let view = &self.views[view as usize];
        view.classes[rank as usize]
    }

    /// The least state of a state's class in the view of this number.
    pub fn leader(&self, view: u32, state: u32) -> u32
        requires state { state < length self.now.ranks.items }
        requires classed { IsClassed self.now view state }
        ensures { result ≡ leader_in self.now view state }
    {
        let class = self.class(view, state);
        self.leaders(view)[class as usize]
    }

    /// The least states of the classes in the view of this number, by class.
    pub fn leaders(&self, view: u32) -> &[u32]
        requires { view < length self.now.views.items }
        ensures { result.now ≡ view_leaders self.now view }
    {
        let view = &self.views[view as usize];
        view.leaders.as_slice()
    }

    /// The classes in the view of this number, by the states' ranks.
    pub fn classes(&self, view: u32) -> &[u32]
        requires { view < length self.now.views.items }
        ensures { result.now ≡ view_classes self.now view }
    {
        let view = &self.views[view as usize];
        view.classes.as_slice()
    }

    /// The classes of children at their places, under the tuple symbol of this number.
    pub(crate) fn kid_classes(&self, number: usize, kids: &[u32]) -> [u32; 8]
        requires few { length kids.now ≤ 8 }
        requires classed { (j : ℕ) → j < length kids.now
            → HasClassAt self.now number j (slice_index kids.now j) }
        ensures { (j : ℕ) → j < length kids.now → slice_index result j
            ≡ class_in self.now (view_of self.now number j) (slice_index kids.now j) }
    {
        let mut classes = [0u32; 8];
        for place in 0..kids.len() {
            classes[place] = self.class(self.view(number, place), kids[place]);
        }
        classes
    }

    /// The target of the entry over these child states, whose tuple symbol has this number.
    pub fn target(&self, number: usize, kids: &[u32]) -> u32
        requires { (body : tables.Table) × (f : TupleSymbol) × IsClassListOf body self.now
            × (number ≡ number_of (base_of body) f)
            × tables.IsTableEntry body (entry f kids.now) }
        ensures { (body : tables.Table) (f : TupleSymbol) → IsClassListOf body self.now
            → number ≡ number_of (base_of body) f
            → tables.IsTableEntry body (entry f kids.now)
            → result ≡ body.target (entry f kids.now) }
    {
        // its clause says that no block has more than 8 places
        let _blocks = self.blocks.len();
        let classes = self.kid_classes(number, kids);
        self.blocks.target(number, &classes[..kids.len()])
    }
    /// The targets over these child states, the last child's being left, by its class.
    pub fn row(&self, number: usize, kids: &[u32]) -> &[u32]
        requires { (body : tables.Table) × (f : TupleSymbol) × IsListAt body self.now f number
            × AreAllButLast body f kids.now }
        ensures { (body : tables.Table) (f : TupleSymbol) → IsListAt body self.now f number
            → AreAllButLast body f kids.now → IsClassRow body self.now f kids.now result.now }
    {
        // its clause says that no block has more than 8 places
        let _blocks = self.blocks.len();
        let classes = self.kid_classes(number, kids);
        self.blocks.row(number, &classes[..kids.len()])
    }
}
