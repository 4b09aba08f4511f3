//! One side of the labels of an expression: the states that a node has by the moves of an automaton.
ghost use Rattle.std.specs.Prelude.{◌≡◌, ℕ, ◌+◌, ◌*◌, ◌-◌, ◌<◌, ◌≤◌, ◌^◌, ◌||◌, map, length, get_or, slice_index_or, Contains, IfOk, vec_items};
ghost use Rattle.std.specs.List.{list_any};
ghost use Rattle.fort_alike.specs.AutomatonMoves.{AreMovesOf};
ghost use Rattle.fort_label_bits.specs.RootPlaces.{IsRooted};
ghost use Rattle.fort_label_bits.specs.RowBits.{bit_of, labels_at};
ghost use Rattle.fort_relation_exprs.specs.Sides.{IsSide, adds_at, any_moves, leads_in, leads_to, move_in, move_roots, moves_in, no_move, numbered_move, numbered_moves, side_adds};
ghost use Rattle.fort_tree_automata.specs.NtaView.{NamesItsStates, as_move, automaton_of};
ghost use Rattle.fort_tuple_symbols.specs.Columns.{as_column};

use crate::leads::leads_of;
use fort_label_bits::{Numbered, Rooted, add_row, is_inside, row_at};
use fort_labels::Rows;
use fort_terms::Sym;
use fort_tree_automata::{Move, Nta};
use fort_tuple_symbols::Row;
use std::alloc::{AllocError, Global};

/// A move: at a node where the pattern holds over the children's states, the target is a state.
#[derive(Drop)]
pub(crate) struct SideMove {
    pub pattern: Numbered,
    pub target: usize,
}

/// One side.
#[derive(Drop)]
pub(crate) struct Side {
    /// The number of states.
    pub count: usize,
    /// The moves.
    pub moves: Vec<SideMove>,
    /// The moves by the roots of their patterns.
    pub roots: Rooted,
    /// For each state the row of the bits of those that it leads to by silent moves, itself included.
    pub leads: Vec<Vec<u64>>,
}

impl Side {
    /// Of an automaton; the states have the bits from `base` on, in rows of `width` words.
    pub(crate) fn new(
        alloc: Global,
        nta: &Nta,
        base: usize,
        width: usize,
    ) -> Result<Side, AllocError>
        requires named { NamesItsStates nta.now }
        requires base { base < 2 ^ 33 }
        requires room { base + nta.now.states ≤ 64 * (width - 1) }
        ensures side { IfOk result (IsSide base width) }
        ensures count { IfOk result (λ s. s.count ≡ nta.now.states) }
        ensures moves { IfOk result (λ s. AreMovesOf (automaton_of nta.now) nta.now.states
            (moves_in s) (leads_to base s)) }
    {
        let moves = side_moves(alloc, nta)?;
        let roots = root_moves(alloc, moves.as_slice())?;
        let leads = leads_of(alloc, nta, base, width)?;
        Ok(Side {
            count: nta.states as usize,
            moves,
            roots,
            leads,
        })
    }

    /// Adds the bits of the states at a node with this root over the row's children.
    pub(crate) fn write(
        &self,
        base: usize,
        root: Option<Sym>,
        row: &Row,
        rows: &Rows,
        out: &mut [u64],
    )
        requires side { (width : ℕ) × IsSide base width self.now × (width ≤ length out.old) }
        requires small { base < 2 ^ 62 }
        requires within { (j : ℕ) → j < length row.now.kids
            → slice_index_or row.now.kids j 0 < length rows.now.labels }
        ensures { (q : ℕ) → bit_of q out.new ≡ (bit_of q out.old || side_adds base
            (moves_in self.now) (leads_in self.now) (as_column root)
            (labels_at rows.now.labels row.now.kids) q) }
    {
        match root {
            None => {}
            Some(f) => {
                write_listed(self, self.roots.at(f), base, root, row, rows, out);
                let any = self.roots.any.as_slice();
                write_listed(self, any, base, root, row, rows, out);
            }
        }
    }
}

/// Adds the bits of the states by the moves at these places.
fn write_listed(
    side: &Side,
    listed: &[usize],
    base: usize,
    root: Option<Sym>,
    row: &Row,
    rows: &Rows,
    out: &mut [u64],
)
    requires side { (width : ℕ) × IsSide base width side.now × (width ≤ length out.old) }
    requires listed { (k : ℕ) → Contains listed.now k → k < length (moves_in side.now) }
    requires small { base < 2 ^ 62 }
    requires within { (j : ℕ) → j < length row.now.kids
        → slice_index_or row.now.kids j 0 < length rows.now.labels }
    ensures { (q : ℕ) → bit_of q out.new ≡ (bit_of q out.old || list_any (adds_at base
        (moves_in side.now) (leads_in side.now) (as_column root)
        (labels_at rows.now.labels row.now.kids) q) listed.now) }
{
    for k in listed {
        let step = move_at(&side.moves, *k);
        let holds = is_inside(base, &step.pattern, root, row, rows);
        add_row(holds, row_at(&side.leads, step.target), out);
    }
}

/// The move at a place.
fn move_at(moves: &[SideMove], place: usize) -> &SideMove
    requires { place < length moves.now }
    ensures { move_in result.now ≡ get_or (map move_in moves.now) place no_move }
{
    &moves[place]
}

/// The moves of an automaton, the state that takes every term first.
fn side_moves(alloc: Global, nta: &Nta) -> Result<Vec<SideMove>, AllocError>
    ensures { IfOk result (λ moves. map move_in moves.items ≡ numbered_moves nta.now) }
{
    let mut moves = first_moves(alloc, nta.any)?;
    for step in nta.moves.as_slice() {
        moves.push(move_of(alloc, step)?)?;
    }
    Ok(moves)
}

/// A move for the state that takes every term, if there is one.
fn first_moves(alloc: Global, any: Option<u32>) -> Result<Vec<SideMove>, AllocError>
    ensures { IfOk result (λ moves. map move_in moves.items ≡ any_moves any) }
{
    let mut moves = Vec::new(alloc);
    match any {
        None => Ok(moves),
        Some(state) => {
            let pattern = Numbered {
                sym: None,
                args: Vec::new(alloc),
            };
            moves.push(SideMove {
                pattern,
                target: state as usize,
            })?;
            Ok(moves)
        }
    }
}

fn move_of(alloc: Global, step: &Move) -> Result<SideMove, AllocError>
    ensures { IfOk result (λ made. move_in made ≡ numbered_move (as_move step.now)) }
{
    let pattern = Numbered {
        sym: Some(step.sym),
        args: Vec::from_slice(alloc, step.kids.as_slice())?,
    };
    Ok(SideMove {
        pattern,
        target: step.target as usize,
    })
}

/// The moves under the roots of their patterns.
fn root_moves(alloc: Global, moves: &[SideMove]) -> Result<Rooted, AllocError>
    ensures { IfOk result (IsRooted (move_roots (map move_in moves.now))) }
{
    let mut roots = Rooted::new(alloc);
    for (k, step) in moves.iter().enumerate() {
        roots.push(alloc, step.pattern.root(), k)?;
    }
    Ok(roots)
}
