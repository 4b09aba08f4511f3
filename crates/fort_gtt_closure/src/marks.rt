//! Marks of pairs of a right and a left state in a table, row by row.
ghost use Rattle.std.specs.Prelude.{◌≡◌, ◌<◌, ◌*◌, ℕ, Contains, Some, length, true};
ghost use Rattle.fort_gtt_closure.specs.Grids.{is_listed};
ghost use Rattle.fort_gtt_closure.specs.Marks.{IsMarked, KeepsSet};

use crate::grid::Grid;

/// How many right and how many left states there are.
#[derive(Clone, Copy)]
pub(crate) struct Shape {
    pub(crate) height: u32,
    pub(crate) width: u32,
}

pub(crate) fn mark(cells: &mut [bool], shape: Shape, p: u32, q: u32)
    requires { length cells.old ≡ shape.height * shape.width }
    ensures kept { KeepsSet cells.old cells.new }
    ensures marked { IsMarked shape cells.new p q }
{
    if p < shape.height && q < shape.width {
        cells[p as usize * shape.width as usize + q as usize] = true;
    }
}

/// The pair of each second number with q.
pub(crate) fn mark_rights(cells: &mut [bool], shape: Shape, rights: &[(u32, u32)], q: u32)
    requires { length cells.old ≡ shape.height * shape.width }
    ensures kept { KeepsSet cells.old cells.new }
    ensures marked { (right : ℕ × ℕ) → Contains rights.now right →
        IsMarked shape cells.new right.1 q }
{
    for right in rights {
        mark(cells, shape, right.1, q);
    }
}

/// The pair of p with each second number.
pub(crate) fn mark_lefts(cells: &mut [bool], shape: Shape, p: u32, lefts: &[(u32, u32)])
    requires { length cells.old ≡ shape.height * shape.width }
    ensures kept { KeepsSet cells.old cells.new }
    ensures marked { (left : ℕ × ℕ) → Contains lefts.now left → IsMarked shape cells.new p left.1 }
{
    for left in lefts {
        mark(cells, shape, p, left.1);
    }
}

/// The pairs of second numbers whose first numbers are the same.
pub(crate) fn mark_meeting(
    cells: &mut [bool],
    shape: Shape,
    rights: &[(u32, u32)],
    lefts: &[(u32, u32)],
)
    requires { length cells.old ≡ shape.height * shape.width }
    ensures kept { KeepsSet cells.old cells.new }
    ensures marked { (right : ℕ × ℕ) → Contains rights.now right →
        (left : ℕ × ℕ) → Contains lefts.now left →
        right.0 ≡ left.0 → IsMarked shape cells.new right.1 left.1 }
{
    for right in rights {
        mark_meeting_one(cells, shape, *right, lefts);
    }
}

fn mark_meeting_one(cells: &mut [bool], shape: Shape, right: (u32, u32), lefts: &[(u32, u32)])
    requires { length cells.old ≡ shape.height * shape.width }
    ensures kept { KeepsSet cells.old cells.new }
    ensures marked { (left : ℕ × ℕ) → Contains lefts.now left → right.0 ≡ left.0 →
        IsMarked shape cells.new right.1 left.1 }
{
    for left in lefts {
        if right.0 == left.0 {
            mark(cells, shape, right.1, left.1);
        }
    }
}

/// The pair of p with each left state that is listed with another right state.
pub(crate) fn mark_row(cells: &mut [bool], shape: Shape, grid: &Grid, through: u32, p: u32)
    requires { length cells.old ≡ shape.height * shape.width }
    ensures kept { KeepsSet cells.old cells.new }
    ensures marked { (q : ℕ) → is_listed grid.now.entries.items through q ≡ true →
        IsMarked shape cells.new p q }
{
    for q in 0..shape.width {
        if grid.has(through, q) {
            mark(cells, shape, p, q);
        }
    }
}

/// The pairs of a state that takes every term with each state of the other automaton.
pub(crate) fn mark_any(cells: &mut [bool], shape: Shape, right: Option<u32>, left: Option<u32>)
    requires { length cells.old ≡ shape.height * shape.width }
    ensures right { (p q : ℕ) → right ≡ Some p → IsMarked shape cells.new p q }
    ensures left { (p q : ℕ) → left ≡ Some q → IsMarked shape cells.new p q }
{
    if let Some(p) = right {
        mark_all_lefts(cells, shape, p);
    }
    if let Some(q) = left {
        mark_all_rights(cells, shape, q);
    }
}

fn mark_all_lefts(cells: &mut [bool], shape: Shape, p: u32)
    requires { length cells.old ≡ shape.height * shape.width }
    ensures kept { KeepsSet cells.old cells.new }
    ensures marked { (q : ℕ) → IsMarked shape cells.new p q }
{
    for q in 0..shape.width {
        mark(cells, shape, p, q);
    }
}

fn mark_all_rights(cells: &mut [bool], shape: Shape, q: u32)
    requires { length cells.old ≡ shape.height * shape.width }
    ensures kept { KeepsSet cells.old cells.new }
    ensures marked { (p : ℕ) → IsMarked shape cells.new p q }
{
    for p in 0..shape.height {
        mark(cells, shape, p, q);
    }
}
