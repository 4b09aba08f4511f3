//! Core formulas and expressions as keys.
use super::keys::check_keys;
use fort_formulas::{Arm, Core};
use fort_relations::{Holes, Place, Rel, Rex, RexArm};
use fort_terms::{Sym, Term};
use std::alloc::Global;
use std::test::Fail;

/// A formula, or a connective and the variable that it binds.
#[derive(Clone, Copy)]
enum Shape {
    True,
    Atom(Rel, u32, u32, u32),
    /// By root steps of this index.
    Rel(u32, Holes, Place, u32, u32),
    Nf(u32, u32),
    /// The variable is the constant with this symbol.
    Is(u32, u16),
    Not,
    And,
    Or,
    Iff,
    Exists(u32),
    Infinite(u32),
}

/// Formulas in ascending order, each made of the one before; the last one has every connective.
const SHAPES: [Shape; 22] = [
    Shape::True,
    Shape::Atom(Rel::Eq, 1, 1, 0),
    Shape::Atom(Rel::Root, 1, 1, 1),
    Shape::Atom(Rel::Root, 2, 0, 0),
    Shape::Atom(Rel::Conv, 1, 0, 0),
    Shape::Rel(2, Holes::One, Place::Root, 0, 1),
    Shape::Rel(1, Holes::One, Place::Root, 1, 0),
    Shape::Rel(2, Holes::One, Place::Root, 1, 0),
    Shape::Rel(1, Holes::One, Place::All, 0, 0),
    Shape::Rel(1, Holes::Any, Place::Root, 0, 0),
    Shape::Nf(1, 1),
    Shape::Nf(2, 0),
    Shape::Is(0, 1),
    Shape::Is(1, 0),
    Shape::Not,
    Shape::Not,
    Shape::And,
    Shape::Or,
    Shape::Iff,
    Shape::Exists(0),
    Shape::Exists(1),
    Shape::Infinite(0),
];

fn operand(alloc: Global, formulas: &[Core]) -> Result<Arm, Fail> {
    let formula = formulas.last().ok_or("no formula before")?;
    Ok(Arm::new(alloc, formula.copy(alloc)?)?)
}

fn formula(alloc: Global, before: &[Core], shape: Shape) -> Result<Core, Fail> {
    match shape {
        Shape::True => Ok(Core::True),
        Shape::Atom(rel, index, x, y) => Ok(Core::Atom(rel, index, x, y)),
        Shape::Rel(index, holes, place, x, y) => {
            Ok(Core::Rel(Rex::Root(index), holes, place, x, y))
        }
        Shape::Nf(index, x) => Ok(Core::Nf(index, x)),
        Shape::Is(x, symbol) => {
            let sym = Sym(symbol);
            let kids = Vec::new(alloc);
            Ok(Core::Is(x, Term { sym, kids }))
        }
        Shape::Not => Ok(Core::Not(operand(alloc, before)?)),
        Shape::And => Ok(Core::And(operand(alloc, before)?, Arm::new(alloc, Core::True)?)),
        Shape::Or => Ok(Core::Or(operand(alloc, before)?, Arm::new(alloc, Core::True)?)),
        Shape::Iff => Ok(Core::Iff(Arm::new(alloc, Core::True)?, operand(alloc, before)?)),
        Shape::Exists(n) => Ok(Core::Exists(n, operand(alloc, before)?)),
        Shape::Infinite(n) => Ok(Core::Infinite(n, operand(alloc, before)?)),
    }
}

#[test]
fn formulas_as_keys(rt: HostRuntime) -> Result<(), Fail> {
    let alloc = rt.alloc();
    let mut formulas = Vec::new(alloc);
    for shape in SHAPES {
        let next = formula(alloc, &formulas, shape)?;
        formulas.push(next)?;
    }
    let mut copies = Vec::new(alloc);
    for formula in &formulas {
        copies.push(formula.copy(alloc)?)?;
    }
    check_keys(&rt, alloc, formulas, copies)
}

/// The node of an expression.
#[derive(Clone, Copy)]
enum Node {
    Root(u32),
    Inv,
    /// With root steps behind.
    Union,
    /// With root steps before.
    Comp,
    Clos,
}

/// Expressions in ascending order, each made of the one before.
const NODES: [Node; 9] = [
    Node::Root(1),
    Node::Root(2),
    Node::Inv,
    Node::Inv,
    Node::Union,
    Node::Union,
    Node::Comp,
    Node::Clos,
    Node::Clos,
];

fn last_expression(alloc: Global, before: &[Rex]) -> Result<RexArm, Fail> {
    let last = before.last().ok_or("no expression before")?;
    Ok(RexArm::new(alloc, last.copy(alloc)?)?)
}

fn expression(alloc: Global, before: &[Rex], node: Node) -> Result<Rex, Fail> {
    match node {
        Node::Root(index) => Ok(Rex::Root(index)),
        Node::Inv => Ok(Rex::Inv(last_expression(alloc, before)?)),
        Node::Union => {
            let first = last_expression(alloc, before)?;
            Ok(Rex::Union(first, RexArm::new(alloc, Rex::Root(1))?))
        }
        Node::Comp => {
            let second = last_expression(alloc, before)?;
            Ok(Rex::Comp(RexArm::new(alloc, Rex::Root(1))?, second))
        }
        Node::Clos => Ok(Rex::Clos(last_expression(alloc, before)?)),
    }
}

#[test]
fn expressions_as_keys(rt: HostRuntime) -> Result<(), Fail> {
    let alloc = rt.alloc();
    let mut expressions = Vec::new(alloc);
    for node in NODES {
        let next = expression(alloc, &expressions, node)?;
        expressions.push(next)?;
    }
    let mut copies = Vec::new(alloc);
    for expression in &expressions {
        copies.push(expression.copy(alloc)?)?;
    }
    check_keys(&rt, alloc, expressions, copies)
}
