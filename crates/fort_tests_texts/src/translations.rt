//! The core formulas of formulas.
ghost use Rattle.std.specs.Prelude.{◌≡◌, [], IfOk};
ghost use Rattle.fort_logic.specs.Mentions.{places, places_in};
ghost use Rattle.fort_formulas.specs.FormulaView.{as_argument, as_formula};

use fort_formulas::{Arg, Core, Formula, Kind, Macro, Name, Operand, kind, parts, to_core};
use fort_relations::{Holes, Place, Rex};
use std::alloc::Global;
use std::test::Fail;

/// The kinds of the parts of the formula that says CR and SN, by their places.
const CONFLUENT_AND_TERMINATING: [Kind; 28] = [
    // some term reduces to both
    Kind::Star,
    Kind::Star,
    Kind::And,
    Kind::Exists,
    Kind::Not,
    // both reduce to some term
    Kind::Star,
    Kind::Star,
    Kind::And,
    Kind::Exists,
    // for all two
    Kind::Or,
    Kind::Not,
    Kind::Exists,
    Kind::Not,
    Kind::Not,
    Kind::Exists,
    Kind::Not,
    // no infinitely many reducts
    Kind::Star,
    Kind::Infinite,
    Kind::Not,
    // no reduct on a cycle
    Kind::Plus,
    Kind::And,
    Kind::Exists,
    Kind::Not,
    // for all
    Kind::And,
    Kind::Not,
    Kind::Exists,
    Kind::Not,
    Kind::And,
];

fn variable(alloc: Global, letter: u8) -> Result<Arg, Fail>
    ensures { IfOk result (λ a. places_in (as_argument a) ≡ []) }
{
    Ok(Arg::Var(Name::new(vec![in alloc; letter]?)))
}

/// The core formula of a formula in which no ground term is written.
fn core_of(alloc: Global, formula: &Formula) -> Result<Core, Fail>
    requires { places (as_formula formula.now) ≡ [] }
{
    Ok(to_core(alloc, formula, &[]).ok().ok_or("no core formula")?)
}

#[test]
fn a_root_step_in_any_context(rt: HostRuntime) -> Result<(), Fail> {
    let alloc = rt.alloc();
    let x = variable(alloc, b'x')?;
    let y = variable(alloc, b'y')?;
    let formula = Formula::Rex(Rex::Root(1), Holes::One, Place::All, x, y);
    let core = core_of(alloc, &formula)?;
    assert!(rt; core == Core::Rel(Rex::Root(1), Holes::One, Place::All, 0, 1));
    Ok(())
}

#[test]
fn confluent_and_terminating(rt: HostRuntime) -> Result<(), Fail> {
    let alloc = rt.alloc();
    let confluent = Operand::new(alloc, Formula::Macro(Macro::Cr, 1))?;
    let terminating = Operand::new(alloc, Formula::Sn(None, 1))?;
    let core = core_of(alloc, &Formula::And(confluent, terminating))?;
    let found = parts(alloc, &core)?;
    assert_eq!(rt; found.len(), CONFLUENT_AND_TERMINATING.len());
    for (part, expected) in found.iter().zip(CONFLUENT_AND_TERMINATING) {
        assert_eq!(rt; kind(part), expected);
    }
    Ok(())
}
