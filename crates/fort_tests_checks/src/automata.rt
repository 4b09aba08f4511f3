//! Tests of tree automata, transducers and their closures.
ghost use Rattle.std.specs.Prelude.{◌≡◌, ◌≤◌, [], ◌∷◌, IfOk, codes, length};
ghost use Rattle.fort_theory.specs.Signatures.{symbol};
ghost use Rattle.fort_transducers.specs.AgttView.{NamesItsStates};
ghost use Rattle.fort_gtt_closure.specs.Reasons.{IsNumbered};

use fort_gtt_closure::{Why, close, closed_agtt};
use fort_terms::{AddFault, Side, Sides, Signature, Sym, System, Term};
use fort_transducers::{Agtt, inverse, root_steps, union};
use std::alloc::{AllocError, Global};
use std::process::Abort;
use std::test::Fail;

/// Constants a and b, g of two arguments and f of one.
fn symbols(alloc: Global) -> Result<Signature, AddFault>
    ensures { let more = symbol (codes "g") 2 ∷ symbol (codes "f") 1 ∷ [] in
        IfOk result (λ s. s ≡ symbol (codes "a") 0 ∷ symbol (codes "b") 0 ∷ more) }
{
    let mut signature = Signature::empty(alloc);
    signature.add(b"a", 0)?;
    signature.add(b"b", 0)?;
    signature.add(b"g", 2)?;
    signature.add(b"f", 1)?;
    Ok(signature)
}

/// Index 1: g(x, b) -> a. Index 2: a -> b. Index 3: a -> f(a).
fn system(alloc: Global) -> Result<System, Fail>
    ensures { IfOk result (λ s. length s.rules ≡ 3) }
{
    let mut system = System::new(alloc, symbols(alloc)?, 3)?;
    let a = Side::App(Sym(0), Sides::new(Vec::new(alloc)));
    let b = Side::App(Sym(1), Sides::new(Vec::new(alloc)));
    system.push(2, &a, &b)?;
    let over_b = Side::App(Sym(2), Sides::new(vec![in alloc; Side::Var(0), b]?));
    system.push(1, &over_b, &a)?;
    let inner = Side::App(Sym(0), Sides::new(Vec::new(alloc)));
    let over_a = Side::App(Sym(3), Sides::new(vec![in alloc; inner]?));
    system.push(3, &a, &over_a)?;
    Ok(system)
}

/// The root steps of an index, whose transducer is small.
fn steps(alloc: Global, index: u32) -> Result<Agtt, Fail>
    requires low { 1 ≤ index }
    requires high { index ≤ 3 }
    ensures named { IfOk result NamesItsStates }
    ensures numbered { IfOk result IsNumbered }
    ensures few_left { IfOk result (λ agtt. agtt.left.states ≤ 9) }
    ensures few_right { IfOk result (λ agtt. agtt.right.states ≤ 9) }
{
    let agtt = root_steps(alloc, &system(alloc)?, index)?;
    if agtt.left.moves.len() > 9 || agtt.right.moves.len() > 9 || agtt.pairs.len() > 9 {
        return Err(Fail::from("many moves"));
    }
    if agtt.left.states > 9 || agtt.right.states > 9 {
        return Err(Fail::from("many states"));
    }
    Ok(agtt)
}

/// The root steps of index 1, those from right to left, and those of index 2 either way.
fn transducer(alloc: Global, which: usize) -> Result<Agtt, Fail>
    ensures { IfOk result NamesItsStates }
{
    match which {
        0 => steps(alloc, 1),
        1 => Ok(inverse(alloc, &steps(alloc, 1)?)?),
        _ => {
            let there = steps(alloc, 2)?;
            let back = inverse(alloc, &there)?;
            Ok(union(alloc, &there, &back)?)
        }
    }
}

/// The terms a, b, g(a, b), g(b, b), g(b, a).
fn terms(alloc: Global) -> Result<Vec<Term>, AllocError> {
    let mut terms = Vec::new(alloc);
    for (sym, kids) in [
        (0, [].as_slice()),
        (1, [].as_slice()),
        (2, [0, 1].as_slice()),
        (2, [1, 1].as_slice()),
        (2, [1, 0].as_slice()),
    ] {
        terms.push(term(alloc, sym, kids)?)?;
    }
    Ok(terms)
}

/// A symbol over constants.
fn term(alloc: Global, sym: u16, constants: &[u16]) -> Result<Term, AllocError> {
    let mut kids = Vec::new(alloc);
    for constant in constants {
        kids.push(Term {
            sym: Sym(*constant),
            kids: Vec::new(alloc),
        })?;
    }
    Ok(Term {
        sym: Sym(sym),
        kids,
    })
}

fn relates(alloc: Global, agtt: &Agtt, s: &Term, t: &Term) -> Result<bool, AllocError>
    requires { NamesItsStates agtt.now }
{
    let lefts = agtt.left.states_of(alloc, s)?;
    let rights = agtt.right.states_of(alloc, t)?;
    for pair in &agtt.pairs {
        if lefts.contains(&pair.0) && rights.contains(&pair.1) {
            return Ok(true);
        }
    }
    Ok(false)
}

/// Which transducer relates which two terms.
const RELATED: [(usize, usize, usize); 6] = [
    (0, 2, 0),
    (0, 3, 0),
    (1, 0, 2),
    (1, 0, 3),
    (2, 0, 1),
    (2, 1, 0),
];

#[test]
fn terms_that_are_related(rt: HostRuntime) -> Result<(), Fail> {
    let alloc = rt.alloc();
    let terms = terms(alloc)?;
    for which in 0..3 {
        let agtt = transducer(alloc, which)?;
        for (i, s) in terms.iter().enumerate() {
            for (j, t) in terms.iter().enumerate() {
                let wanted = RELATED.contains(&(which, i, j));
                assert_eq!(rt; relates(alloc, &agtt, s, t)?, wanted, "{which} {i} {j}");
            }
        }
    }
    Ok(())
}

#[test]
fn nothing_to_be_trimmed(rt: HostRuntime) -> Result<(), Fail> {
    let alloc = rt.alloc();
    // The patterns Any, b and g(Any, b).
    let patterns = steps(alloc, 1)?.left;
    let inhabited = patterns.inhabited(alloc)?;
    assert_eq!(rt; inhabited.as_slice(), [true, true, true].as_slice());
    let trimmed = patterns.trim(alloc)?;
    assert_eq!(rt; trimmed.any, Some(0));
    assert_eq!(rt; trimmed.moves.len(), 2);
    Ok(())
}

#[test]
fn growing_term(rt: HostRuntime) -> Result<(), Fail> {
    let alloc = rt.alloc();
    let agtt = steps(alloc, 3)?;
    let closed = close(alloc, &agtt)?;
    assert_eq!(rt; closed.entries.len(), 1);
    for entry in &closed.entries {
        assert_eq!(rt; (entry.p, entry.q), (0, 0));
        assert!(rt; matches!(entry.why, Why::Kids(0, 0)));
    }
    let larger = closed_agtt(alloc, &agtt, &closed)?;
    assert_eq!(rt; larger.left.silent.len(), 0);
    assert_eq!(rt; larger.right.silent.as_slice(), [(1, 0)].as_slice());
    Ok(())
}
