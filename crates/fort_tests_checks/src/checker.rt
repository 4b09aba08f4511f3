//! Checks of a certificate of "infinitely many terms go to some term", where f(x) goes to a.
ghost use Rattle.std.specs.Prelude.{◌≡◌, length, IfOk};
ghost use Rattle.fort_formulas.specs.CoreView.{as_core};
ghost use Rattle.fort_tests_checks.specs.CheckedFormulas.{many_reduced};

use fort_cert_checker::{Checker, Rejected};
use fort_check_steps::Reason;
use fort_findings::{ClosureEntry, Count, Reason as Why, Which};
use fort_formulas::{Arm, Core};
use fort_relations::Rel;
use fort_steps::{Certificate, Step};
use fort_terms::{Side, Sides, Signature, Sym, System};
use std::alloc::{AllocError, Global};
use std::test::Fail;

/// The rule f(x) -> a, under index 1.
fn system_of(alloc: Global) -> Result<System, Fail>
    ensures { IfOk result (λ s. length s.rules ≡ 1) }
{
    let mut signature = Signature::empty(alloc);
    signature.add(b"a", 0)?;
    signature.add(b"f", 1)?;
    let mut system = System::new(alloc, signature, 1)?;
    let left = Side::App(Sym(1), Sides::new(vec![in alloc; Side::Var(0)]?));
    let right = Side::App(Sym(0), Sides::new(Vec::new(alloc)));
    system.push(1, &left, &right)?;
    Ok(system)
}

fn many_reduced(alloc: Global) -> Result<Core, AllocError>
    ensures { IfOk result (λ c. as_core c ≡ many_reduced) }
{
    let some = Core::Exists(1, Arm::new(alloc, Core::Atom(Rel::Star, 1, 0, 1))?);
    Ok(Core::Infinite(0, Arm::new(alloc, some)?))
}

/// A certificate whose second mark names this child.
fn certificate_of(alloc: Global, child: u32) -> Result<Certificate, AllocError> {
    let pair = ClosureEntry {
        p: 0,
        q: 0,
        why: Why::Any,
    };
    let pairs = [0, 1, 2, 3, 4, 5, 6, 7, 3, 4, 8, 5, 6, 7, 7, 8];
    let marks = [Count::Finite(0), Count::Infinite(child)];
    let mut steps = Vec::new(alloc);
    steps.push(Step::Closure(Which::Star, 1, Vec::from_slice(alloc, &[pair])?))?;
    steps.push(Step::Part(0, Vec::from_slice(alloc, &pairs)?))?;
    steps.push(Step::Part(1, Vec::from_slice(alloc, &[0, 1, 1])?))?;
    steps.push(Step::Counts(2, Vec::from_slice(alloc, &marks)?))?;
    steps.push(Step::Value(2, true))?;
    Ok(Certificate {
        first: 5,
        verdict: true,
        steps,
    })
}

/// A certificate in which the states of "some term is reached" are joined: the second is of this class.
fn certificate_with_merge(alloc: Global, class: u32) -> Result<Certificate, AllocError> {
    let pair = ClosureEntry {
        p: 0,
        q: 0,
        why: Why::Any,
    };
    let pairs = [0, 1, 2, 3, 4, 5, 6, 7, 3, 4, 8, 5, 6, 7, 7, 8];
    let mut steps = Vec::new(alloc);
    steps.push(Step::Closure(Which::Star, 1, Vec::from_slice(alloc, &[pair])?))?;
    steps.push(Step::Part(0, Vec::from_slice(alloc, &pairs)?))?;
    steps.push(Step::Part(1, Vec::from_slice(alloc, &[0, 1, 1])?))?;
    steps.push(Step::Merge(1, Vec::from_slice(alloc, &[0, class])?))?;
    steps.push(Step::Counts(2, Vec::from_slice(alloc, &[Count::Infinite(0)])?))?;
    steps.push(Step::Value(2, true))?;
    Ok(Certificate {
        first: 5,
        verdict: true,
        steps,
    })
}

/// Whether each of two checks of a certificate gives this answer.
fn is_answer(
    alloc: Global,
    certificate: &Certificate,
    answer: Result<bool, Rejected>,
) -> Result<bool, Fail> {
    let system = system_of(alloc)?;
    let core = many_reduced(alloc)?;
    let mut checker = Checker::new(alloc, &system, &core, certificate)?;
    let first = checker.check();
    Ok(first == answer && checker.check() == answer)
}

#[test]
fn the_same_again(rt: HostRuntime) -> Result<(), Fail> {
    let alloc = rt.alloc();
    assert!(rt; is_answer(alloc, &certificate_of(alloc, 1)?, Ok(true))?);
    let rejected = Rejected {
        form: 9,
        place: 1,
        reason: Reason::Cycle,
    };
    assert!(rt; is_answer(alloc, &certificate_of(alloc, 0)?, Err(rejected))?);
    Ok(())
}

#[test]
fn states_are_joined(rt: HostRuntime) -> Result<(), Fail> {
    let alloc = rt.alloc();
    assert!(rt; is_answer(alloc, &certificate_with_merge(alloc, 0)?, Ok(true))?);
    let rejected = Rejected {
        form: 9,
        place: 1,
        reason: Reason::Class,
    };
    assert!(rt; is_answer(alloc, &certificate_with_merge(alloc, 2)?, Err(rejected))?);
    Ok(())
}
