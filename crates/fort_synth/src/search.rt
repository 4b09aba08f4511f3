//! The search through the systems of a family.
ghost use Rattle.std.specs.Prelude.{◌≡◌, ◌<◌, ◌≤◌, ◌+◌, All, IfOk, IfErr, IfSome, IfNone, Ok, Err, [], true, length, map, drop};
ghost use Rattle.fort_theory.specs.Signatures.{HasConstant};
ghost use Rattle.fort_answers.specs.FamilyRules.{Ascend};
ghost use Rattle.fort_synth.specs.CandidateRules.{rules_at};
ghost use Rattle.fort_synth.specs.FamilyView.{as_family_rule};
ghost use Rattle.fort_synth.specs.SearchAnswers.{AnswersNoOnAll, FitsRule, IfDecide, IsFirstAnswer, MayAskAll};
ghost use Rattle.fort_synth.specs.SearchSteps.{IsOutcome, MayAskEach};

use crate::candidate::candidate;
use fort_terms::{Pattern, Signature, System, Term};
use std::alloc::{AllocError, AllocFailed, Global};

/// Why a search through a family has no result.
#[derive(Drop)]
pub enum SynthFault<E> {
    /// Want of memory.
    Memory,
    /// `decide` answered this fault on this system.
    Decide { system: System, fault: E },
}

impl<E> From<AllocError> for SynthFault<E> {
    ghost use Rattle.std.specs.Prelude.{◌≡◌};
    ghost use Rattle.fort_synth.specs.declared.search.SynthFault.TheVariants.{Memory};

    ghost from_gives = { λ _ r. r ≡ Memory };

    fn from(_e: AllocError) -> SynthFault<E> {
        SynthFault::Memory
    }
}

impl<E, T: Drop> From<AllocFailed<T>> for SynthFault<E> {
    ghost use Rattle.std.specs.Prelude.{◌≡◌};
    ghost use Rattle.fort_synth.specs.declared.search.SynthFault.TheVariants.{Memory};

    ghost from_gives = { λ _ r. r ≡ Memory };

    fn from(_e: AllocFailed<T>) -> SynthFault<E> {
        SynthFault::Memory
    }
}

/// The first system of `count` rules of the family on which `decide` answers `Ok(true)`, or None
/// where it answers `Ok(false)` on all. Each system has one index, the signature given, and its
/// rules in the order of the family; the systems come in the lexicographic order of their rules.
/// `Memory` is want of memory; `Decide` comes at the first system on which `decide` answers a fault.
pub fn first_system<E, F: Fn(&System) -> Result<bool, E>>(
    alloc: Global,
    signature: &Signature,
    count: usize,
    family: &[(Pattern, Term)],
    decide: &F,
) -> Result<Option<System>, SynthFault<E>>
    requires constant { HasConstant signature.now }
    requires fits { All (FitsRule signature.now) (map as_family_rule family.now) }
    requires ascend { Ascend (map as_family_rule family.now) }
    requires some { 1 ≤ count }
    requires few { count ≤ 4 }
    requires callable { MayAskAll F.Fn decide.now signature.now
        (map as_family_rule family.now) count }
    ensures found { IfOk result (λ o. IfSome o (λ s. IsFirstAnswer F.Fn decide.now signature.now
        (map as_family_rule family.now) count (Ok true) s)) }
    ensures none { IfOk result (λ o. IfNone o (AnswersNoOnAll F.Fn decide.now signature.now
        (map as_family_rule family.now) count)) }
    ensures fault { IfErr result (λ e. IfDecide e (λ s fault. IsFirstAnswer F.Fn decide.now
        signature.now (map as_family_rule family.now) count (Err fault) s)) }
{
    let mut chosen = Vec::new(alloc);
    search(alloc, signature, family, decide, &mut chosen, 0, count)
}

/// Goes through the systems of the chosen rules and `left` more of those from place `from` on.
/// Where none is found, the chosen places are as before.
fn search<E, F: Fn(&System) -> Result<bool, E>>(
    alloc: Global,
    signature: &Signature,
    family: &[(Pattern, Term)],
    decide: &F,
    chosen: &mut Vec<usize>,
    from: usize,
    left: usize,
) -> Result<Option<System>, SynthFault<E>>
    requires constant { HasConstant signature.now }
    requires fits { All (FitsRule signature.now) (map as_family_rule family.now) }
    requires few { length chosen.old.items + left ≤ 4 }
    requires within { All (λ place. place < length family.now) chosen.old.items }
    requires start { from ≤ length family.now }
    requires callable { MayAskEach F.Fn decide.now signature.now
        (rules_at (map as_family_rule family.now) chosen.old.items) left
        (drop from (map as_family_rule family.now)) }
    ensures outcome { IsOutcome F.Fn decide.now signature.now
        (rules_at (map as_family_rule family.now) chosen.old.items) left
        (drop from (map as_family_rule family.now)) result }
    ensures same { IfOk result (λ o. IfNone o (chosen.new.items ≡ chosen.old.items)) }
{
    if left == 0 {
        return ask(alloc, signature, family, decide, chosen);
    }
    for place in from..family.len() {
        chosen.push(place)?;
        let found = search(
            alloc,
            signature,
            family,
            decide,
            chosen,
            place + 1,
            left - 1,
        )?;
        if found.is_some() {
            return Ok(found);
        }
        chosen.pop();
    }
    Ok(None)
}

/// The system of the chosen rules, if `decide` answers `Ok(true)` on it.
fn ask<E, F: Fn(&System) -> Result<bool, E>>(
    alloc: Global,
    signature: &Signature,
    family: &[(Pattern, Term)],
    decide: &F,
    chosen: &[usize],
) -> Result<Option<System>, SynthFault<E>>
    requires constant { HasConstant signature.now }
    requires fits { All (FitsRule signature.now) (map as_family_rule family.now) }
    requires few { length chosen.now ≤ 4 }
    requires within { All (λ place. place < length family.now) chosen.now }
    requires callable { MayAskEach F.Fn decide.now signature.now
        (rules_at (map as_family_rule family.now) chosen.now) 0 [] }
    ensures { IsOutcome F.Fn decide.now signature.now
        (rules_at (map as_family_rule family.now) chosen.now) 0 [] result }
{
    let system = candidate(alloc, signature, family, chosen)?;
    match decide(&system) {
        Ok(true) => Ok(Some(system)),
        Ok(false) => Ok(None),
        Err(fault) => Err(SynthFault::Decide { system, fault }),
    }
}
