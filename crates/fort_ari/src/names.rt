//! Names of variables that stand twice in a rule.
ghost use Rattle.std.specs.Prelude.{◌≡◌, ◌++◌, ℕ, List, map, Contains, IfOk, IfErr, IfSome, IfNone, OnOk, bytes_eq};
ghost use Rattle.std.specs.List.{IsDistinct};
ghost use Rattle.fort_grammar.specs.RuleForms.{IsFirstMetAgain, IsFirstAlso};
ghost use Rattle.fort_ari.specs.Faults.{as_fault};
ghost use Rattle.fort_ari.specs.SideForms.{AreBadNames};

use crate::fault::ProblemFault;
use std::alloc::{AllocError, Global};
use std::collections::HashSet;

/// The name that is first met for a second time.
fn first_met_again<'a>(alloc: Global, names: &[&'a [u8]]) -> Result<Option<&'a [u8]>, AllocError>
    ensures again { IfOk result (λ r. IfSome r (λ name.
        IsFirstMetAgain (map (λ x. x.now) names.now) name.now)) }
    ensures once { IfOk result (λ r. IfNone r
        (IsDistinct bytes_eq (map (λ x. x.now) names.now))) }
{
    let mut met = HashSet::new(alloc);
    'names: for i in 0..names.len() {
        let name = names[i];
        if !met.insert(name)? {
            return Ok(Some(name));
        }
    }
    Ok(None)
}

/// The first name that is one of the others too.
fn first_also<'a>(
    alloc: Global,
    names: &[&'a [u8]],
    others: &[&'a [u8]],
) -> Result<Option<&'a [u8]>, AllocError>
    ensures also { IfOk result (λ r. IfSome r (λ name.
        IsFirstAlso (map (λ x. x.now) names.now) (map (λ x. x.now) others.now) name.now)) }
    ensures apart { IfOk result (λ r. IfNone r ((x : List ℕ) →
        Contains (map (λ y. y.now) names.now) x → Contains (map (λ y. y.now) others.now) x → ⊥)) }
{
    let mut there = HashSet::new(alloc);
    'others: for other in others {
        there.insert(*other)?;
    }
    'names: for i in 0..names.len() {
        let name = names[i];
        if there.contains(name) {
            return Ok(Some(name));
        }
    }
    Ok(None)
}

/// Finds a variable that stands twice in the rule of this number, by the names of both sides.
pub(crate) fn check_names(
    alloc: Global,
    left: &[&[u8]],
    right: &[&[u8]],
    number: u32,
) -> Result<(), ProblemFault>
    ensures ok { OnOk result (IsDistinct bytes_eq
        (map (λ x. x.now) left.now ++ map (λ x. x.now) right.now)) }
    ensures fault { IfErr result (λ fault. IfSome (as_fault fault)
        (AreBadNames number (map (λ x. x.now) left.now) (map (λ x. x.now) right.now))) }
{
    if let Some(name) = first_met_again(alloc, left)? {
        return Err(ProblemFault::LeftRepeats(number, Vec::from_slice(alloc, name)?));
    }
    if let Some(name) = first_met_again(alloc, right)? {
        return Err(ProblemFault::RightRepeats(number, Vec::from_slice(alloc, name)?));
    }
    if let Some(name) = first_also(alloc, left, right)? {
        return Err(ProblemFault::Shares(number, Vec::from_slice(alloc, name)?));
    }
    Ok(())
}
