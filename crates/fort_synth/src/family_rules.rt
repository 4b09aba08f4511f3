//! The rules of a family: each pattern with each ground term.
ghost use Rattle.std.specs.Prelude.{◌≡◌, ◌≤◌, ◌++◌, map, length, IfOk, OnOk, IsErrOf};
ghost use Rattle.fort_terms.specs.PatternView.{as_pattern};
ghost use Rattle.fort_answers.specs.FamilyRules.{IsFamily, IsTooLarge, most_family_rules};
ghost use Rattle.fort_synth.specs.FamilyLists as lists;
ghost use Rattle.fort_synth.specs.FamilyView.{as_family_rule};

use crate::family_patterns::patterns_up_to;
use fort_terms::{Pattern, Signature, Term};
use std::alloc::{AllocError, AllocFailed, Global};

/// The most rules of a family that is listed.
pub(crate) const MOST_RULES: usize = 4096;

/// Why there is no list of a family's rules.
#[derive(Clone, Copy, Debug, PartialEq, Eq)]
pub enum FamilyFault {
    /// Want of memory.
    Memory,
    /// The family has more than 4,096 rules.
    TooLarge,
}

impl From<AllocError> for FamilyFault {
    ghost use Rattle.std.specs.Prelude.{◌≡◌};
    ghost use Rattle.fort_synth.specs.declared.family_rules.FamilyFault.TheVariants.{Memory};

    ghost from_gives = { λ _ r. r ≡ Memory };

    fn from(_e: AllocError) -> FamilyFault {
        FamilyFault::Memory
    }
}

impl<T: Drop> From<AllocFailed<T>> for FamilyFault {
    ghost use Rattle.std.specs.Prelude.{◌≡◌};
    ghost use Rattle.fort_synth.specs.declared.family_rules.FamilyFault.TheVariants.{Memory};

    ghost from_gives = { λ _ r. r ≡ Memory };

    fn from(_e: AllocFailed<T>) -> FamilyFault {
        FamilyFault::Memory
    }
}

/// The rules of the family of this height over a signature, each once: every pair of a pattern and
/// a ground term over the signature, neither higher than `height`. They are ordered by their
/// patterns, and then by their terms; both go by their symbols and then by their arguments from
/// left to right, and [`Pattern::Any`] comes before every symbol. There are as many as patterns
/// times terms. A signature without a constant has no ground term, and so no rule.
///
/// It gives [`FamilyFault::TooLarge`] where the family has more than 4,096 rules, and
/// [`FamilyFault::Memory`] for want of memory alone. It builds no list of more than 4,096 patterns,
/// terms or rules, whatever the signature and the height.
pub fn family(
    alloc: Global,
    signature: &Signature,
    height: u32,
) -> Result<Vec<(Pattern, Term)>, FamilyFault>
    ensures rules { IfOk result (λ rules. IsFamily signature.now height
        (map as_family_rule rules.items)) }
    ensures few { IfOk result (λ rules. length rules.items ≤ most_family_rules) }
    ensures too_large { IsErrOf result FamilyFault.TooLarge → IsTooLarge signature.now height }
{
    if !signature.has_constant() {
        return Ok(Vec::new(alloc));
    }
    let patterns = patterns_up_to(alloc, signature, height)?;
    let terms = ground_terms(alloc, &patterns)?;
    if patterns.len() * terms.len() > MOST_RULES {
        return Err(FamilyFault::TooLarge);
    }
    let rules = all_rules(alloc, &patterns, &terms)?;
    Ok(rules)
}

/// Each pattern with each term, in order.
fn all_rules(
    alloc: Global,
    patterns: &[Pattern],
    terms: &[Term],
) -> Result<Vec<(Pattern, Term)>, AllocError>
    ensures { IfOk result (λ rules. map as_family_rule rules.items
        ≡ lists.all_rules (map as_pattern patterns.now) terms.now) }
{
    let mut rules = Vec::new(alloc);
    for pattern in patterns {
        push_rules(alloc, pattern, terms, &mut rules)?;
    }
    Ok(rules)
}

/// Adds the rules from a pattern to each of the terms.
fn push_rules(
    alloc: Global,
    left: &Pattern,
    terms: &[Term],
    rules: &mut Vec<(Pattern, Term)>,
) -> Result<(), AllocError>
    ensures { OnOk result (map as_family_rule rules.new.items
        ≡ map as_family_rule rules.old.items ++ map (λ t. (as_pattern left.now, t)) terms.now) }
{
    for term in terms {
        rules.push((left.copy(alloc)?, term.copy(alloc)?))?;
    }
    Ok(())
}

/// The ground terms among the patterns, in order.
fn ground_terms(alloc: Global, patterns: &[Pattern]) -> Result<Vec<Term>, AllocError>
    ensures { IfOk result (λ terms. terms.items
        ≡ lists.ground_terms (map as_pattern patterns.now)) }
{
    let mut terms = Vec::new(alloc);
    for pattern in patterns {
        match ground_term(alloc, pattern)? {
            Some(term) => terms.push(term)?,
            None => {}
        }
    }
    Ok(terms)
}

/// The pattern as a term; `None` where a variable has a place in it.
fn ground_term(alloc: Global, pattern: &Pattern) -> Result<Option<Term>, AllocError>
    ensures { IfOk result (λ term. term ≡ lists.ground_term (as_pattern pattern.now)) }
{
    match pattern {
        Pattern::Any => Ok(None),
        Pattern::App(sym, args) => {
            let mut kids = Vec::new(alloc);
            for arg in args.as_slice() {
                match ground_term(alloc, arg)? {
                    Some(kid) => kids.push(kid)?,
                    None => return Ok(None),
                }
            }
            Ok(Some(Term { sym: *sym, kids }))
        }
    }
}
