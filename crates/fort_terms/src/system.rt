//! Systems of rules, each rule under an index, as pairs of patterns.
ghost use Rattle.std.specs.Prelude.{◌≡◌, ◌↔◌, ℕ, ◌<◌, ◌≤◌, ◌*◌, ◌++◌, length, map, OnOk, OnErr, IfOk, IsErrOf, IsTrue};
ghost use Rattle.std.specs.List.Sorted.{IsStrictlySortedBy};
ghost use Rattle.std.specs.Ordering.{on};
ghost use Rattle.fort_theory.specs.Signatures.{most_indices, HasConstant};
ghost use Rattle.fort_theory.specs.Sides.{at_index, pushed_at, empty_lists, count_all, IsIndexOf, FitsSide, IsLinear, IsLinearSeparated, variables};
ghost use Rattle.fort_theory.specs.Patterns.{pattern_of, IsSystem};
ghost use Rattle.fort_theory.specs.PatternOrder.{AreSubpatternsInOrder};
ghost use Rattle.fort_theory.specs.RightGround.{HasRightGroundPairsAt};
ghost use Rattle.fort_terms.specs.BothWays.{both_ways, exchanged};
ghost use Rattle.fort_terms.specs.Limits.{most_system_rules};
ghost use Rattle.fort_terms.specs.PatternKeys.{pattern_order};
ghost use Rattle.fort_terms.specs.PatternView.{as_pair, as_pattern};
ghost use Rattle.fort_terms.specs.RuleFaults.{IsFirstRepeated, IsFirstShared};
ghost use Rattle.fort_terms.specs.RuleSteps.{HasItsSteps};
ghost use Rattle.fort_terms.specs.SideView.{as_side};

use crate::occurrences::{Overlap, first_overlap};
use crate::pattern::Pattern;
use crate::side::Side;
use crate::signature::Signature;
use std::alloc::{AllocError, AllocFailed, Global};
use std::collections::BTreeSet;
use std::marker::Model;

/// A signature with a constant, and for each index the rules over it, as pairs of patterns.
#[derive(Drop)]
pub struct System {
    signature: Signature,
    rules: Vec<Vec<(Pattern, Pattern)>>,
}

/// Why a rule wasn't pushed.
#[derive(Clone, Copy, Debug, PartialEq, Eq)]
pub enum RuleFault {
    /// Want of memory.
    Memory,
    /// A variable stands twice in the left side: the first that is met again.
    LeftRepeats(u32),
    /// A variable stands twice in the right side: the first that is met again.
    RightRepeats(u32),
    /// A variable stands in both sides: the first of the left side.
    Shares(u32),
}

impl From<AllocError> for RuleFault {
    ghost use Rattle.std.specs.Prelude.{◌≡◌};
    ghost use Rattle.fort_terms.specs.declared.system.RuleFault.TheVariants.{Memory};

    ghost from_gives = { λ _ r. r ≡ Memory };

    fn from(_e: AllocError) -> RuleFault {
        RuleFault::Memory
    }
}

impl<T: Drop> From<AllocFailed<T>> for RuleFault {
    ghost use Rattle.std.specs.Prelude.{◌≡◌};
    ghost use Rattle.fort_terms.specs.declared.system.RuleFault.TheVariants.{Memory};

    ghost from_gives = { λ _ r. r ≡ Memory };

    fn from(_e: AllocFailed<T>) -> RuleFault {
        RuleFault::Memory
    }
}

impl Model for System {
    ghost use Rattle.fort_theory.specs.Patterns.{PatternSystem, IsSystem};
    ghost use Rattle.fort_theory.specs.PatternCode.{system_code};

    ghost Value = { PatternSystem };

    ghost coded = { system_code };

    ghost use Rattle.fort_terms.specs.PatternView.{as_system};

    ghost view = { λ a. as_system a.signature a.rules.items };

    ghost invariant = { λ a. IsSystem (as_system a.signature a.rules.items) };
}

impl System {
    /// A system without rules, of this number of indices.
    pub fn new(alloc: Global, signature: Signature, number: u32) -> Result<System, AllocError>
        requires constant { HasConstant signature }
        requires some { 1 ≤ number }
        requires few { number ≤ most_indices }
        ensures signature { IfOk result (λ s. s.signature ≡ signature) }
        ensures rules { IfOk result (λ s. s.rules ≡ empty_lists number) }
    {
        let mut rules = Vec::new(alloc);
        for i in 0..number {
            rules.push(Vec::new(alloc))?;
        }
        Ok(System { signature, rules })
    }

    /// Adds a rule at the end of those of an index. One that isn't linear and variable-separated is
    /// refused by the first reason that it has, in their order, unless memory is wanted first.
    pub fn push(&mut self, index: u32, left: &Side, right: &Side) -> Result<(), RuleFault>
        requires few { count_all self.old.rules < most_system_rules }
        requires index { IsIndexOf self.old.rules index }
        requires left_fits { FitsSide self.old.signature (as_side left.now) }
        requires right_fits { FitsSide self.old.signature (as_side right.now) }
        ensures ok { OnOk result (self.new.rules ≡ pushed_at index
            (pattern_of (as_side left.now), pattern_of (as_side right.now)) self.old.rules) }
        ensures separated { OnOk result (IsLinearSeparated
            (record { left = as_side left.now; right = as_side right.now })) }
        ensures root_steps { OnOk result (HasItsSteps self.old.signature
            (record { left = as_side left.now; right = as_side right.now })
            (pattern_of (as_side left.now), pattern_of (as_side right.now))) }
        ensures left_repeats { (v : ℕ) → IsErrOf result (RuleFault.LeftRepeats v) →
            IsFirstRepeated (variables (as_side left.now)) v }
        ensures right_repeats { (v : ℕ) → IsErrOf result (RuleFault.RightRepeats v) →
            IsLinear (as_side left.now) × IsFirstRepeated (variables (as_side right.now)) v }
        ensures shares { (v : ℕ) → IsErrOf result (RuleFault.Shares v) →
            IsLinear (as_side left.now) × IsLinear (as_side right.now) ×
            IsFirstShared (variables (as_side left.now)) (variables (as_side right.now)) v }
        ensures same_signature { self.new.signature ≡ self.old.signature }
        ensures err { OnErr result (self.new ≡ self.old) }
    {
        let alloc = *self.rules.allocator();
        let left_variables = left.variables(alloc)?;
        let right_variables = right.variables(alloc)?;
        match first_overlap(&left_variables, &right_variables) {
            Some(Overlap::InLeft(variable)) => return Err(RuleFault::LeftRepeats(variable)),
            Some(Overlap::InRight(variable)) => return Err(RuleFault::RightRepeats(variable)),
            Some(Overlap::Between(variable)) => return Err(RuleFault::Shares(variable)),
            None => {}
        }
        let rule = (left.pattern(alloc)?, right.pattern(alloc)?);
        self.rules[index as usize - 1].push(rule)?;
        Ok(())
    }

    /// The number of indices.
    pub fn number(&self) -> u32
        ensures count { result ≡ length self.now.rules }
        ensures lawful { IsSystem self.now }
    {
        self.rules.len() as u32
    }

    pub fn signature(&self) -> &Signature
        ensures same { result.now ≡ self.now.signature }
        ensures lawful { IsSystem self.now }
    {
        &self.signature
    }

    /// The pairs of patterns of an index's rules, in order.
    pub fn rules(&self, index: u32) -> &[(Pattern, Pattern)]
        requires { IsIndexOf self.now.rules index }
        ensures pairs { map as_pair result.now ≡ at_index index self.now.rules }
        ensures lawful { IsSystem self.now }
    {
        &self.rules[index as usize - 1]
    }

    /// Whether no rule of an index has a variable on its right side. It takes no memory.
    pub fn right_ground(&self, index: u32) -> bool
        requires { IsIndexOf self.now.rules index }
        ensures { IsTrue result ↔ HasRightGroundPairsAt self.now index }
    {
        for rule in self.rules(index) {
            if !rule.1.is_ground() {
                return false;
            }
        }
        true
    }

    /// The patterns that stand within the left sides of an index's rules.
    pub fn left_patterns(&self, alloc: Global, index: u32) -> Result<Vec<Pattern>, AllocError>
        requires { IsIndexOf self.now.rules index }
        ensures { IfOk result (λ ps. AreSubpatternsInOrder
            (map (λ pair. pair.0) (at_index index self.now.rules)) (map as_pattern ps.items)) }
    {
        let mut found = BTreeSet::new(alloc);
        for rule in self.rules(index) {
            rule.0.insert_subpatterns(alloc, &mut found)?;
        }
        in_order(alloc, found)
    }

    /// The patterns that stand within the right sides of an index's rules.
    pub fn right_patterns(&self, alloc: Global, index: u32) -> Result<Vec<Pattern>, AllocError>
        requires { IsIndexOf self.now.rules index }
        ensures { IfOk result (λ ps. AreSubpatternsInOrder
            (map (λ pair. pair.1) (at_index index self.now.rules)) (map as_pattern ps.items)) }
    {
        let mut found = BTreeSet::new(alloc);
        for rule in self.rules(index) {
            rule.1.insert_subpatterns(alloc, &mut found)?;
        }
        in_order(alloc, found)
    }

    /// A system of one index: the rules of an index, and then each of them from right to left.
    pub fn both_ways(&self, alloc: Global, index: u32) -> Result<System, AllocError>
        requires index { IsIndexOf self.now.rules index }
        requires few { 2 * length (at_index index self.now.rules) ≤ most_system_rules }
        ensures { IfOk result (λ s. s ≡ both_ways self.now index) }
    {
        let mut rules = Vec::new(alloc);
        push_copies(alloc, self.rules(index), &mut rules)?;
        push_exchanged(alloc, self.rules(index), &mut rules)?;
        Ok(System {
            signature: self.signature().copy(alloc)?,
            rules: vec![in alloc; rules]?,
        })
    }
}

fn push_copies(
    alloc: Global,
    rules: &[(Pattern, Pattern)],
    all: &mut Vec<(Pattern, Pattern)>,
) -> Result<(), AllocError>
    ensures { OnOk result (map as_pair all.new.items ≡
        map as_pair all.old.items ++ map as_pair rules.now) }
{
    for (left, right) in rules {
        all.push((left.copy(alloc)?, right.copy(alloc)?))?;
    }
    Ok(())
}

fn push_exchanged(
    alloc: Global,
    rules: &[(Pattern, Pattern)],
    all: &mut Vec<(Pattern, Pattern)>,
) -> Result<(), AllocError>
    ensures { OnOk result (map as_pair all.new.items ≡
        map as_pair all.old.items ++ map exchanged (map as_pair rules.now)) }
{
    for (left, right) in rules {
        all.push((right.copy(alloc)?, left.copy(alloc)?))?;
    }
    Ok(())
}

/// The patterns of a set as a list.
fn in_order(alloc: Global, found: BTreeSet<Pattern>) -> Result<Vec<Pattern>, AllocError>
    ensures patterns { IfOk result (λ ps. ps.items ≡ found.keys) }
    ensures ordered { IsStrictlySortedBy (on as_pattern pattern_order) found.keys }
{
    let mut patterns = Vec::with_capacity(alloc, found.len())?;
    for pattern in found {
        patterns.push(pattern)?;
    }
    Ok(patterns)
}
