//! The check of a closure.
ghost use Rattle.std.specs.Prelude.{◌≡◌, ℕ, ◌*◌, ◌<◌, ◌≤◌, ◌^◌, length, map, false, OnOk, IfErr, IfSome, IfNone};
ghost use Rattle.fort_tables.specs.BitRows.{has_bit};
ghost use Rattle.fort_findings.specs.FindingView.{as_pair, as_why};
ghost use Rattle.fort_certificate_theory.specs.ClosureSteps.{ClosureRules, IsClosureOutcome};
ghost use Rattle.fort_check_steps.specs.PairSteps.{IsPairRules, rule_test, within_test, IsPairTaken, IsPairRefused, IsPairsOutcome, IsFirstOpen, AreNoneOpen, IsOpenInRow, AreNoneOpenInRow};
ghost use Rattle.fort_check_steps.specs.StepAnswers.{outcome_of};

use crate::failure::{Failure, Reason, failed};
use crate::pairs::PairRules;
use fort_findings::{ClosureEntry, Reason as Why};
use fort_labels::set_bit;

fn clear(words: &mut [u64])
    ensures { (i : ℕ) → has_bit words.new i ≡ false }
{
    for i in 0..words.len() {
        words[i] = 0;
    }
}

/// Whether the number of a reason is that of a rule.
fn has_rule(rules: &PairRules, why: Why) -> bool
    ensures { result ≡ rule_test (length rules.now.rules.items) (as_why why) }
{
    match why {
        Why::Rule(k) => (k as usize) < rules.rules.len(),
        Why::Any | Why::Kids => true,
    }
}

/// Whether the numbers of an entry are those of patterns and rules.
fn is_within(rules: &PairRules, entry: ClosureEntry) -> bool
    ensures { result ≡ within_test rules.now (as_pair entry) }
{
    (entry.p as usize) < rules.rights.len()
        && (entry.q as usize) < rules.lefts.len()
        && has_rule(rules, entry.why)
}

/// Holds an entry against those listed before, and lists it.
fn take_pair(rules: &PairRules, entry: ClosureEntry, listed: &mut [u64]) -> Result<(), Reason>
    requires few { length rules.now.lefts.items < 2 ^ 32 }
    requires room { length rules.now.rights.items * length rules.now.lefts.items
        ≤ 64 * length listed.old }
    ensures taken { OnOk result (IsPairTaken rules.now (as_pair entry) listed.old listed.new) }
    ensures refused { IfErr result (IsPairRefused rules.now (as_pair entry) listed.old) }
{
    if !is_within(rules, entry) {
        return Err(Reason::Range);
    }
    if !rules.follows_by(entry.p, entry.q, entry.why, listed) {
        return Err(Reason::Unfounded);
    }
    set_bit(
        listed,
        entry.p as usize * rules.lefts.len() + entry.q as usize,
    );
    Ok(())
}

/// Holds the entries against those before them, and lists them.
fn list_pairs(
    rules: &PairRules,
    entries: &[ClosureEntry],
    listed: &mut [u64],
) -> Result<(), Failure>
    requires numbers { (c : ClosureRules) × IsPairRules c rules.now }
    requires few { length rules.now.lefts.items < 2 ^ 32 }
    requires room { length rules.now.rights.items * length rules.now.lefts.items
        ≤ 64 * length listed.old }
    requires none { (i : ℕ) → has_bit listed.old i ≡ false }
    ensures { (c : ClosureRules) → IsPairRules c rules.now
        → IsPairsOutcome c (map as_pair entries.now) listed.new result }
{
    'pairs: for place in 0..entries.len() {
        match take_pair(rules, entries[place], listed) {
            Ok(()) => {}
            Err(reason) => return failed(place, reason),
        }
    }
    Ok(())
}

/// The first pair with this right pattern that follows and isn't listed.
fn open_in_row(rules: &PairRules, p: u32, listed: &[u64]) -> Option<u32>
    requires few { length rules.now.lefts.items < 2 ^ 32 }
    requires right { p < length rules.now.rights.items }
    ensures some { IfSome result (IsOpenInRow rules.now listed.now p) }
    ensures none { IfNone result (AreNoneOpenInRow rules.now listed.now p) }
{
    'lefts: for q in 0..rules.lefts.len() as u32 {
        if !rules.is_listed(p, q, listed) && rules.follows(p, q, listed) {
            return Some(q);
        }
    }
    None
}

/// The number of the first pair that follows and isn't listed.
fn first_open(rules: &PairRules, listed: &[u64]) -> Option<usize>
    requires few { length rules.now.lefts.items < 2 ^ 32 }
    requires right_few { length rules.now.rights.items < 2 ^ 32 }
    ensures some { IfSome result (IsFirstOpen rules.now listed.now) }
    ensures none { IfNone result (AreNoneOpen rules.now listed.now) }
{
    let lefts = rules.lefts.len();
    'rights: for p in 0..rules.rights.len() {
        match open_in_row(rules, p as u32, listed) {
            None => {}
            Some(q) => return Some(p * lefts + q as usize),
        }
    }
    None
}

/// Whether the entries are the closure of the rules, or their first failure. It takes no memory.
pub fn check_closure(
    rules: &PairRules,
    entries: &[ClosureEntry],
    listed: &mut [u64],
) -> Result<(), Failure>
    requires numbers { (c : ClosureRules) × IsPairRules c rules.now }
    requires few { length rules.now.lefts.items < 2 ^ 32 }
    requires right_few { length rules.now.rights.items < 2 ^ 32 }
    requires room { length rules.now.rights.items * length rules.now.lefts.items
        ≤ 64 * length listed.old }
    ensures { (c : ClosureRules) → IsPairRules c rules.now
        → IsClosureOutcome c (map as_pair entries.now) (outcome_of result) }
{
    clear(listed);
    match list_pairs(rules, entries, listed) {
        Ok(()) => {}
        Err(failure) => return Err(failure),
    }
    match first_open(rules, listed) {
        None => Ok(()),
        Some(place) => failed(place, Reason::Open),
    }
}
