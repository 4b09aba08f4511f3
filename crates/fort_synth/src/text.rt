//! The text of rules.
ghost use Rattle.std.specs.Prelude.{◌≡◌, ℕ, ◌+◌, ◌++◌, ◌<◌, ◌≤◌, ◌^◌, All, List, map, length, codes, decimal, vec_items, IfOk, OnOk, [], slice_index_or};
ghost use Rattle.fort_theory.specs.Signatures.{IsSignature};
ghost use Rattle.fort_theory.specs.Patterns.{FitsPair, FitsPattern, pattern_system};
ghost use Rattle.fort_terms.specs.PatternView.{as_pair, as_pattern};
ghost use Rattle.fort_answers.specs.FamilyRules.{FamilyRule};
ghost use Rattle.fort_answers.specs.FamilySystems as families;
ghost use Rattle.fort_answers.specs.FamilySystems.{side_from, system_of};
ghost use Rattle.fort_answers.specs.RuleText as texts;
ghost use Rattle.fort_answers.specs.RuleText.{side_text, rule_lines};
ghost use Rattle.fort_synth.specs.TextLines.{HasFewPlaces, pair_line};

use fort_terms::{Pattern, Signature, System};
use itoa::Buffer;
use std::alloc::{AllocError, Global};

/// `v` and a number.
fn v_name(alloc: Global, k: usize) -> Result<Vec<u8>, AllocError>
    ensures { IfOk result (λ name. name.items ≡ texts.v_name k) }
{
    let mut buffer = Buffer::new();
    let mut name = Vec::from_slice(alloc, b"v")?;
    name.extend_from_slice(buffer.format(k).as_bytes())?;
    Ok(name)
}

/// Those of v0, v1 and so on that the signature doesn't declare, more than `last` of them.
fn variable_names(
    alloc: Global,
    signature: &Signature,
    last: usize,
) -> Result<Vec<Vec<u8>>, AllocError>
    requires { last < 2 ^ 32 }
    ensures names { IfOk result (λ names.
        map vec_items names.items ≡ texts.variable_names signature.now last) }
    ensures lawful { IsSignature signature.now }
{
    let mut names = Vec::new(alloc);
    for k in 0..last + 1 + signature.len() {
        let name = v_name(alloc, k)?;
        if signature.find(&name).is_none() {
            names.push(name)?;
        }
    }
    Ok(names)
}

/// How many places for variables a pattern has.
fn place_count(pattern: &Pattern) -> usize
    requires { families.any_count (as_pattern pattern.now) < 2 ^ 32 }
    ensures { result ≡ families.any_count (as_pattern pattern.now) }
{
    match pattern {
        Pattern::Any => 1,
        Pattern::App(_, args) => {
            let mut count = 0;
            for arg in args.as_slice() {
                count += place_count(arg);
            }
            count
        }
    }
}

/// Adds the text of a pattern whose first place has the name of this number.
fn push_pattern(
    signature: &Signature,
    names: &[Vec<u8>],
    pattern: &Pattern,
    next: &mut usize,
    text: &mut Vec<u8>,
) -> Result<(), AllocError>
    requires fits { FitsPattern signature.now (as_pattern pattern.now) }
    requires named { next.old + families.any_count (as_pattern pattern.now) ≤ length names.now }
    requires names { (v : ℕ) → v < length names.now →
        slice_index_or (map vec_items names.now) v [] ≡ texts.variable_name signature.now v }
    ensures text { OnOk result (text.new.items ≡
        text.old.items ++ side_text signature.now (side_from next.old (as_pattern pattern.now))) }
    ensures next { OnOk result (next.new ≡ next.old + families.any_count (as_pattern pattern.now)) }
{
    match pattern {
        Pattern::Any => {
            text.extend_from_slice(&names[*next])?;
            *next += 1;
        }
        Pattern::App(sym, args) => {
            let args = args.as_slice();
            if args.is_empty() {
                text.extend_from_slice(signature.name(*sym))?;
                return Ok(());
            }
            text.push(b'(')?;
            text.extend_from_slice(signature.name(*sym))?;
            for arg in args {
                text.push(b' ')?;
                push_pattern(signature, names, arg, next, text)?;
            }
            text.push(b')')?;
        }
    }
    Ok(())
}

/// Adds the line of a rule.
fn push_rule(
    alloc: Global,
    signature: &Signature,
    rule: &(Pattern, Pattern),
    text: &mut Vec<u8>,
) -> Result<(), AllocError>
    requires fits { FitsPair signature.now (as_pair rule.now) }
    requires few { HasFewPlaces (as_pair rule.now) }
    ensures { OnOk result (text.new.items ≡
        text.old.items ++ pair_line signature.now (as_pair rule.now)) }
{
    let names = variable_names(alloc, signature, place_count(&rule.0))?;
    text.extend_from_slice(b"(rule ")?;
    push_pattern(signature, &names, &rule.0, &mut 0, text)?;
    text.push(b' ')?;
    push_pattern(signature, &names, &rule.1, &mut 0, text)?;
    text.extend_from_slice(b")\n")?;
    Ok(())
}

/// Adds a line for each rule of a system of a family.
pub fn write_rules(alloc: Global, system: &System, text: &mut Vec<u8>) -> Result<(), AllocError>
    requires { (rules : List FamilyRule)
        × (system.now ≡ pattern_system (system_of system.now.signature rules))
        × All (λ (r : FamilyRule). families.any_count r.0 < 2 ^ 32) rules }
    ensures { OnOk result ((rules : List FamilyRule)
        → system.now ≡ pattern_system (system_of system.now.signature rules)
        → text.new.items ≡ text.old.items ++ rule_lines system.now.signature rules) }
{
    let signature = system.signature();
    for rule in system.rules(1) {
        push_rule(alloc, signature, rule, text)?;
    }
    Ok(())
}
