//! The first terms up to a height that satisfy a formula.
ghost use Rattle.std.specs.Prelude.{◌≡◌, ◌≤◌, ◌++◌, List, None, length, IfOk, OnOk};
ghost use Rattle.fort_theory.specs.Signatures as signatures;
ghost use Rattle.fort_theory.specs.Sides as theory;
ghost use Rattle.fort_theory.specs.Patterns.{PatternSystem, pattern_system};
ghost use Rattle.fort_theory.specs.Trees.{Tree};
ghost use Rattle.fort_logic.specs.Formulas.{Name as NameOf};
ghost use Rattle.fort_logic.specs.FreeNames as names;
ghost use Rattle.fort_formulas.specs.FormulaView.{as_formula};
ghost use Rattle.fort_words.specs.RequestView.{as_bounds};
ghost use Rattle.fort_answers.specs.Lines.{line};
ghost use Rattle.fort_answers.specs.FormulaAnswer.{Open, IsTaken};
ghost use Rattle.fort_answers.specs.SolutionsAnswer.{SolutionsVerdict};
ghost use Rattle.fort_answers.specs.SolutionTerms.{count_line, solution_text, solution_lines};
ghost use Rattle.fort_engine.specs.AnswerView.{HasStatesWithin};
ghost use Rattle.fort_run.specs.Ready.{IsLawful, IsDecidedBy};
ghost use Rattle.fort_run.specs.StatusView.{code_of};
ghost use Rattle.fort_run.specs.Witnesses.{AreTermsAt, AreAllTermsAt};

use crate::reply::Reply;
use crate::status::Status;
use crate::witness::push_binding;
use fort_engine::Last;
use fort_formulas::{Formula, Name, free_names};
use fort_questions::push_number;
use fort_table::{Dag, Table};
use fort_terms::Signature;
use fort_witness::Solutions;
use fort_words::Bounds;
use std::alloc::{AllocError, Global};

/// How many solutions there are, or that there are more.
fn count_text(alloc: Global, count: usize, more: bool) -> Result<Vec<u8>, AllocError>
    ensures { IfOk result (λ text. text.items ≡ count_line count more) }
{
    let mut text = Vec::from_slice(alloc, b"SOLUTIONS ")?;
    push_number(&mut text, count)?;
    if more {
        text.extend_from_slice(b" AND MORE")?;
    }
    text.push(b'\n')?;
    Ok(text)
}

/// Adds a line: each of these variables with the term in its column of a node, commas between them.
fn push_solution(
    alloc: Global,
    signature: &Signature,
    names: &[Name],
    dag: &Dag,
    node: u32,
    text: &mut Vec<u8>,
) -> Result<(), AllocError>
    requires { (ts : List Tree) × AreTermsAt signature.now names.now dag.now node ts }
    ensures { OnOk result ((ts : List Tree) → AreTermsAt signature.now names.now dag.now node ts
        → text.new.items ≡ text.old.items ++ line (solution_text signature.now names.now ts)) }
{
    for column in 0..names.len() {
        if column > 0 {
            text.extend_from_slice(b", ")?;
        }
        let name = names[column].as_bytes();
        push_binding(alloc, signature, name, dag, node, column, text)?;
    }
    text.push(b'\n')?;
    Ok(())
}

/// How many solutions there are, and a line for each.
fn solutions_text(
    alloc: Global,
    signature: &Signature,
    formula: &Formula,
    found: &Solutions,
) -> Result<Vec<u8>, AllocError>
    requires { (tss : List (List Tree)) × AreAllTermsAt signature.now
        (names.free_names (as_formula formula.now)) found.now.dag found.now.nodes.items tss }
    ensures { IfOk result (λ text. (tss : List (List Tree)) → AreAllTermsAt signature.now
        (names.free_names (as_formula formula.now)) found.now.dag found.now.nodes.items tss
        → text.items ≡ count_line (length tss) found.now.more ++ solution_lines signature.now
        (names.free_names (as_formula formula.now)) tss) }
{
    let names = free_names(alloc, formula)?;
    let mut text = count_text(alloc, found.nodes.len(), found.more)?;
    for k in 0..found.nodes.len() {
        push_solution(
            alloc,
            signature,
            &names,
            &found.dag,
            found.nodes[k],
            &mut text,
        )?;
    }
    Ok(text)
}

/// The first terms for the free variables of an open formula that satisfy it, by the answer to its core formula.
pub fn solutions(
    alloc: Global,
    signature: &Signature,
    formula: &Formula,
    last: &Last,
    bounds: Bounds,
) -> Result<Reply, AllocError>
    requires decided { (system : PatternSystem) × (terms : List Tree)
        × (signature.now ≡ system.signature)
        × IsDecidedBy (as_formula formula.now) system terms last.now }
    requires open { IsTaken Open (as_formula formula.now) }
    requires states { HasStatesWithin 1000000 last.now }
    requires some { 1 ≤ bounds.most }
    requires few { bounds.most ≤ 1000 }
    ensures verdict { IfOk result (λ r. (p : theory.System) (terms : List Tree)
        → IsLawful p → signature.now ≡ p.signature
        → IsDecidedBy (as_formula formula.now) (pattern_system p) terms last.now
        → SolutionsVerdict (as_bounds bounds) p terms (as_formula formula.now) (code_of r.status)
        r.text.items) }
    ensures limit { IfOk result (λ r. r.limit ≡ None) }
{
    match last {
        Last::Truth(_) => unreachable!(),
        Last::Auto(table) => {
            // its clause says that the table is lawful
            let _states = table.states();
            let found = fort_witness::solutions(alloc, table, bounds.height, bounds.most as usize)?;
            let text = solutions_text(alloc, signature, formula, &found)?;
            let status = if found.nodes.is_empty() {
                Status::Negative
            } else {
                Status::Positive
            };
            Ok(Reply::of(status, text))
        }
    }
}
