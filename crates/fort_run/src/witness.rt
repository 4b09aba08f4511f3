//! The least terms that satisfy a formula.
ghost use Rattle.std.specs.Prelude.{◌≡◌, ◌<◌, ◌^◌, ◌++◌, List, None, length, get_or, IfOk, OnOk};
ghost use Rattle.fort_theory.specs.Signatures as signatures;
ghost use Rattle.fort_theory.specs.Sides as theory;
ghost use Rattle.fort_theory.specs.Patterns.{PatternSystem, pattern_system};
ghost use Rattle.fort_theory.specs.Trees.{Tree};
ghost use Rattle.fort_logic.specs.Formulas.{Name};
ghost use Rattle.fort_logic.specs.FreeNames as names;
ghost use Rattle.fort_formulas.specs.FormulaView.{as_formula};
ghost use Rattle.fort_answers.specs.WitnessAnswer.{WitnessVerdict};
ghost use Rattle.fort_answers.specs.Witnesses.{binding, bindings};
ghost use Rattle.fort_run.specs.Ready.{IsLawful, IsDecidedBy};
ghost use Rattle.fort_run.specs.StatusView.{code_of};
ghost use Rattle.fort_run.specs.Witnesses.{AreLastTerms, AreTermsAt};

use crate::reply::Reply;
use crate::status::Status;
use fort_engine::Last;
use fort_formulas::{Formula, free_names};
use fort_table::{Dag, Table};
use fort_terms::Signature;
use fort_witness::{least, write_term};
use std::alloc::{AllocError, Global};

/// Adds a variable's name with the term in its column of a node.
pub fn push_binding(
    alloc: Global,
    signature: &Signature,
    name: &[u8],
    dag: &Dag,
    node: u32,
    column: usize,
    text: &mut Vec<u8>,
) -> Result<(), AllocError>
    requires terms { (names : List Name) × (ts : List Tree)
        × AreTermsAt signature.now names dag.now node ts × (column < length names) }
    ensures { OnOk result ((names : List Name) (ts : List Tree) (d : Tree)
        → AreTermsAt signature.now names dag.now node ts → column < length names
        → text.new.items ≡ text.old.items ++ binding signature.now name.now (get_or ts column d)) }
{
    text.extend_from_slice(name)?;
    text.extend_from_slice(b" = ")?;
    write_term(alloc, dag, node, column, signature, text)
}

/// A first line, and then one for each free variable, with the term in its column of the last node.
pub fn witness_text(
    alloc: Global,
    first: &[u8],
    signature: &Signature,
    formula: &Formula,
    dag: &Dag,
) -> Result<Vec<u8>, AllocError>
    requires few { length dag.now < 2 ^ 32 }
    requires terms { (ts : List Tree) × AreLastTerms signature.now
        (names.free_names (as_formula formula.now)) dag.now ts }
    ensures { IfOk result (λ text. (ts : List Tree)
        → AreLastTerms signature.now (names.free_names (as_formula formula.now)) dag.now ts
        → text.items ≡ first.now
        ++ bindings signature.now (names.free_names (as_formula formula.now)) ts) }
{
    let names = free_names(alloc, formula)?;
    let last = (dag.len() - 1) as u32;
    let mut text = Vec::from_slice(alloc, first)?;
    for column in 0..names.len() {
        let name = names[column].as_bytes();
        push_binding(alloc, signature, name, dag, last, column, &mut text)?;
        text.push(b'\n')?;
    }
    Ok(text)
}

/// The least terms for the free variables of a formula that satisfy it, by the answer to its core formula.
pub fn witness(
    alloc: Global,
    signature: &Signature,
    formula: &Formula,
    last: &Last,
) -> Result<Reply, AllocError>
    requires { (system : PatternSystem) × (terms : List Tree) × (signature.now ≡ system.signature)
        × IsDecidedBy (as_formula formula.now) system terms last.now }
    ensures verdict { IfOk result (λ r. (p : theory.System) (terms : List Tree)
        → IsLawful p → signature.now ≡ p.signature
        → IsDecidedBy (as_formula formula.now) (pattern_system p) terms last.now
        → WitnessVerdict p terms (as_formula formula.now) (code_of r.status) r.text.items) }
    ensures limit { IfOk result (λ r. r.limit ≡ None) }
{
    match last {
        Last::Truth(true) => Reply::line(alloc, Status::Positive, b"WITNESS\n"),
        Last::Truth(false) => Reply::line(alloc, Status::Negative, b"NONE\n"),
        Last::Auto(table) => {
            // its clause says that the table is lawful
            let _states = table.states();
            match least(alloc, table)? {
                Some(dag) => {
                    let text = witness_text(alloc, b"WITNESS\n", signature, formula, &dag)?;
                    Ok(Reply::of(Status::Positive, text))
                }
                None => Reply::line(alloc, Status::Negative, b"NONE\n"),
            }
        }
    }
}
