//! Writes a certificate of an open formula.
ghost use Rattle.std.specs.Prelude.{◌≡◌, ◌++◌, ◌<◌, ◌^◌, [], map, length, OnOk, IfOk, IfSome, IfNone};
ghost use Rattle.std.specs.List.{AllByRecursion};
ghost use Rattle.fort_certificate_theory.specs.CertificateText.{spaced, line_of};
ghost use Rattle.fort_certificate_theory.specs.OpenCertificates as certificates;
ghost use Rattle.fort_certificate_theory.specs.OpenForms.{claim_word};
ghost use Rattle.fort_certificate_theory.specs.OpenText.{symbol_word, node_elements, open_header_elements, nodes_text, open_text as open_text_lem, IsSmallSymbol, CanNodeBeWritten};
ghost use Rattle.fort_steps.specs.OpenView.{as_claim};
ghost use Rattle.fort_steps.specs.StepView.{as_step};
ghost use Rattle.fort_tuple_symbols.specs.Columns.{as_column};
ghost use Rattle.fort_certificate.specs.Again.{HasSmallNumbers};
ghost use Rattle.fort_certificate.specs.Lines.{gap};
ghost use Rattle.fort_certificate.specs.OpenWriting.{IsTextFor};

use crate::version::Version;
use crate::words::push_digits;
use crate::write::{push_numbers, push_steps};
use fort_steps::{Claim, Step};
use fort_table::Dag;
use fort_terms::Sym;
use fort_tuple_symbols::Row;
use std::alloc::{AllocError, Global};

/// A blank, but none in front of the first element.
fn push_gap(out: &mut Vec<u8>, place: usize) -> Result<(), AllocError>
    ensures { OnOk result (out.new.items ≡ out.old.items ++ gap place) }
{
    if place == 0 {
        return Ok(());
    }
    out.push(b' ')?;
    Ok(())
}

fn push_symbol(out: &mut Vec<u8>, symbol: Option<Sym>) -> Result<(), AllocError>
    ensures text { OnOk result (out.new.items ≡ out.old.items ++ symbol_word (as_column symbol)) }
    ensures small { OnOk result (IsSmallSymbol (as_column symbol)) }
{
    match symbol {
        Some(sym) => push_digits(out, sym.0 as u32),
        None => out.extend_from_slice(b"-"),
    }
}

fn push_symbols(out: &mut Vec<u8>, row: &Row) -> Result<(), AllocError>
    ensures text { OnOk result (out.new.items ≡
        out.old.items ++ spaced (map symbol_word row.now.symbol)) }
    ensures small { OnOk result (AllByRecursion IsSmallSymbol row.now.symbol) }
{
    let columns = row.sym().len();
    for column in 0..columns {
        push_gap(out, column)?;
        push_symbol(out, row.symbol(column))?;
    }
    Ok(())
}

fn push_node(out: &mut Vec<u8>, row: &Row) -> Result<(), AllocError>
    ensures text { OnOk result (out.new.items ≡
        out.old.items ++ line_of (node_elements row.now)) }
    ensures small { OnOk result (CanNodeBeWritten row.now) }
{
    out.extend_from_slice(b"(node (")?;
    push_symbols(out, row)?;
    out.push(b')')?;
    push_numbers(out, row.kids())?;
    out.extend_from_slice(b")\n")?;
    Ok(())
}

fn push_nodes(out: &mut Vec<u8>, dag: &Dag) -> Result<(), AllocError>
    requires { length dag.now < 2 ^ 32 }
    ensures text { OnOk result (out.new.items ≡ out.old.items ++ nodes_text dag.now) }
    ensures small { OnOk result (AllByRecursion CanNodeBeWritten dag.now) }
{
    for node in 0..dag.len() {
        push_node(out, &dag.node(node as u32))?;
    }
    Ok(())
}

fn push_claim(out: &mut Vec<u8>, claim: Claim) -> Result<(), AllocError>
    ensures { OnOk result (out.new.items ≡ out.old.items ++ claim_word (as_claim claim)) }
{
    match claim {
        Claim::Found => out.extend_from_slice(b"found"),
        Claim::Empty => out.extend_from_slice(b"empty"),
    }
}

/// The text of a certificate up to its nodes.
fn front(alloc: Global, claim: Claim, steps: &[Step]) -> Result<Vec<u8>, AllocError>
    ensures text { IfOk result (λ text.
        text.items ≡ open_text_lem (as_claim claim) (map as_step steps.now) []) }
    ensures small { OnOk result (AllByRecursion HasSmallNumbers (map as_step steps.now)) }
{
    let mut out = Vec::from_slice(alloc, b"(certificate 4 ")?;
    push_claim(&mut out, claim)?;
    out.extend_from_slice(b")\n")?;
    push_steps(&mut out, Version::OfReduced, steps)?;
    Ok(out)
}

/// The text of a certificate of an open formula, with the nodes that are found, or that there are none.
pub fn open_text(alloc: Global, steps: &[Step], found: Option<&Dag>) -> Result<Vec<u8>, AllocError>
    requires few { IfSome found (λ dag. length dag.now < 2 ^ 32) }
    ensures found { IfOk result (λ text. IfSome found.entry (λ dag.
        IsTextFor certificates.Found (map as_step steps.now) dag.now text.items)) }
    ensures empty { IfOk result (λ text. IfNone found.entry
        (IsTextFor certificates.Empty (map as_step steps.now) [] text.items)) }
{
    match found {
        Some(dag) => {
            let mut out = front(alloc, Claim::Found, steps)?;
            push_nodes(&mut out, dag)?;
            Ok(out)
        }
        None => front(alloc, Claim::Empty, steps),
    }
}
