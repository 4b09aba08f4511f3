//! Reads the nodes of a certificate of an open formula, and says what is wrong with forms that are none.
ghost use Rattle.std.specs.Prelude.{◌≡◌, ℕ, ◌≤◌, map, drop, IfOk, IfErr};
ghost use Rattle.std.specs.List.{AllZip};
ghost use Rattle.fort_grammar.specs.Declarations.{as_list};
ghost use Rattle.fort_certificate_theory.specs.CertificateFaults.{fault_of};
ghost use Rattle.fort_certificate_theory.specs.OpenForms.{IsSymbolForm, IsTupleSymbolForm, IsNodeForm};
ghost use Rattle.fort_certificate_theory.specs.OpenFaults.{IsBadSymbol, IsBadTupleSymbol, IsBadNode};
ghost use Rattle.fort_steps.specs.OpenView.{as_node};
ghost use Rattle.fort_sexpr.specs.FormView.{form_count};
ghost use Rattle.fort_certificate.specs.Faults.{IsFault};
ghost use Rattle.fort_certificate.specs.NodeChecking.{IsSomeTupleSymbol, IsSomeNode, AreSomeNodes, HasBadNode};
ghost use Rattle.fort_certificate.specs.ReadView.{as_kind};

use crate::build::{Unread, numbers};
use crate::check::{check_elements, fault_at};
use crate::fault::CertificateFault;
use crate::slot::Slot;
use crate::value::{Wrong, number_in};
use fort_sexpr::{Form, Forms};
use fort_steps::Node;
use std::alloc::{AllocError, Global};

/// The symbol of a column, or none where the word is `-`.
fn symbol_in(form: &Form) -> Result<Option<u32>, Wrong>
    ensures ok { IfOk result (λ symbol. IsSymbolForm form.now.bytes form.now.form symbol) }
    ensures err { IfErr result (λ wrong.
        IsBadSymbol form.now.bytes form.now.form (as_kind wrong)) }
{
    if form.is_word(b"-") {
        return Ok(None);
    }
    Ok(Some(number_in(form)?))
}

/// Whether a form is a tuple symbol.
fn check_tuple_symbol(form: &Form) -> Result<(), Wrong>
    ensures ok { IfOk result (λ _. IsSomeTupleSymbol form.now.bytes form.now.form) }
    ensures err { IfErr result (λ wrong.
        IsBadTupleSymbol form.now.bytes form.now.form (as_kind wrong)) }
{
    let Some(list) = form.elements() else {
        return Err(Wrong::Form);
    };
    let mut rest = list;
    'columns: while let Some((column, behind)) = rest.split_first() {
        symbol_in(&column)?;
        rest = behind;
    }
    Ok(())
}

/// Whether a form is a node.
fn check_node(form: &Form) -> Result<(), Wrong>
    ensures ok { IfOk result (λ _. IsSomeNode form.now.bytes form.now.form) }
    ensures err { IfErr result (λ wrong. (i : ℕ) →
        IsBadNode form.now.bytes i form.now.form (fault_of i (as_kind wrong))) }
{
    if !form.is_headed(b"node") {
        return Err(Wrong::Form);
    }
    let Some(list) = form.elements() else {
        unreachable!()
    };
    let Some((_head, behind)) = list.split_first() else {
        unreachable!()
    };
    let Some((symbol, _kids)) = behind.split_first() else {
        return Err(Wrong::Form);
    };
    check_tuple_symbol(&symbol)?;
    check_elements(&behind, &[], Some(Slot::Number))
}

/// Whether the forms from a number on are nodes.
pub(crate) fn check_nodes(forms: &Forms, from: usize) -> Result<(), CertificateFault>
    requires { from ≤ form_count forms.now.forms }
    ensures ok { IfOk result (λ _.
        AreSomeNodes forms.now.bytes (drop from (as_list forms.now.forms))) }
    ensures fault { IfErr result (IsFault
        (HasBadNode forms.now.bytes from (drop from (as_list forms.now.forms)))) }
{
    'nodes: for i in from..forms.len() {
        match check_node(&forms.form(i)) {
            Ok(()) => {}
            Err(wrong) => return Err(fault_at(i as u32, wrong)),
        }
    }
    Ok(())
}

/// The symbols of the columns of a tuple symbol.
fn symbols(alloc: Global, form: &Form) -> Result<Vec<Option<u32>>, AllocError>
    requires { IsSomeTupleSymbol form.now.bytes form.now.form }
    ensures { IfOk result (λ v. IsTupleSymbolForm form.now.bytes form.now.form v.items) }
{
    let Some(list) = form.elements() else {
        unreachable!()
    };
    let mut symbols = Vec::with_capacity(alloc, list.len())?;
    let mut rest = list;
    'columns: while let Some((column, behind)) = rest.split_first() {
        match symbol_in(&column) {
            Ok(symbol) => symbols.push_reserved(symbol),
            Err(_wrong) => unreachable!(),
        }
        rest = behind;
    }
    Ok(symbols)
}

/// The node that a form is.
fn node(alloc: Global, form: &Form) -> Result<Node, AllocError>
    requires { IsSomeNode form.now.bytes form.now.form }
    ensures { IfOk result (λ node. IsNodeForm form.now.bytes form.now.form (as_node node)) }
{
    let Some(list) = form.elements() else {
        unreachable!()
    };
    let Some((_head, behind)) = list.split_first() else {
        unreachable!()
    };
    let Some((symbol, rest)) = behind.split_first() else {
        unreachable!()
    };
    let syms = symbols(alloc, &symbol)?;
    match numbers(alloc, rest) {
        Ok(kids) => Ok(Node { syms, kids }),
        Err(Unread::Memory) => Err(AllocError),
        Err(Unread::Wrong(_wrong)) => unreachable!(),
    }
}

/// The nodes that the forms from a number on are.
pub(crate) fn nodes(alloc: Global, forms: &Forms, from: usize) -> Result<Vec<Node>, AllocError>
    requires within { from ≤ form_count forms.now.forms }
    requires are { AreSomeNodes forms.now.bytes (drop from (as_list forms.now.forms)) }
    ensures { IfOk result (λ v. AllZip (IsNodeForm forms.now.bytes)
        (drop from (as_list forms.now.forms)) (map as_node v.items)) }
{
    let mut nodes = Vec::with_capacity(alloc, forms.len() - from)?;
    'nodes: for i in from..forms.len() {
        nodes.push_reserved(node(alloc, &forms.form(i))?);
    }
    Ok(nodes)
}
