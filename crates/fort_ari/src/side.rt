//! Reads a side of a rule: first what is wrong with it, then the side.
ghost use Rattle.std.specs.Prelude.{◌≡◌, ◌+◌, ◌-◌, ◌^◌, ◌<◌, ◌≤◌, List, ℕ, map, length, None, Some, IfOk, IfErr, IfSome, OnOk, IsErrOf};
ghost use Rattle.fort_grammar.specs.Declarations.{elements_of};
ghost use Rattle.fort_grammar.specs.RuleForms.{IsBadSide};
ghost use Rattle.fort_terms.specs.SideView.{as_side};
ghost use Rattle.fort_sexpr.specs.FormCode.{node_count};
ghost use Rattle.fort_ari.specs.declared.fault.ProblemFault.TheVariants.{Memory};
ghost use Rattle.fort_ari.specs.Faults.{as_fault};
ghost use Rattle.fort_ari.specs.SideForms.{IsRightSide, IsHeadFor, ReadsSide};

use crate::fault::ProblemFault;
use crate::ground::symbol_of;
use crate::word::is_name;
use fort_sexpr::{Form, FormList};
use fort_terms::{Side, Sides, Signature};
use std::alloc::{AllocError, Global};

/// Finds what is wrong with a side that is a word, in the rule of this number.
fn check_word(signature: &Signature, form: &Form, number: u32) -> Result<(), ProblemFault>
    requires word { elements_of form.now.form ≡ None }
    ensures ok { OnOk result (IsRightSide form.now.bytes signature.now form.now.form) }
    ensures fault { IfErr result (λ fault. IfSome (as_fault fault)
        (IsBadSide form.now.bytes signature.now number form.now.form)) }
    ensures memory { IsErrOf result Memory → ⊥ }
{
    let Some(name) = form.word() else {
        unreachable!();
    };
    let Some(sym) = signature.find(name) else {
        if !is_name(name) {
            return Err(ProblemFault::BadName(number));
        }
        return Ok(());
    };
    // what a signature has is a name
    let _count = signature.len();
    if signature.arity(sym) != 0 {
        return Err(ProblemFault::WrongCount(number));
    }
    Ok(())
}

/// Finds what is wrong with a side that is a list, apart from its arguments.
fn check_head(
    signature: &Signature,
    form: &Form,
    list: &FormList,
    number: u32,
) -> Result<(), ProblemFault>
    requires elements { elements_of form.now.form ≡ Some list.now.forms }
    requires bytes { list.now.bytes ≡ form.now.bytes }
    ensures ok { OnOk result (IsHeadFor form.now.bytes signature.now list.now.forms) }
    ensures fault { IfErr result (λ fault. IfSome (as_fault fault)
        (IsBadSide form.now.bytes signature.now number form.now.form)) }
    ensures memory { IsErrOf result Memory → ⊥ }
{
    if list.len() < 2 {
        return Err(ProblemFault::BadForm(number));
    }
    let head = list.get(0);
    let Some(name) = head.word() else {
        return Err(ProblemFault::BadForm(number));
    };
    let Some(sym) = signature.find(name) else {
        if !is_name(name) {
            return Err(ProblemFault::BadName(number));
        }
        return Err(ProblemFault::VariableApplied(number));
    };
    // what a signature has is a name
    let _count = signature.len();
    if signature.arity(sym) as usize != list.len() - 1 {
        return Err(ProblemFault::WrongCount(number));
    }
    Ok(())
}

/// Finds what is first wrong with a side, in the rule of this number. It takes no memory.
pub(crate) fn check_side(
    signature: &Signature,
    form: &Form,
    number: u32,
) -> Result<(), ProblemFault>
    ensures ok { OnOk result (IsRightSide form.now.bytes signature.now form.now.form) }
    ensures fault { IfErr result (λ fault. IfSome (as_fault fault)
        (IsBadSide form.now.bytes signature.now number form.now.form)) }
    ensures memory { IsErrOf result Memory → ⊥ }
{
    let Some(list) = form.elements() else {
        return check_word(signature, form, number);
    };
    check_head(signature, form, &list, number)?;
    let Some((_head, mut rest)) = list.split_first() else {
        unreachable!();
    };
    'arguments: while let Some((argument, behind)) = rest.split_first() {
        check_side(signature, &argument, number)?;
        rest = behind;
    }
    Ok(())
}

/// The side that a word is, with the name of a variable behind the names.
fn word_side<'a>(
    alloc: Global,
    signature: &Signature,
    form: &Form<'a>,
    names: &mut Vec<&'a [u8]>,
) -> Result<Side, AllocError>
    requires word { elements_of form.now.form ≡ None }
    requires few { length names.old.items < 2 ^ 32 }
    requires right { IsRightSide form.now.bytes signature.now form.now.form }
    ensures { IfOk result (λ side. ReadsSide form.now.bytes signature.now form.now.form
        (map (λ name. name.now) names.old.items) (map (λ name. name.now) names.new.items)
        (as_side side)) }
{
    let Some(name) = form.word() else {
        unreachable!();
    };
    // what a signature has is a name
    let _count = signature.len();
    if let Some(sym) = signature.find(name) {
        return Ok(Side::App(sym, Sides::new(Vec::new(alloc))));
    }
    let Ok(variable) = u32::try_from(names.len()) else {
        unreachable!();
    };
    names.push(name)?;
    Ok(Side::Var(variable))
}

/// The side that a form is, with the names of its variables behind the names; each variable is
/// numbered by how many names come before its own.
pub(crate) fn side_of<'a>(
    alloc: Global,
    signature: &Signature,
    form: &Form<'a>,
    names: &mut Vec<&'a [u8]>,
) -> Result<Side, AllocError>
    requires few { length names.old.items + node_count form.now.form < 2 ^ 32 }
    requires right { IsRightSide form.now.bytes signature.now form.now.form }
    ensures { IfOk result (λ side. ReadsSide form.now.bytes signature.now form.now.form
        (map (λ name. name.now) names.old.items) (map (λ name. name.now) names.new.items)
        (as_side side)) }
{
    let Some(list) = form.elements() else {
        return word_side(alloc, signature, form, names);
    };
    let Some((head, mut rest)) = list.split_first() else {
        unreachable!();
    };
    let Some(sym) = symbol_of(signature, &head, rest.len()) else {
        unreachable!();
    };
    let mut args = Vec::new(alloc);
    'arguments: while let Some((argument, behind)) = rest.split_first() {
        args.push(side_of(alloc, signature, &argument, names)?)?;
        rest = behind;
    }
    Ok(Side::App(sym, Sides::new(args)))
}
