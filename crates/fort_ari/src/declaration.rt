//! Reads the declarations of a problem.
ghost use Rattle.std.specs.Prelude.{◌≡◌, ◌<◌, ◌^◌, IfOk, IfErr, IfSome, IsErrOf, codes};
ghost use Rattle.fort_theory.specs.Signatures as theory;
ghost use Rattle.fort_grammar.specs.Declarations.{as_list, IsBadDeclaration, IsHeaded};
ghost use Rattle.fort_grammar.specs.ProblemForms.{IsFirstProblemFault};
ghost use Rattle.fort_sexpr.specs.FormView.{form_count};
ghost use Rattle.fort_ari.specs.declared.fault.ProblemFault.TheVariants.{Memory};
ghost use Rattle.fort_ari.specs.Faults.{as_fault};
ghost use Rattle.fort_ari.specs.Parts.{HasFormat};
ghost use Rattle.fort_ari.specs.Reading.{DeclaresNext, AreDeclared, IsFaultlessSoFar};

use crate::fault::ProblemFault;
use crate::form::{begins, declaration_words};
use crate::word::{arity_of, is_name};
use fort_sexpr::{Form, Forms};
use fort_terms::{AddFault, Signature};
use std::alloc::Global;

/// The most functions of a problem.
const MOST_FUNCTIONS: usize = 255;

/// Functions, and the number of the first form behind their declarations.
#[derive(Drop)]
pub(crate) struct Declarations {
    pub signature: Signature,
    pub next: usize,
}

/// Declares the function of the form of this number.
fn declare(signature: &mut Signature, form: &Form, number: u32) -> Result<(), ProblemFault>
    requires headed { IsHeaded form.now.bytes (codes "fun") form.now.form }
    ensures ok { IfOk result (λ _.
        DeclaresNext form.now.bytes form.now.form signature.old signature.new) }
    ensures fault { IfErr result (λ fault. IfSome (as_fault fault)
        (IsBadDeclaration form.now.bytes signature.old number form.now.form)) }
    ensures memory { IsErrOf result Memory → (more : theory.Signature) ×
        DeclaresNext form.now.bytes form.now.form signature.old more }
{
    if signature.len() == MOST_FUNCTIONS {
        return Err(ProblemFault::TooManyFunctions);
    }
    let Some(words) = declaration_words(form) else {
        return Err(ProblemFault::BadForm(number));
    };
    if !is_name(words.name) {
        return Err(ProblemFault::BadName(number));
    }
    let Some(arity) = arity_of(words.arity) else {
        return Err(ProblemFault::BadArity(number));
    };
    if signature.find(words.name).is_some() {
        return Err(ProblemFault::Duplicate(number));
    }
    match signature.add(words.name, arity) {
        Ok(_) => Ok(()),
        Err(AddFault::Memory) => Err(ProblemFault::Memory),
        Err(AddFault::Duplicate) => unreachable!(),
    }
}

/// Reads the declarations from form 1 on.
pub(crate) fn read_declarations(alloc: Global, forms: &Forms) -> Result<Declarations, ProblemFault>
    requires few { form_count forms.now.forms < 2 ^ 32 }
    requires format { HasFormat forms.now.bytes (as_list forms.now.forms) }
    ensures ok { IfOk result (λ d.
        AreDeclared forms.now.bytes (as_list forms.now.forms) d.signature d.next) }
    ensures fault { IfErr result (λ fault. IfSome (as_fault fault)
        (IsFirstProblemFault forms.now.bytes (as_list forms.now.forms))) }
    ensures memory { IsErrOf result Memory →
        IsFaultlessSoFar forms.now.bytes (as_list forms.now.forms) }
{
    let mut signature = Signature::empty(alloc);
    let mut next = 1;
    'declarations: while begins(forms, next, b"fun") {
        declare(&mut signature, &forms.form(next), next as u32)?;
        next += 1;
    }
    Ok(Declarations { signature, next })
}
