//! Reads a ground term.
ghost use Rattle.std.specs.Prelude.{◌≡◌, ◌<◌, ◌^◌, ℕ, length, IfOk, IfSome, IfNone};
ghost use Rattle.fort_theory.specs.Trees.{Tree};
ghost use Rattle.fort_theory.specs.Signatures.{IsGround};
ghost use Rattle.fort_grammar.specs.GroundForms.{IsGroundForm, IsGroundText};
ghost use Rattle.fort_ari.specs.Grounds.{IsSymbolOf};

use fort_sexpr::{Form, SFault, read};
use fort_terms::{Signature, Sym, Term};
use std::alloc::{AllocError, Global};

/// The symbol of so many arguments whose name a form is.
pub(crate) fn symbol_of(signature: &Signature, form: &Form, arity: usize) -> Option<Sym>
    ensures some { IfSome result (λ g.
        IsSymbolOf form.now.bytes signature.now form.now.form arity g.0) }
    ensures none { IfNone result ((g : ℕ) →
        IsSymbolOf form.now.bytes signature.now form.now.form arity g → ⊥) }
{
    // the names of a signature differ
    let _count = signature.len();
    let sym = signature.find(form.word()?)?;
    if signature.arity(sym) as usize != arity {
        return None;
    }
    Some(sym)
}

/// The ground term that a form is.
fn term_of(alloc: Global, signature: &Signature, form: &Form) -> Result<Option<Term>, AllocError>
    ensures some { IfOk result (λ r. IfSome r (λ t.
        IsGroundForm form.now.bytes signature.now form.now.form t)) }
    ensures none { IfOk result (λ r. IfNone r ((t : Tree) →
        IsGroundForm form.now.bytes signature.now form.now.form t → ⊥)) }
{
    let mut kids = Vec::new(alloc);
    let Some(list) = form.elements() else {
        let Some(sym) = symbol_of(signature, form, 0) else {
            return Ok(None);
        };
        return Ok(Some(Term { sym, kids }));
    };
    if list.len() < 2 {
        return Ok(None);
    }
    let Some((head, mut rest)) = list.split_first() else {
        unreachable!();
    };
    let Some(sym) = symbol_of(signature, &head, rest.len()) else {
        return Ok(None);
    };
    'kids: while let Some((argument, behind)) = rest.split_first() {
        let Some(kid) = term_of(alloc, signature, &argument)? else {
            return Ok(None);
        };
        kids.push(kid)?;
        rest = behind;
    }
    Ok(Some(Term { sym, kids }))
}

/// Reads the ground term of a signature that a text is: None where it is none, or more than one
/// form, or at fault. The error is want of memory.
pub fn read_ground(
    alloc: Global,
    signature: &Signature,
    text: &[u8],
) -> Result<Option<Term>, AllocError>
    requires few { length text.now < 2 ^ 32 }
    ensures some { IfOk result (λ r. IfSome r (λ t. IsGroundText signature.now text.now t)) }
    ensures lawful { IfOk result (λ r. IfSome r (λ t. IsGround signature.now t)) }
    ensures none { IfOk result (λ r. IfNone r ((t : Tree) →
        IsGroundText signature.now text.now t → ⊥)) }
{
    let forms = match read(alloc, Vec::from_slice(alloc, text)?) {
        Ok(forms) => forms,
        Err(SFault::Memory) => return Err(AllocError),
        Err(SFault::BadByte(_at)) => return Ok(None),
        Err(SFault::ExtraClose(_at)) => return Ok(None),
        Err(SFault::Unclosed(_at)) => return Ok(None),
        Err(SFault::TooDeep(_at)) => return Ok(None),
    };
    let count = forms.len();
    if count != 1 {
        return Ok(None);
    }
    term_of(alloc, signature, &forms.form(0))
}
