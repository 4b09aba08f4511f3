//! How forms begin: the format, declarations and rules.
ghost use Rattle.std.specs.Prelude.{◌≡◌, ℕ, ◌↔◌, List, [], ◌∷◌, IsTrue, IfSome, IfNone, codes, drop, true, false};
ghost use Rattle.fort_grammar.specs.Declarations.{as_list, IsFormat, IsNoFormat, IsHeaded, IsListOfWords};
ghost use Rattle.fort_grammar.specs.ProblemForms.{BeginsOtherwise};
ghost use Rattle.fort_ari.specs.Parts.{BeginsHeaded};
ghost use Rattle.fort_ari.specs.Numbers.{BeginsAsFormat, IsNumberNamed};

use crate::word::parse_number;
use fort_sexpr::{Form, FormList, Forms};

/// Whether there is a form of this number, and it is a list that begins with a word.
pub(crate) fn begins(forms: &Forms, i: usize, head: &[u8]) -> bool
    ensures headed { result ≡ true →
        BeginsHeaded forms.now.bytes head.now (drop i (as_list forms.now.forms)) }
    ensures otherwise { result ≡ false →
        BeginsOtherwise forms.now.bytes head.now (drop i (as_list forms.now.forms)) }
{
    i < forms.len() && forms.form(i).is_headed(head)
}

/// The words of a declaration behind `fun`.
#[derive(Clone, Copy)]
pub(crate) struct DeclarationWords<'a> {
    pub name: &'a [u8],
    pub arity: &'a [u8],
}

/// The words of a list of three that begins with `fun`.
pub(crate) fn declaration_words<'a>(form: &Form<'a>) -> Option<DeclarationWords<'a>>
    requires headed { IsHeaded form.now.bytes (codes "fun") form.now.form }
    ensures some { IfSome result (λ w. IsListOfWords form.now.bytes form.now.form
        (codes "fun" ∷ w.name.now ∷ w.arity.now ∷ [])) }
    ensures none { IfNone result ((head name arity : List ℕ) →
        IsListOfWords form.now.bytes form.now.form (head ∷ name ∷ arity ∷ []) → ⊥) }
{
    let (_, name, arity) = form.three()?;
    Some(DeclarationWords {
        name: name.word()?,
        arity: arity.word()?,
    })
}

/// The number that two forms give: a word of this name, and a word that is the number.
pub(crate) fn number_named(key: &Form, value: &Form, name: &[u8]) -> Option<u32>
    requires { value.now.bytes ≡ key.now.bytes }
    ensures some { IfSome result (λ n.
        IsNumberNamed key.now.bytes key.now.form value.now.form name.now n) }
    ensures none { IfNone result ((n : ℕ) →
        IsNumberNamed key.now.bytes key.now.form value.now.form name.now n → ⊥) }
{
    if !key.is_word(name) {
        return None;
    }
    parse_number(value.word()?)
}

/// Whether the forms of a list begin with `format TRS`.
fn begins_as_format(list: &FormList) -> bool
    ensures { IsTrue result ↔ BeginsAsFormat list.now.bytes list.now.forms }
{
    if list.len() < 2 {
        return false;
    }
    list.get(0).is_word(b"format") && list.get(1).is_word(b"TRS")
}

/// The number of systems of `(format TRS)`, or of that with `:number` behind.
pub(crate) fn number_of_systems(form: &Form) -> Option<u32>
    ensures some { IfSome result (λ n. IsFormat form.now.bytes form.now.form n) }
    ensures none { IfNone result (IsNoFormat form.now.bytes form.now.form) }
{
    let list = form.elements()?;
    if !begins_as_format(&list) {
        return None;
    }
    match list.len() {
        2 => Some(1),
        4 => number_named(&list.get(2), &list.get(3), b":number"),
        _ => None,
    }
}
