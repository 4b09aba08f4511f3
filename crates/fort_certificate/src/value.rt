//! Reads the elements of a step, each by itself, or says what is wrong with it.
ghost use Rattle.std.specs.Prelude.{◌≡◌, ℕ, Bool, List, [], ◌∷◌, Some, IfSome, IfNone, IfOk, IfErr};
ghost use Rattle.fort_grammar.specs.Declarations.{word_of, IsListOfWords};
ghost use Rattle.fort_alike.specs.ListedClosures as closures;
ghost use Rattle.fort_certificate_theory.specs.CertificateForms.{which_word, verdict_word, IsNumberForm, IsWhyWord, IsPairForm, IsCountForm};
ghost use Rattle.fort_certificate_theory.specs.CertificateFaults.{WhichSlot, NumberSlot, VerdictSlot, PairSlot, CountSlot, Fits, IsBadAt};
ghost use Rattle.fort_sexpr.specs.FormView.{word_ahead};
ghost use Rattle.fort_findings.specs.FindingView.{as_which, as_why, as_pair, as_count};
ghost use Rattle.fort_certificate.specs.ReadView.{as_kind};

use crate::word::number_ahead;
use fort_findings::{ClosureEntry, Count, Reason, Which};
use fort_sexpr::{Form, is_ahead};

/// What is wrong with an element.
#[derive(Clone, Copy, Debug, PartialEq, Eq)]
pub(crate) enum Wrong {
    /// Its shape.
    Form,
    /// A word of it that should be a number.
    Number,
}

pub(crate) fn which_in(form: &Form) -> Option<Which>
    ensures some { IfSome result (λ which.
        word_of form.now.bytes form.now.form ≡ Some (which_word (as_which which))) }
    ensures none { IfNone result (Fits form.now.bytes form.now.form WhichSlot → ⊥) }
{
    if form.is_word(b"star") {
        return Some(Which::Star);
    }
    if form.is_word(b"conv") {
        return Some(Which::Conv);
    }
    None
}

/// The verdict that a word is, by the bytes from its first one on.
pub(crate) fn verdict_ahead(bytes: &[u8]) -> Option<bool>
    ensures some { IfSome result (λ verdict. word_ahead bytes.now ≡ verdict_word verdict) }
    ensures none { IfNone result ((verdict : Bool) →
        word_ahead bytes.now ≡ verdict_word verdict → ⊥) }
{
    if is_ahead(bytes, b"yes") {
        return Some(true);
    }
    if is_ahead(bytes, b"no") {
        return Some(false);
    }
    None
}

pub(crate) fn verdict_in(form: &Form) -> Option<bool>
    ensures some { IfSome result (λ verdict.
        word_of form.now.bytes form.now.form ≡ Some (verdict_word verdict)) }
    ensures none { IfNone result (Fits form.now.bytes form.now.form VerdictSlot → ⊥) }
{
    match form.word_on() {
        Some(bytes) => verdict_ahead(bytes),
        None => None,
    }
}

pub(crate) fn number_in(form: &Form) -> Result<u32, Wrong>
    ensures ok { IfOk result (λ n. IsNumberForm form.now.bytes form.now.form n) }
    ensures err { IfErr result (λ wrong.
        IsBadAt form.now.bytes form.now.form NumberSlot (as_kind wrong)) }
{
    let Some(bytes) = form.word_on() else {
        return Err(Wrong::Form);
    };
    match number_ahead(bytes) {
        Some(n) => Ok(n),
        None => Err(Wrong::Number),
    }
}

/// The bytes of the text from each word of a list of two on.
#[derive(Clone, Copy)]
struct TwoWords<'a> {
    first: &'a [u8],
    second: &'a [u8],
}

fn two_words<'a>(form: &Form<'a>) -> Option<TwoWords<'a>>
    ensures some { IfSome result (λ w. IsListOfWords form.now.bytes form.now.form
        (word_ahead w.first.now ∷ word_ahead w.second.now ∷ [])) }
    ensures none { IfNone result ((u v : List ℕ) →
        IsListOfWords form.now.bytes form.now.form (u ∷ v ∷ []) → ⊥) }
{
    let (first, second) = form.two()?;
    Some(TwoWords {
        first: first.word_on()?,
        second: second.word_on()?,
    })
}

/// The bytes of the text from each word of a list of three on.
#[derive(Clone, Copy)]
pub(crate) struct ThreeWords<'a> {
    pub first: &'a [u8],
    pub second: &'a [u8],
    pub third: &'a [u8],
}

pub(crate) fn three_words<'a>(form: &Form<'a>) -> Option<ThreeWords<'a>>
    ensures some { IfSome result (λ w. IsListOfWords form.now.bytes form.now.form
        (word_ahead w.first.now ∷ word_ahead w.second.now ∷ word_ahead w.third.now ∷ [])) }
    ensures none { IfNone result ((u v w : List ℕ) →
        IsListOfWords form.now.bytes form.now.form (u ∷ v ∷ w ∷ []) → ⊥) }
{
    let (first, second, third) = form.three()?;
    Some(ThreeWords {
        first: first.word_on()?,
        second: second.word_on()?,
        third: third.word_on()?,
    })
}

/// The reason that a word is, by the bytes from its first one on.
fn reason_ahead(bytes: &[u8]) -> Option<Reason>
    ensures some { IfSome result (λ why. IsWhyWord (word_ahead bytes.now) (as_why why)) }
    ensures none { IfNone result ((why : closures.Why) →
        IsWhyWord (word_ahead bytes.now) why → ⊥) }
{
    if is_ahead(bytes, b"any") {
        return Some(Reason::Any);
    }
    if is_ahead(bytes, b"kids") {
        return Some(Reason::Kids);
    }
    match number_ahead(bytes) {
        Some(rule) => Some(Reason::Rule(rule)),
        None => None,
    }
}

pub(crate) fn entry_in(form: &Form) -> Result<ClosureEntry, Wrong>
    ensures ok { IfOk result (λ e. IsPairForm form.now.bytes form.now.form (as_pair e)) }
    ensures err { IfErr result (λ wrong.
        IsBadAt form.now.bytes form.now.form PairSlot (as_kind wrong)) }
{
    let Some(words) = three_words(form) else {
        return Err(Wrong::Form);
    };
    let Some(p) = number_ahead(words.first) else {
        return Err(Wrong::Number);
    };
    let Some(q) = number_ahead(words.second) else {
        return Err(Wrong::Number);
    };
    let Some(why) = reason_ahead(words.third) else {
        return Err(Wrong::Number);
    };
    Ok(ClosureEntry { p, q, why })
}

pub(crate) fn count_in(form: &Form) -> Result<Count, Wrong>
    ensures ok { IfOk result (λ n. IsCountForm form.now.bytes form.now.form (as_count n)) }
    ensures err { IfErr result (λ wrong.
        IsBadAt form.now.bytes form.now.form CountSlot (as_kind wrong)) }
{
    let Some(words) = two_words(form) else {
        return Err(Wrong::Form);
    };
    if is_ahead(words.first, b"fin") {
        return match number_ahead(words.second) {
            Some(height) => Ok(Count::Finite(height)),
            None => Err(Wrong::Number),
        };
    }
    if is_ahead(words.first, b"inf") {
        return match number_ahead(words.second) {
            Some(child) => Ok(Count::Infinite(child)),
            None => Err(Wrong::Number),
        };
    }
    Err(Wrong::Form)
}
