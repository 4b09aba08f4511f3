//! Which words are names, and which are arities.
ghost use Rattle.std.specs.Prelude.{◌≡◌, ℕ, ◌↔◌, IsTrue, IfSome, IfNone};
ghost use Rattle.fort_theory.specs.Signatures as theory;
ghost use Rattle.fort_theory.specs.Signatures.{IsName};
ghost use Rattle.fort_grammar.specs.Declarations.{IsArity};
ghost use Rattle.fort_ari.specs.Numbers.{IsNumber};

use fort_sexpr::is_word_byte;

/// Whether bytes are a name.
pub(crate) fn is_name(word: &[u8]) -> bool
    ensures { IsTrue result ↔ IsName word.now }
{
    match word {
        [] => false,
        [first, ..] => {
            *first != b':' && word.len() <= 255 && word.iter().all(|byte| is_word_byte(*byte))
        }
    }
}

/// The arity that a word is.
pub(crate) fn arity_of(word: &[u8]) -> Option<u8>
    ensures some { IfSome result (λ n. IsArity word.now n) }
    ensures none { IfNone result ((n : ℕ) → IsArity word.now n → ⊥) }
{
    let [digit] = word else {
        return None;
    };
    if *digit < b'0' || b'8' < *digit {
        return None;
    }
    Some(*digit - b'0')
}

/// The number from 1 to 9 that a word is.
pub(crate) fn parse_number(word: &[u8]) -> Option<u32>
    ensures some { IfSome result (λ n. IsNumber word.now n) }
    ensures none { IfNone result ((n : ℕ) → IsNumber word.now n → ⊥) }
{
    let [digit] = word else {
        return None;
    };
    if *digit < b'1' || b'9' < *digit {
        return None;
    }
    Some((*digit - b'0') as u32)
}
