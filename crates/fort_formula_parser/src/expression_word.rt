//! The words of expressions, which are names elsewhere.

ghost use Rattle.std.specs.Prelude.{◌≡◌, Contains, MatchOption};
ghost use Rattle.fort_formula_grammar.specs.ExpressionGrammar.{expression_words, number_word, number_words, place_word, place_words};
ghost use Rattle.fort_relations.specs.HolesView.{as_hole_number, as_hole_place};
ghost use Rattle.fort_formula_parser.specs.ExpressionParsing.{head_word};

use fort_relations::{Holes, Place};

/// What makes an expression of one other.
#[derive(Clone, Copy)]
pub(crate) enum OneOperand {
    Inv,
    Clos,
}

/// What makes an expression of two others.
#[derive(Clone, Copy)]
pub(crate) enum TwoOperands {
    Union,
    Comp,
}

/// What an expression begins with.
#[derive(Clone, Copy)]
pub(crate) enum Head {
    Root,
    One(OneOperand),
    Two(TwoOperands),
}

/// What this word begins, if an expression.
pub(crate) fn head_of(word: &[u8]) -> Option<Head>
    ensures { MatchOption result (Contains expression_words word.now → ⊥)
        (λ head. word.now ≡ head_word head) }
{
    match word {
        b"root" => Some(Head::Root),
        b"inv" => Some(Head::One(OneOperand::Inv)),
        b"union" => Some(Head::Two(TwoOperands::Union)),
        b"comp" => Some(Head::Two(TwoOperands::Comp)),
        b"clos" => Some(Head::One(OneOperand::Clos)),
        _ => None,
    }
}

/// How many holes this word says, if any.
pub(crate) fn holes_of(word: &[u8]) -> Option<Holes>
    ensures { MatchOption result (Contains number_words word.now → ⊥)
        (λ holes. word.now ≡ number_word (as_hole_number holes)) }
{
    match word {
        b"one" => Some(Holes::One),
        b"some" => Some(Holes::Some),
        b"any" => Some(Holes::Any),
        _ => None,
    }
}

/// Where this word says that the holes are, if anywhere.
pub(crate) fn parse_place(word: &[u8]) -> Option<Place>
    ensures { MatchOption result (Contains place_words word.now → ⊥)
        (λ place. word.now ≡ place_word (as_hole_place place)) }
{
    match word {
        b"root" => Some(Place::Root),
        b"below" => Some(Place::Below),
        b"all" => Some(Place::All),
        _ => None,
    }
}
