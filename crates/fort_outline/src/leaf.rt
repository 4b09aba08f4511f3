//! The atoms of parts.
ghost use Rattle.std.specs.Prelude.{◌≡◌, ℕ, IfSome, IfNone};
ghost use Rattle.fort_theory.specs.Cores as theory;
ghost use Rattle.fort_theory.specs.Kinds.{kind_of_atom};
ghost use Rattle.fort_relations.specs.RelView.{as_rel};
ghost use Rattle.fort_formulas.specs.KindView.{as_kind};
ghost use Rattle.fort_outline.specs.LeafView.{as_atom};

use fort_formulas::{Core, Kind, kind};
use fort_relations::{Holes, Place, Rel, Rex};
use fort_terms::Term;

/// An atom, with its variables by their numbers.
#[derive(PartialEq, Eq, Hash, Drop)]
pub enum Leaf {
    /// By the rules of this index, these two variables are related.
    Related(Rel, u32, u32, u32),
    /// These two variables are one context with pairs of this relation in its holes, of which there
    /// are so many at such places.
    InContext(Rex, Holes, Place, u32, u32),
    /// By the rules of this index, this variable is a normal form.
    Normal(u32, u32),
    /// This variable is this term.
    IsTerm(u32, Term),
}

impl Leaf {
    /// The kind of a part that is this atom.
    pub fn kind(&self) -> Kind
        ensures { as_kind result ≡ kind_of_atom (as_atom self.now) }
    {
        match self {
            Leaf::Related(rel, index, x, y) => kind(&Core::Atom(*rel, *index, *x, *y)),
            Leaf::InContext(_, _, _, _, _) => Kind::Rex,
            Leaf::Normal(_, _) => Kind::Nf,
            Leaf::IsTerm(_, _) => Kind::Is,
        }
    }

    /// Its relation, with the index of its rules.
    pub fn relation(&self) -> Option<(Rel, u32)>
        ensures some { IfSome result (λ told. (x : ℕ) × (y : ℕ)
            × (as_atom self.now ≡ theory.Related (as_rel told.0) told.1 x y)) }
        ensures none { IfNone result ((rel : theory.Rel) (index x y : ℕ)
            → as_atom self.now ≡ theory.Related rel index x y → ⊥) }
    {
        match self {
            Leaf::Related(rel, index, _, _) => Some((*rel, *index)),
            _ => None,
        }
    }
}
