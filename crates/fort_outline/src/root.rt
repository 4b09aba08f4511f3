//! The roots of parts.
ghost use Rattle.std.specs.Prelude.{◌≡◌, ℕ, List, IfSome, IfNone};
ghost use Rattle.fort_theory.specs.Cores as theory;
ghost use Rattle.fort_theory.specs.Kinds.{kind_of};
ghost use Rattle.fort_relations.specs.RelView.{as_rel};
ghost use Rattle.fort_formulas.specs.KindView.{as_kind};
ghost use Rattle.fort_outline.specs.Roots.{root_core};

use crate::leaf::Leaf;
use fort_connectives::Op;
use fort_formulas::Kind;
use fort_relations::Rel;

/// The root of a part, with its operands by their numbers among the parts.
#[derive(PartialEq, Eq, Hash, Drop)]
pub enum Root {
    True,
    Leaf(Leaf),
    Not(usize),
    Binary(Op, usize, usize),
    /// Some value of this variable meets the operand.
    Exists(u32, usize),
    /// Infinitely many values of this variable meet the operand.
    Infinite(u32, usize),
}

impl Root {
    /// The kind of a part with this root.
    pub fn kind(&self) -> Kind
        ensures { (parts : List theory.Core) → as_kind result ≡ kind_of (root_core parts self.now) }
    {
        match self {
            Root::True => Kind::True,
            Root::Leaf(leaf) => leaf.kind(),
            Root::Not(_) => Kind::Not,
            Root::Binary(op, _, _) => match op {
                Op::And => Kind::And,
                Op::Or => Kind::Or,
                Op::Iff => Kind::Iff,
            },
            Root::Exists(_, _) => Kind::Exists,
            Root::Infinite(_, _) => Kind::Infinite,
        }
    }

    /// The relation of an atom, with the index of its rules.
    pub fn relation(&self) -> Option<(Rel, u32)>
        ensures some { IfSome result (λ told. (parts : List theory.Core)
            → (x : ℕ) × (y : ℕ) × (root_core parts self.now
            ≡ theory.Leaf (theory.Related (as_rel told.0) told.1 x y))) }
        ensures none { IfNone result ((parts : List theory.Core) (rel : theory.Rel)
            (index x y : ℕ)
            → root_core parts self.now ≡ theory.Leaf (theory.Related rel index x y) → ⊥) }
    {
        match self {
            Root::Leaf(leaf) => match leaf.relation() {
                Some(told) => Some(told),
                None => None,
            },
            _ => None,
        }
    }
}
