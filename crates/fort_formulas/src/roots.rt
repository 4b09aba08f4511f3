//! The kind of a core formula.

ghost use Rattle.std.specs.Prelude.{◌≡◌};
ghost use Rattle.fort_theory.specs.Kinds.{kind_of};
ghost use Rattle.fort_formulas.specs.CoreView.{as_core};
ghost use Rattle.fort_formulas.specs.KindView.{as_kind};

use crate::core_formula::Core;
use crate::kinds::Kind;
use fort_relations::Rel;

/// The kind of a formula, by its root.
pub fn kind(core: &Core) -> Kind
    ensures { as_kind result ≡ kind_of (as_core core.now) }
{
    match core {
        Core::True => Kind::True,
        Core::Atom(rel, _, _, _) => match rel {
            Rel::Eq => Kind::Eq,
            Rel::Root => Kind::Root,
            Rel::Below => Kind::Below,
            Rel::Step => Kind::Step,
            Rel::Par => Kind::Par,
            Rel::Plus => Kind::Plus,
            Rel::Star => Kind::Star,
            Rel::Conv => Kind::Conv,
        },
        Core::Rel(_, _, _, _, _) => Kind::Rex,
        Core::Nf(_, _) => Kind::Nf,
        Core::Is(_, _) => Kind::Is,
        Core::Not(_) => Kind::Not,
        Core::And(_, _) => Kind::And,
        Core::Or(_, _) => Kind::Or,
        Core::Iff(_, _) => Kind::Iff,
        Core::Exists(_, _) => Kind::Exists,
        Core::Infinite(_, _) => Kind::Infinite,
    }
}
