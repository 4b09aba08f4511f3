//! Core formulas, which can be keys of maps and sets.

ghost use Rattle.std.specs.Prelude.{◌≡◌, IfOk};
ghost use Rattle.std.specs.Ordering.{nat_cmp};
ghost use Rattle.fort_formulas.specs.CoreCode.{rel_place};
ghost use Rattle.fort_relations.specs.HolesCode.{hole_number_code, hole_place_code};
ghost use Rattle.fort_relations.specs.HolesView.{as_hole_number, as_hole_place};
ghost use Rattle.fort_relations.specs.RelView.{as_rel};
ghost use Rattle.fort_formulas.specs.CoreView.{as_core};
ghost use Rattle.fort_formulas.specs.CoreKeys.{core_place};

use fort_relations::{Holes, Place, Rel, Rex};
use fort_terms::Term;
use std::alloc::{AllocError, Global};
use std::cmp::Ordering;
use std::hash::{Hash, Hasher};
use std::marker::Model;

/// The order of relations, by their places in the list of the variants.
fn rel_order(first: Rel, second: Rel) -> Ordering
    ensures { result ≡ nat_cmp (rel_place (as_rel first)) (rel_place (as_rel second)) }
{
    first.cmp(&second)
}

fn holes_order(first: Holes, second: Holes) -> Ordering
    ensures { result ≡ nat_cmp (hole_number_code (as_hole_number first))
        (hole_number_code (as_hole_number second)) }
{
    first.cmp(&second)
}

fn place_order(first: Place, second: Place) -> Ordering
    ensures { result ≡ nat_cmp (hole_place_code (as_hole_place first))
        (hole_place_code (as_hole_place second)) }
{
    first.cmp(&second)
}

/// A formula with numbers for variables, and few connectives.
#[derive(Drop)]
#[cycle(core)]
pub enum Core {
    True,
    /// By the rules of this index, these two variables are related. The index is 1 for `Rel::Eq`.
    Atom(Rel, u32, u32, u32),
    /// These two variables are one context with pairs of this relation in its holes, of which there
    /// are so many at such places.
    Rel(Rex, Holes, Place, u32, u32),
    /// By the rules of this index, this variable is a normal form.
    Nf(u32, u32),
    /// This variable is this term.
    Is(u32, Term),
    Not(Arm),
    And(Arm, Arm),
    Or(Arm, Arm),
    Iff(Arm, Arm),
    /// Some value of this variable meets the operand.
    Exists(u32, Arm),
    /// Infinitely many values of this variable meet the operand.
    Infinite(u32, Arm),
}

/// An operand of a core formula.
#[derive(Drop)]
#[cycle(core)]
pub struct Arm {
    core: Box<Core>,
}

impl Model for Arm {
    ghost use Rattle.fort_theory.specs.Cores as theory;
    ghost use Rattle.fort_formulas.specs.CoreCode.{core_code};

    ghost Value = { theory.Core };

    ghost coded = { core_code };

    ghost use Rattle.fort_formulas.specs.CoreView.{as_core, node_count};

    ghost view = { λ a. as_core a.core.value };

    ghost size = { node_count };

    ghost use Rattle.std.proofs.Common.{arith};
    ghost use Rattle.fort_formulas.specs.CoreFalls.{deep_below};

    ghost size_decreases = { λ a h. omega (arith, deep_below a.core.value) };
}

impl Arm {
    /// This formula as an operand.
    pub fn new(alloc: Global, core: Core) -> Result<Arm, AllocError>
        ensures { IfOk result (λ arm. arm ≡ as_core core) }
    {
        Ok(Arm {
            core: Box::new(alloc, core)?,
        })
    }

    /// The formula. It takes no memory.
    pub fn as_core(&self) -> &Core
        ensures { as_core result.now ≡ self.now }
    {
        &self.core
    }

    /// An equal operand.
    #[cycle(core_copy)]
    pub fn copy(&self, alloc: Global) -> Result<Arm, AllocError>
        ensures { IfOk result (λ arm. arm ≡ self.now) }
    {
        let core = self.core.copy(alloc)?;
        Ok(Arm {
            core: Box::new(alloc, core)?,
        })
    }
}

impl Core {
    /// An equal formula.
    #[cycle(core_copy)]
    pub fn copy(&self, alloc: Global) -> Result<Core, AllocError>
        ensures { IfOk result (λ c. c ≡ self.now) }
    {
        match self {
            Core::True => Ok(Core::True),
            Core::Atom(rel, index, x, y) => Ok(Core::Atom(*rel, *index, *x, *y)),
            Core::Rel(rex, holes, place, x, y) => {
                Ok(Core::Rel(rex.copy(alloc)?, *holes, *place, *x, *y))
            }
            Core::Nf(index, x) => Ok(Core::Nf(*index, *x)),
            Core::Is(x, term) => Ok(Core::Is(*x, term.copy(alloc)?)),
            Core::Not(f) => Ok(Core::Not(f.copy(alloc)?)),
            Core::And(f, g) => Ok(Core::And(f.copy(alloc)?, g.copy(alloc)?)),
            Core::Or(f, g) => Ok(Core::Or(f.copy(alloc)?, g.copy(alloc)?)),
            Core::Iff(f, g) => Ok(Core::Iff(f.copy(alloc)?, g.copy(alloc)?)),
            Core::Exists(n, f) => Ok(Core::Exists(*n, f.copy(alloc)?)),
            Core::Infinite(n, f) => Ok(Core::Infinite(*n, f.copy(alloc)?)),
        }
    }
}

impl PartialEq for Core {
    ghost use Rattle.std.specs.Ordering.{on};
    ghost use Rattle.fort_formulas.specs.CoreKeys.{core_spelled, same_marks};
    ghost use Rattle.fort_formulas.specs.CoreKeyLaws.{Core_eq-partial_equiv};

    ghost eq = { on core_spelled same_marks };

    ghost laws = { Core_eq-partial_equiv };

    fn eq(&self, other: &Core) -> bool {
        match (self, other) {
            (Core::True, Core::True) => true,
            (Core::Atom(rel, i, x, y), Core::Atom(other_rel, j, u, v)) => {
                rel == other_rel && i == j && x == u && y == v
            }
            (Core::Rel(e, m, p, x, y), Core::Rel(d, n, q, u, v)) => {
                m == n && p == q && x == u && y == v && e == d
            }
            (Core::Nf(i, x), Core::Nf(j, y)) => i == j && x == y,
            (Core::Is(x, s), Core::Is(y, t)) => x == y && s == t,
            (Core::Not(f), Core::Not(g)) => *f.as_core() == *g.as_core(),
            (Core::And(f, g), Core::And(h, k)) => *f.as_core() == *h.as_core()
                && *g.as_core() == *k.as_core(),
            (Core::Or(f, g), Core::Or(h, k)) => *f.as_core() == *h.as_core()
                && *g.as_core() == *k.as_core(),
            (Core::Iff(f, g), Core::Iff(h, k)) => *f.as_core() == *h.as_core()
                && *g.as_core() == *k.as_core(),
            (Core::Exists(m, f), Core::Exists(n, g)) => m == n && *f.as_core() == *g.as_core(),
            (Core::Infinite(m, f), Core::Infinite(n, g)) => m == n && *f.as_core() == *g.as_core(),
            _ => false,
        }
    }
}

impl PartialEq for Arm {
    ghost use Rattle.std.specs.Ordering.{on};
    ghost use Rattle.fort_formulas.specs.CoreCode.{spelled};
    ghost use Rattle.fort_formulas.specs.CoreKeys.{same_marks};
    ghost use Rattle.fort_formulas.specs.CoreKeyLaws.{arm_eq-partial_equiv};

    ghost eq = { on spelled same_marks };

    ghost laws = { arm_eq-partial_equiv };

    fn eq(&self, other: &Arm) -> bool {
        *self.as_core() == *other.as_core()
    }
}

impl Eq for Core {
    ghost use Rattle.fort_formulas.specs.CoreKeyLaws.{Core_eq-equiv};

    ghost laws = { Core_eq-equiv };
}

impl Eq for Arm {
    ghost use Rattle.fort_formulas.specs.CoreKeyLaws.{arm_eq-equiv};

    ghost laws = { arm_eq-equiv };
}

impl Core {
    /// The place of the node in the list of the variants.
    fn place(&self) -> u8
        ensures { result ≡ core_place (as_core self.now) }
    {
        match self {
            Core::True => 0,
            Core::Atom(_, _, _, _) => 1,
            Core::Rel(_, _, _, _, _) => 2,
            Core::Nf(_, _) => 3,
            Core::Is(_, _) => 4,
            Core::Not(_) => 5,
            Core::And(_, _) => 6,
            Core::Or(_, _) => 7,
            Core::Iff(_, _) => 8,
            Core::Exists(_, _) => 9,
            Core::Infinite(_, _) => 10,
        }
    }
}

impl PartialOrd for Core {
    ghost use Rattle.std.specs.Ordering.{as_partial_cmp, on};
    ghost use Rattle.fort_formulas.specs.CoreKeys.{core_spelled, marks_order};
    ghost use Rattle.fort_formulas.specs.CoreOrderLaws.{Core_order-partial};

    ghost partial_cmp = { as_partial_cmp (on core_spelled marks_order) };

    ghost laws = { Core_order-partial };

    fn partial_cmp(&self, other: &Core) -> Option<Ordering> {
        Some(self.cmp(other))
    }
}

impl PartialOrd for Arm {
    ghost use Rattle.std.specs.Ordering.{as_partial_cmp, on};
    ghost use Rattle.fort_formulas.specs.CoreCode.{spelled};
    ghost use Rattle.fort_formulas.specs.CoreKeys.{marks_order};
    ghost use Rattle.fort_formulas.specs.CoreOrderLaws.{arm_order-partial};

    ghost partial_cmp = { as_partial_cmp (on spelled marks_order) };

    ghost laws = { arm_order-partial };

    fn partial_cmp(&self, other: &Arm) -> Option<Ordering> {
        Some(self.cmp(other))
    }
}

impl Ord for Core {
    ghost use Rattle.std.specs.Prelude.{refl};
    ghost use Rattle.std.specs.Ordering.{on};
    ghost use Rattle.fort_formulas.specs.CoreKeys.{core_spelled, marks_order};
    ghost use Rattle.fort_formulas.specs.CoreOrderLaws.{Core_order-total, Core_eq-ties};

    ghost cmp = { on core_spelled marks_order };

    ghost total = { Core_order-total };

    ghost matches_partial_cmp = { λ c d. refl };

    ghost matches_eq = { Core_eq-ties };

    fn cmp(&self, other: &Core) -> Ordering {
        match (self, other) {
            (Core::True, Core::True) => Ordering::Equal,
            (Core::Atom(rel, i, x, y), Core::Atom(other_rel, j, u, v)) => rel_order(
                *rel, *other_rel,
            ).then(i.cmp(j))
                .then(x.cmp(u))
                .then(y.cmp(v)),
            (Core::Rel(e, m, p, x, y), Core::Rel(d, n, q, u, v)) => holes_order(*m, *n)
                .then(place_order(*p, *q))
                .then(x.cmp(u))
                .then(y.cmp(v))
                .then(e.cmp(d)),
            (Core::Nf(i, x), Core::Nf(j, y)) => i.cmp(j).then(x.cmp(y)),
            (Core::Is(x, s), Core::Is(y, t)) => x.cmp(y).then(s.cmp(t)),
            (Core::Not(f), Core::Not(g)) => f.as_core().cmp(g.as_core()),
            (Core::And(f, g), Core::And(h, k)) => match f.as_core().cmp(h.as_core()) {
                Ordering::Equal => g.as_core().cmp(k.as_core()),
                unequal => unequal,
            },
            (Core::Or(f, g), Core::Or(h, k)) => match f.as_core().cmp(h.as_core()) {
                Ordering::Equal => g.as_core().cmp(k.as_core()),
                unequal => unequal,
            },
            (Core::Iff(f, g), Core::Iff(h, k)) => match f.as_core().cmp(h.as_core()) {
                Ordering::Equal => g.as_core().cmp(k.as_core()),
                unequal => unequal,
            },
            (Core::Exists(m, f), Core::Exists(n, g)) => match m.cmp(n) {
                Ordering::Equal => f.as_core().cmp(g.as_core()),
                unequal => unequal,
            },
            (Core::Infinite(m, f), Core::Infinite(n, g)) => match m.cmp(n) {
                Ordering::Equal => f.as_core().cmp(g.as_core()),
                unequal => unequal,
            },
            _ => self.place().cmp(&other.place()),
        }
    }
}

impl Ord for Arm {
    ghost use Rattle.std.specs.Prelude.{refl};
    ghost use Rattle.std.specs.Ordering.{on};
    ghost use Rattle.fort_formulas.specs.CoreCode.{spelled};
    ghost use Rattle.fort_formulas.specs.CoreKeys.{marks_order};
    ghost use Rattle.fort_formulas.specs.CoreOrderLaws.{arm_order-total, arm_eq-ties};

    ghost cmp = { on spelled marks_order };

    ghost total = { arm_order-total };

    ghost matches_partial_cmp = { λ f g. refl };

    ghost matches_eq = { arm_eq-ties };

    fn cmp(&self, other: &Arm) -> Ordering {
        self.as_core().cmp(other.as_core())
    }
}

impl Hash for Core {
    ghost use Rattle.fort_formulas.specs.CoreView.{as_core};
    ghost use Rattle.fort_formulas.specs.CoreHash.{core_hash};
    ghost use Rattle.fort_formulas.specs.CoreHashLaws.{Core_hash-respects_eq};

    ghost hash_input = { λ c. core_hash (as_core c) };

    ghost respects_eq = { Core_hash-respects_eq };

    fn hash<H: Hasher>(&self, state: &mut H) {
        state.write_u8(self.place());
        match self {
            Core::True => {}
            Core::Atom(rel, index, x, y) => {
                rel.hash(state);
                index.hash(state);
                x.hash(state);
                y.hash(state);
            }
            Core::Rel(rex, holes, place, x, y) => {
                holes.hash(state);
                place.hash(state);
                x.hash(state);
                y.hash(state);
                rex.hash(state);
            }
            Core::Nf(index, x) => {
                index.hash(state);
                x.hash(state);
            }
            Core::Is(x, term) => {
                x.hash(state);
                term.hash(state);
            }
            Core::Not(f) => f.as_core().hash(state),
            Core::And(f, g) | Core::Or(f, g) | Core::Iff(f, g) => {
                f.as_core().hash(state);
                g.as_core().hash(state);
            }
            Core::Exists(n, f) | Core::Infinite(n, f) => {
                n.hash(state);
                f.as_core().hash(state);
            }
        }
    }
}

impl Hash for Arm {
    ghost use Rattle.fort_formulas.specs.CoreHash.{core_hash};
    ghost use Rattle.fort_formulas.specs.CoreHashLaws.{arm_hash-respects_eq};

    ghost hash_input = { core_hash };

    ghost respects_eq = { arm_hash-respects_eq };

    fn hash<H: Hasher>(&self, state: &mut H) {
        self.as_core().hash(state);
    }
}
