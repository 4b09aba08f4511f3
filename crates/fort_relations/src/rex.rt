//! Expressions of relations, which can be keys of maps and sets.

ghost use Rattle.std.specs.Prelude.{◌≡◌, ◌+◌, ◌<◌, ◌↔◌, IfOk, IfSome, IfNone, IsTrue, length};
ghost use Rattle.fort_theory.specs.Expressions.{root_indices, HasManyRoots};
ghost use Rattle.fort_relations.specs.FirstAbove.{first_above};
ghost use Rattle.fort_relations.specs.RexKeys.{node_place};
ghost use Rattle.fort_relations.specs.RexView.{as_expression};

use std::alloc::{AllocError, Global};
use std::cmp::Ordering;
use std::hash::{Hash, Hasher};
use std::marker::Model;

/// The most root steps of an expression that is decided.
const MOST_ROOTS: u32 = 32;

/// A relation between terms, made of root steps.
#[derive(Drop)]
#[cycle(rex)]
pub enum Rex {
    /// A step at the root, by the rules of this index.
    Root(u32),
    /// The converse.
    Inv(RexArm),
    /// One of the two.
    Union(RexArm, RexArm),
    /// The first one and then the second: one of them at the root, the other in any number of holes
    /// of a context.
    Comp(RexArm, RexArm),
    /// This at the root, and steps of it at any positions before and behind.
    Clos(RexArm),
}

/// An operand of an expression.
#[derive(Drop)]
#[cycle(rex)]
pub struct RexArm {
    rex: Box<Rex>,
}

impl Model for RexArm {
    ghost use Rattle.fort_theory.specs.Expressions as theory;
    ghost use Rattle.fort_relations.specs.ExpressionCode.{expression_code};

    ghost Value = { theory.Expression };

    ghost coded = { expression_code };

    ghost use Rattle.fort_relations.specs.RexView.{as_expression, node_count};

    ghost view = { λ a. as_expression a.rex.value };

    ghost size = { node_count };

    ghost use Rattle.std.proofs.Common.{arith};
    ghost use Rattle.fort_relations.specs.RexFalls.{deep_below};

    ghost size_decreases = { λ a h. omega (arith, deep_below a.rex.value) };
}

impl RexArm {
    /// This expression as an operand.
    pub fn new(alloc: Global, rex: Rex) -> Result<RexArm, AllocError>
        ensures { IfOk result (λ arm. arm ≡ as_expression rex) }
    {
        Ok(RexArm {
            rex: Box::new(alloc, rex)?,
        })
    }

    /// The expression. It takes no memory.
    pub fn as_rex(&self) -> &Rex
        ensures { as_expression result.now ≡ self.now }
    {
        &self.rex
    }

    /// An equal operand.
    #[cycle(rex_copy)]
    pub fn copy(&self, alloc: Global) -> Result<RexArm, AllocError>
        ensures { IfOk result (λ arm. arm ≡ self.now) }
    {
        let rex = self.rex.copy(alloc)?;
        Ok(RexArm {
            rex: Box::new(alloc, rex)?,
        })
    }
}

impl Rex {
    /// An equal expression.
    #[cycle(rex_copy)]
    pub fn copy(&self, alloc: Global) -> Result<Rex, AllocError>
        ensures { IfOk result (λ r. r ≡ self.now) }
    {
        match self {
            Rex::Root(index) => Ok(Rex::Root(*index)),
            Rex::Inv(e) => Ok(Rex::Inv(e.copy(alloc)?)),
            Rex::Union(a, b) => Ok(Rex::Union(a.copy(alloc)?, b.copy(alloc)?)),
            Rex::Comp(a, b) => Ok(Rex::Comp(a.copy(alloc)?, b.copy(alloc)?)),
            Rex::Clos(e) => Ok(Rex::Clos(e.copy(alloc)?)),
        }
    }

    /// Whether it has more root steps than an expression that is decided may have. It takes no
    /// memory.
    pub fn has_many_roots(&self) -> bool
        ensures { IsTrue result ↔ HasManyRoots (as_expression self.now) }
    {
        self.room_left(MOST_ROOTS).is_none()
    }

    /// What its root steps leave of this room, where there is enough.
    fn room_left(&self, room: u32) -> Option<u32>
        ensures left { IfSome result (λ left.
            left + length (root_indices (as_expression self.now)) ≡ room) }
        ensures short { IfNone result (room < length (root_indices (as_expression self.now))) }
    {
        match self {
            Rex::Root(_) => room.checked_sub(1),
            Rex::Inv(e) | Rex::Clos(e) => e.as_rex().room_left(room),
            Rex::Union(a, b) | Rex::Comp(a, b) => match a.as_rex().room_left(room) {
                Some(left) => b.as_rex().room_left(left),
                None => None,
            },
        }
    }

    /// The first of its indices, from left to right, that is above this number. It takes no memory.
    pub fn index_above(&self, number: u32) -> Option<u32>
        ensures { result ≡ first_above number (root_indices (as_expression self.now)) }
    {
        match self {
            Rex::Root(index) if number < *index => Some(*index),
            Rex::Root(_) => None,
            Rex::Inv(e) | Rex::Clos(e) => e.as_rex().index_above(number),
            Rex::Union(a, b) | Rex::Comp(a, b) => match a.as_rex().index_above(number) {
                None => b.as_rex().index_above(number),
                first => first,
            },
        }
    }

    /// The place of the node in the list of the variants.
    fn place(&self) -> u8
        ensures { result ≡ node_place (as_expression self.now) }
    {
        match self {
            Rex::Root(_) => 0,
            Rex::Inv(_) => 1,
            Rex::Union(_, _) => 2,
            Rex::Comp(_, _) => 3,
            Rex::Clos(_) => 4,
        }
    }
}

impl PartialEq for Rex {
    ghost use Rattle.std.specs.Ordering.{on};
    ghost use Rattle.fort_relations.specs.RexKeys.{rex_spelled, same_numbers};
    ghost use Rattle.fort_relations.specs.RexKeyLaws.{Rex_eq-partial_equiv};

    ghost eq = { on rex_spelled same_numbers };

    ghost laws = { Rex_eq-partial_equiv };

    fn eq(&self, other: &Rex) -> bool {
        match (self, other) {
            (Rex::Root(i), Rex::Root(j)) => i == j,
            (Rex::Inv(e), Rex::Inv(d)) => *e.as_rex() == *d.as_rex(),
            (Rex::Union(a, b), Rex::Union(c, d)) => *a.as_rex() == *c.as_rex()
                && *b.as_rex() == *d.as_rex(),
            (Rex::Comp(a, b), Rex::Comp(c, d)) => *a.as_rex() == *c.as_rex()
                && *b.as_rex() == *d.as_rex(),
            (Rex::Clos(e), Rex::Clos(d)) => *e.as_rex() == *d.as_rex(),
            _ => false,
        }
    }
}

impl PartialEq for RexArm {
    ghost use Rattle.std.specs.Ordering.{on};
    ghost use Rattle.fort_relations.specs.ExpressionCode.{spelled};
    ghost use Rattle.fort_relations.specs.RexKeys.{same_numbers};
    ghost use Rattle.fort_relations.specs.RexKeyLaws.{arm_eq-partial_equiv};

    ghost eq = { on spelled same_numbers };

    ghost laws = { arm_eq-partial_equiv };

    fn eq(&self, other: &RexArm) -> bool {
        *self.as_rex() == *other.as_rex()
    }
}

impl Eq for Rex {
    ghost use Rattle.fort_relations.specs.RexKeyLaws.{Rex_eq-equiv};

    ghost laws = { Rex_eq-equiv };
}

impl Eq for RexArm {
    ghost use Rattle.fort_relations.specs.RexKeyLaws.{arm_eq-equiv};

    ghost laws = { arm_eq-equiv };
}

impl PartialOrd for Rex {
    ghost use Rattle.std.specs.Ordering.{as_partial_cmp, on};
    ghost use Rattle.fort_relations.specs.RexKeys.{rex_spelled, numbers_order};
    ghost use Rattle.fort_relations.specs.RexOrderLaws.{Rex_order-partial};

    ghost partial_cmp = { as_partial_cmp (on rex_spelled numbers_order) };

    ghost laws = { Rex_order-partial };

    fn partial_cmp(&self, other: &Rex) -> Option<Ordering> {
        Some(self.cmp(other))
    }
}

impl PartialOrd for RexArm {
    ghost use Rattle.std.specs.Ordering.{as_partial_cmp, on};
    ghost use Rattle.fort_relations.specs.ExpressionCode.{spelled};
    ghost use Rattle.fort_relations.specs.RexKeys.{numbers_order};
    ghost use Rattle.fort_relations.specs.RexOrderLaws.{arm_order-partial};

    ghost partial_cmp = { as_partial_cmp (on spelled numbers_order) };

    ghost laws = { arm_order-partial };

    fn partial_cmp(&self, other: &RexArm) -> Option<Ordering> {
        Some(self.cmp(other))
    }
}

impl Ord for Rex {
    ghost use Rattle.std.specs.Prelude.{refl};
    ghost use Rattle.std.specs.Ordering.{on};
    ghost use Rattle.fort_relations.specs.RexKeys.{rex_spelled, numbers_order};
    ghost use Rattle.fort_relations.specs.RexOrderLaws.{Rex_order-total, Rex_eq-ties};

    ghost cmp = { on rex_spelled numbers_order };

    ghost total = { Rex_order-total };

    ghost matches_partial_cmp = { λ r q. refl };

    ghost matches_eq = { Rex_eq-ties };

    fn cmp(&self, other: &Rex) -> Ordering {
        match (self, other) {
            (Rex::Root(i), Rex::Root(j)) => i.cmp(j),
            (Rex::Inv(e), Rex::Inv(d)) => e.as_rex().cmp(d.as_rex()),
            (Rex::Union(a, b), Rex::Union(c, d)) => match a.as_rex().cmp(c.as_rex()) {
                Ordering::Equal => b.as_rex().cmp(d.as_rex()),
                unequal => unequal,
            },
            (Rex::Comp(a, b), Rex::Comp(c, d)) => match a.as_rex().cmp(c.as_rex()) {
                Ordering::Equal => b.as_rex().cmp(d.as_rex()),
                unequal => unequal,
            },
            (Rex::Clos(e), Rex::Clos(d)) => e.as_rex().cmp(d.as_rex()),
            _ => self.place().cmp(&other.place()),
        }
    }
}

impl Ord for RexArm {
    ghost use Rattle.std.specs.Prelude.{refl};
    ghost use Rattle.std.specs.Ordering.{on};
    ghost use Rattle.fort_relations.specs.ExpressionCode.{spelled};
    ghost use Rattle.fort_relations.specs.RexKeys.{numbers_order};
    ghost use Rattle.fort_relations.specs.RexOrderLaws.{arm_order-total, arm_eq-ties};

    ghost cmp = { on spelled numbers_order };

    ghost total = { arm_order-total };

    ghost matches_partial_cmp = { λ e d. refl };

    ghost matches_eq = { arm_eq-ties };

    fn cmp(&self, other: &RexArm) -> Ordering {
        self.as_rex().cmp(other.as_rex())
    }
}

impl Hash for Rex {
    ghost use Rattle.fort_relations.specs.RexView.{as_expression};
    ghost use Rattle.fort_relations.specs.RexHash.{expression_hash};
    ghost use Rattle.fort_relations.specs.RexHashLaws.{Rex_hash-respects_eq};

    ghost hash_input = { λ r. expression_hash (as_expression r) };

    ghost respects_eq = { Rex_hash-respects_eq };

    fn hash<H: Hasher>(&self, state: &mut H) {
        state.write_u8(self.place());
        match self {
            Rex::Root(index) => index.hash(state),
            Rex::Inv(e) | Rex::Clos(e) => e.as_rex().hash(state),
            Rex::Union(a, b) | Rex::Comp(a, b) => {
                a.as_rex().hash(state);
                b.as_rex().hash(state);
            }
        }
    }
}

impl Hash for RexArm {
    ghost use Rattle.fort_relations.specs.RexHash.{expression_hash};
    ghost use Rattle.fort_relations.specs.RexHashLaws.{arm_hash-respects_eq};

    ghost hash_input = { expression_hash };

    ghost respects_eq = { arm_hash-respects_eq };

    fn hash<H: Hasher>(&self, state: &mut H) {
        self.as_rex().hash(state);
    }
}
