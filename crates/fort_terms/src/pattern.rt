//! Patterns: sides of rules without the names of their variables.
ghost use Rattle.std.specs.Prelude.{◌≡◌, ◌↔◌, IfOk, IsTrue, OnOk, map};
ghost use Rattle.fort_theory.specs.Patterns.{IsInstance};
ghost use Rattle.fort_theory.specs.PatternOrder.{subpatterns};
ghost use Rattle.fort_theory.specs.RightGround.{IsGroundPattern};
ghost use Rattle.fort_terms.specs.PatternView.{as_pattern, as_patterns};
ghost use Rattle.fort_terms.specs.Subpatterns.{HasMore};

use crate::sym::Sym;
use crate::term::Term;
use std::alloc::{AllocError, Global};
use std::cmp::Ordering;
use std::collections::BTreeSet;
use std::hash::{Hash, Hasher};
use std::marker::Model;

/// A side of a rule without the names of its variables.
#[derive(Drop)]
#[cycle(pattern)]
pub enum Pattern {
    /// In the place of a variable: any term.
    Any,
    /// A symbol and its arguments.
    App(Sym, Patterns),
}

/// The arguments of a pattern.
#[derive(Drop)]
#[cycle(pattern)]
pub struct Patterns {
    items: Vec<Pattern>,
}

impl Model for Patterns {
    ghost use Rattle.fort_theory.specs.Patterns as theory;
    ghost use Rattle.fort_theory.specs.PatternCode.{patterns_code};

    ghost Value = { theory.Patterns };

    ghost coded = { patterns_code };

    ghost use Rattle.fort_terms.specs.PatternView.{as_patterns, node_counts};

    ghost view = { λ a. as_patterns a.items.items };

    ghost size = { node_counts };

    ghost use Rattle.std.proofs.Common.{arith};
    ghost use Rattle.fort_terms.specs.PatternFalls.{most_below};

    ghost size_decreases = { λ a h. omega (arith, most_below a.items.items) };
}

impl Patterns {
    /// The arguments in this order. It takes no memory.
    pub fn new(items: Vec<Pattern>) -> Patterns
        ensures { result ≡ as_patterns items.items }
    {
        Patterns { items }
    }

    /// The arguments in order.
    pub fn as_slice(&self) -> &[Pattern]
        ensures { as_patterns result.now ≡ self.now }
    {
        self.items.as_slice()
    }
}

impl Pattern {
    /// Whether a term is an instance. It takes no memory.
    pub fn is_instance(&self, term: &Term) -> bool
        ensures { IsTrue result ↔ IsInstance (as_pattern self.now) term.now }
    {
        match self {
            Pattern::Any => true,
            Pattern::App(sym, args) => {
                if *sym != term.sym || args.items.len() != term.kids.len() {
                    return false;
                }
                for (arg, kid) in args.items.iter().zip(&term.kids) {
                    if !arg.is_instance(kid) {
                        return false;
                    }
                }
                true
            }
        }
    }

    /// Whether it has no variable's place. It takes no memory.
    pub fn is_ground(&self) -> bool
        ensures { IsTrue result ↔ IsGroundPattern (as_pattern self.now) }
    {
        match self {
            Pattern::Any => false,
            Pattern::App(_, args) => {
                for arg in &args.items {
                    if !arg.is_ground() {
                        return false;
                    }
                }
                true
            }
        }
    }

    /// An equal pattern.
    pub fn copy(&self, alloc: Global) -> Result<Pattern, AllocError>
        ensures { IfOk result (λ p. p ≡ self.now) }
    {
        match self {
            Pattern::Any => Ok(Pattern::Any),
            Pattern::App(sym, args) => {
                let mut copies = Vec::new(alloc);
                for arg in &args.items {
                    copies.push(arg.copy(alloc)?)?;
                }
                Ok(Pattern::App(*sym, Patterns::new(copies)))
            }
        }
    }

    /// Adds the pattern itself and the patterns within its arguments.
    pub(crate) fn insert_subpatterns(
        &self,
        alloc: Global,
        found: &mut BTreeSet<Pattern>,
    ) -> Result<(), AllocError>
        ensures { OnOk result (HasMore (subpatterns (as_pattern self.now))
            (map as_pattern found.old.keys) (map as_pattern found.new.keys)) }
    {
        found.insert(self.copy(alloc)?)?;
        match self {
            Pattern::Any => {}
            Pattern::App(_, args) => {
                for arg in &args.items {
                    arg.insert_subpatterns(alloc, found)?;
                }
            }
        }
        Ok(())
    }
}

impl PartialEq for Pattern {
    ghost use Rattle.std.specs.Ordering.{on};
    ghost use Rattle.fort_terms.specs.PatternView.{as_pattern};
    ghost use Rattle.fort_terms.specs.PatternKeys.{pattern_eq};
    ghost use Rattle.fort_terms.specs.PatternKeyLaws.{Pattern_eq-partial_equiv};

    ghost eq = { on as_pattern pattern_eq };

    ghost laws = { Pattern_eq-partial_equiv };

    #[cycle(pattern_eq)]
    fn eq(&self, other: &Pattern) -> bool {
        match (self, other) {
            (Pattern::Any, Pattern::Any) => true,
            (Pattern::App(f, args), Pattern::App(g, others)) => f == g && args == others,
            _ => false,
        }
    }
}

impl PartialEq for Patterns {
    ghost use Rattle.fort_terms.specs.PatternKeys.{patterns_eq};
    ghost use Rattle.fort_terms.specs.PatternKeyLaws.{patterns_eq-partial_equiv};

    ghost eq = { patterns_eq };

    ghost laws = { patterns_eq-partial_equiv };

    #[cycle(pattern_eq)]
    fn eq(&self, other: &Patterns) -> bool {
        self.items == other.items
    }
}

impl Eq for Pattern {
    ghost use Rattle.fort_terms.specs.PatternKeyLaws.{Pattern_eq-equiv};

    ghost laws = { Pattern_eq-equiv };
}

impl Eq for Patterns {
    ghost use Rattle.fort_terms.specs.PatternKeyLaws.{patterns_eq-equiv};

    ghost laws = { patterns_eq-equiv };
}

impl PartialOrd for Pattern {
    ghost use Rattle.std.specs.Ordering.{as_partial_cmp, on};
    ghost use Rattle.fort_terms.specs.PatternView.{as_pattern};
    ghost use Rattle.fort_terms.specs.PatternKeys.{pattern_order};
    ghost use Rattle.fort_terms.specs.PatternKeyLaws.{Pattern_order-partial};

    ghost partial_cmp = { as_partial_cmp (on as_pattern pattern_order) };

    ghost laws = { Pattern_order-partial };

    #[cycle(pattern_order)]
    fn partial_cmp(&self, other: &Pattern) -> Option<Ordering> {
        Some(self.cmp(other))
    }
}

impl PartialOrd for Patterns {
    ghost use Rattle.std.specs.Ordering.{as_partial_cmp};
    ghost use Rattle.fort_terms.specs.PatternKeys.{patterns_order};
    ghost use Rattle.fort_terms.specs.PatternKeyLaws.{patterns_order-partial};

    ghost partial_cmp = { as_partial_cmp patterns_order };

    ghost laws = { patterns_order-partial };

    fn partial_cmp(&self, other: &Patterns) -> Option<Ordering> {
        Some(self.cmp(other))
    }
}

impl Ord for Pattern {
    ghost use Rattle.std.specs.Prelude.{refl};
    ghost use Rattle.std.specs.Ordering.{on};
    ghost use Rattle.fort_terms.specs.PatternView.{as_pattern};
    ghost use Rattle.fort_terms.specs.PatternKeys.{pattern_order};
    ghost use Rattle.fort_terms.specs.PatternKeyLaws.{Pattern_order-total, Pattern_eq-ties};

    ghost cmp = { on as_pattern pattern_order };

    ghost total = { Pattern_order-total };

    ghost matches_partial_cmp = { λ p q. refl };

    ghost matches_eq = { Pattern_eq-ties };

    #[cycle(pattern_order)]
    fn cmp(&self, other: &Pattern) -> Ordering {
        match (self, other) {
            (Pattern::Any, Pattern::Any) => Ordering::Equal,
            (Pattern::Any, Pattern::App(_, _)) => Ordering::Less,
            (Pattern::App(_, _), Pattern::Any) => Ordering::Greater,
            (Pattern::App(f, args), Pattern::App(g, others)) => match f.cmp(g) {
                Ordering::Equal => args.items.cmp(&others.items),
                unequal => unequal,
            },
        }
    }
}

impl Ord for Patterns {
    ghost use Rattle.std.specs.Prelude.{refl};
    ghost use Rattle.fort_terms.specs.PatternKeys.{patterns_order};
    ghost use Rattle.fort_terms.specs.PatternKeyLaws.{patterns_order-total, patterns_eq-ties};

    ghost cmp = { patterns_order };

    ghost total = { patterns_order-total };

    ghost matches_partial_cmp = { λ ps qs. refl };

    ghost matches_eq = { patterns_eq-ties };

    fn cmp(&self, other: &Patterns) -> Ordering {
        self.items.cmp(&other.items)
    }
}

impl Hash for Pattern {
    ghost use Rattle.fort_terms.specs.PatternView.{as_pattern};
    ghost use Rattle.fort_terms.specs.PatternKeys.{pattern_hash};
    ghost use Rattle.fort_terms.specs.PatternKeyLaws.{Pattern_hash-respects_eq};

    ghost hash_input = { λ p. pattern_hash (as_pattern p) };

    ghost respects_eq = { Pattern_hash-respects_eq };

    #[cycle(pattern_hash)]
    fn hash<H: Hasher>(&self, state: &mut H) {
        match self {
            Pattern::Any => state.write_u8(0),
            Pattern::App(sym, args) => {
                state.write_u8(1);
                sym.hash(state);
                args.hash(state);
            }
        }
    }
}

impl Hash for Patterns {
    ghost use Rattle.fort_terms.specs.PatternKeys.{patterns_hash};
    ghost use Rattle.fort_terms.specs.PatternKeyLaws.{patterns_hash-respects_eq};

    ghost hash_input = { patterns_hash };

    ghost respects_eq = { patterns_hash-respects_eq };

    #[cycle(pattern_hash)]
    fn hash<H: Hasher>(&self, state: &mut H) {
        self.items.hash(state);
    }
}
