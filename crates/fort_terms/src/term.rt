//! Ground terms, with an equality, an order and a hash.
ghost use Rattle.std.specs.Prelude.{◌≡◌, ◌<◌, ◌^◌, ◌↔◌, IfOk, IsTrue};
ghost use Rattle.fort_theory.specs.Trees.{height};

use crate::sym::Sym;
use std::alloc::{AllocError, Global};
use std::cmp::Ordering;
use std::hash::{Hash, Hasher};
use std::marker::Model;

/// A ground term.
#[derive(Drop)]
pub struct Term {
    /// The symbol at the root.
    pub sym: Sym,
    /// The children from left to right.
    pub kids: Vec<Term>,
}

impl Model for Term {
    ghost use Rattle.fort_theory.specs.Trees.{Tree, Node, trees};
    ghost use Rattle.fort_theory.specs.TreeCode.{tree_code};

    ghost Value = { Tree };

    ghost coded = { tree_code };

    ghost use Rattle.fort_terms.specs.TermTree.{node_count, most_below};

    ghost view = { λ a. Node a.sym.0 (trees a.kids.items) };

    ghost size = { node_count };

    ghost use Rattle.std.proofs.Common.{arith};

    ghost size_decreases = { λ a h. omega (arith, most_below a.kids.items) };
}

impl Term {
    /// 0 for a constant, else one more than the greatest height of a child. It takes no memory.
    pub fn height(&self) -> u32
        requires { height self.now < 2 ^ 32 }
        ensures { result ≡ height self.now }
    {
        let mut most = 0;
        for kid in &self.kids {
            most = most.max(kid.height() + 1);
        }
        most
    }

    /// An equal term.
    pub fn copy(&self, alloc: Global) -> Result<Term, AllocError>
        ensures { IfOk result (λ term. term ≡ self.now) }
    {
        let mut kids = Vec::new(alloc);
        for kid in &self.kids {
            kids.push(kid.copy(alloc)?)?;
        }
        Ok(Term {
            sym: self.sym,
            kids,
        })
    }
}

impl PartialEq for Term {
    ghost use Rattle.fort_terms.specs.TermKeys.{tree_eq};
    ghost use Rattle.fort_terms.specs.TermKeyLaws.{tree_eq-partial_equiv};

    ghost eq = { tree_eq };

    ghost laws = { tree_eq-partial_equiv };

    fn eq(&self, other: &Term) -> bool {
        self.sym == other.sym && self.kids == other.kids
    }
}

impl Eq for Term {
    ghost use Rattle.fort_terms.specs.TermKeyLaws.{tree_eq-equiv};

    ghost laws = { tree_eq-equiv };
}

impl PartialOrd for Term {
    ghost use Rattle.std.specs.Ordering.{as_partial_cmp};
    ghost use Rattle.fort_terms.specs.TermKeys.{tree_order};
    ghost use Rattle.fort_terms.specs.TermKeyLaws.{tree_order-partial};

    ghost partial_cmp = { as_partial_cmp tree_order };

    ghost laws = { tree_order-partial };

    #[cycle(term_order)]
    fn partial_cmp(&self, other: &Term) -> Option<Ordering> {
        Some(self.cmp(other))
    }
}

impl Ord for Term {
    ghost use Rattle.std.specs.Prelude.{refl};
    ghost use Rattle.fort_terms.specs.TermKeys.{tree_order};
    ghost use Rattle.fort_terms.specs.TermKeyLaws.{tree_order-total, tree_eq-ties};

    ghost cmp = { tree_order };

    ghost total = { tree_order-total };

    ghost matches_partial_cmp = { λ s t. refl };

    ghost matches_eq = { tree_eq-ties };

    #[cycle(term_order)]
    fn cmp(&self, other: &Term) -> Ordering {
        match self.sym.cmp(&other.sym) {
            Ordering::Equal => self.kids.cmp(&other.kids),
            unequal => unequal,
        }
    }
}

impl Hash for Term {
    ghost use Rattle.fort_terms.specs.TermKeys.{tree_hash};
    ghost use Rattle.fort_terms.specs.TermKeyLaws.{tree_hash-respects_eq};

    ghost hash_input = { tree_hash };

    ghost respects_eq = { tree_hash-respects_eq };

    fn hash<H: Hasher>(&self, state: &mut H) {
        self.sym.hash(state);
        self.kids.hash(state);
    }
}
