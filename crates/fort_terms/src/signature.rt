//! Signatures: the function symbols of a system.
ghost use Rattle.std.specs.Prelude.{◌≡◌, ◌<◌, ◌≤◌, ◌↔◌, [], ◌∷◌, ◌++◌, length, IsTrue, Some, IfOk, OnOk, OnErr, IfSome, IfNone, IsErrOf, Contains};
ghost use Rattle.fort_theory.specs.Signatures.{most_arguments, most_functions, IsName, IsSignature, HasConstant, arity_of, name_of, names_of, symbol};

use crate::sym::Sym;
use indexmap::IndexMap;
use std::alloc::{AllocError, AllocFailed, Global};
use std::marker::Model;

/// Function symbols with their names and arities, numbered from 0 in the order in which they came.
#[derive(Drop)]
pub struct Signature {
    symbols: IndexMap<Vec<u8>, u8>,
}

/// Why a symbol wasn't added.
#[derive(Clone, Copy, Debug, PartialEq, Eq)]
pub enum AddFault {
    /// Want of memory.
    Memory,
    /// There is a symbol of this name.
    Duplicate,
}

impl<T: Drop> From<AllocFailed<T>> for AddFault {
    ghost use Rattle.std.specs.Prelude.{◌≡◌};
    ghost use Rattle.fort_terms.specs.declared.signature.AddFault.TheVariants.{Memory};

    ghost from_gives = { λ _ r. r ≡ Memory };

    fn from(_e: AllocFailed<T>) -> AddFault {
        AddFault::Memory
    }
}

impl From<AllocError> for AddFault {
    ghost use Rattle.std.specs.Prelude.{◌≡◌};
    ghost use Rattle.fort_terms.specs.declared.signature.AddFault.TheVariants.{Memory};

    ghost from_gives = { λ _ r. r ≡ Memory };

    fn from(_e: AllocError) -> AddFault {
        AddFault::Memory
    }
}

impl Model for Signature {
    ghost use Rattle.fort_theory.specs.Signatures as theory;
    ghost use Rattle.fort_theory.specs.SymbolCode.{signature_code};

    ghost Value = { theory.Signature };

    ghost coded = { signature_code };

    ghost use Rattle.fort_terms.specs.SignatureView.{as_signature};

    ghost view = { λ a. as_signature a.symbols.entries };

    ghost invariant = { λ a. theory.IsSignature (as_signature a.symbols.entries) };
}

impl Signature {
    pub fn empty(alloc: Global) -> Signature
        ensures { result ≡ [] }
    {
        Signature {
            symbols: IndexMap::new(alloc),
        }
    }

    /// Adds a symbol, whose number is the count of those before it.
    pub fn add(&mut self, name: &[u8], arity: u8) -> Result<Sym, AddFault>
        requires few { length self.old < most_functions }
        requires named { IsName name.now }
        requires small { arity ≤ most_arguments }
        ensures ok { OnOk result (self.new ≡ self.old ++ symbol name.now arity ∷ []) }
        ensures number { IfOk result (λ f. f.0 ≡ length self.old) }
        ensures duplicate { IsErrOf result AddFault.Duplicate ↔
            Contains (names_of self.old) name.now }
        ensures err { OnErr result (self.new ≡ self.old) }
    {
        if self.find(name).is_some() {
            return Err(AddFault::Duplicate);
        }
        let sym = Sym(self.symbols.len() as u16);
        let name = Vec::from_slice(*self.symbols.allocator(), name)?;
        self.symbols.insert(name, arity)?;
        Ok(sym)
    }

    pub fn copy(&self, alloc: Global) -> Result<Signature, AllocError>
        ensures { IfOk result (λ s. s ≡ self.now) }
    {
        let mut symbols = IndexMap::new(alloc);
        for (name, arity) in &self.symbols {
            symbols.insert(Vec::from_slice(alloc, name.as_slice())?, *arity)?;
        }
        Ok(Signature { symbols })
    }

    pub fn arity(&self, sym: Sym) -> u8
        requires { sym.0 < length self.now }
        ensures { arity_of self.now sym.0 ≡ Some result }
    {
        self.symbols[sym.0 as usize]
    }

    pub fn name(&self, sym: Sym) -> &[u8]
        requires { sym.0 < length self.now }
        ensures { name_of self.now sym.0 ≡ Some result.now }
    {
        match self.symbols.get_index(sym.0 as usize) {
            Some((name, _)) => name.as_slice(),
            None => unreachable!(),
        }
    }

    pub fn find(&self, name: &[u8]) -> Option<Sym>
        ensures found { IfSome result (λ f. name_of self.now f.0 ≡ Some name.now) }
        ensures none { IfNone result (Contains (names_of self.now) name.now → ⊥) }
    {
        match self.symbols.get_index_of(name) {
            Some(number) => Some(Sym(number as u16)),
            None => None,
        }
    }

    pub fn len(&self) -> usize
        ensures count { result ≡ length self.now }
        ensures lawful { IsSignature self.now }
    {
        self.symbols.len()
    }

    pub fn has_constant(&self) -> bool
        ensures { IsTrue result ↔ HasConstant self.now }
    {
        self.symbols.values().any(|arity| *arity == 0)
    }
}
