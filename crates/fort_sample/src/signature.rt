//! The signature of a made problem.
ghost use Rattle.std.specs.Prelude.{◌≡◌, ◌<◌, ◌≤◌, [], ◌∷◌, ◌++◌, length, codes, decimal, Contains, IfOk, OnOk};
ghost use Rattle.fort_theory.specs.Signatures.{most_arguments, most_functions, names_of, symbol, IsName};
ghost use Rattle.fort_answers.specs.MadeProblem as made;

use fort_terms::{AddFault, Signature};
use itoa::Buffer;
use std::alloc::{AllocError, Global};

/// The name of the constant with this number.
fn constant_name(alloc: Global, i: u32) -> Result<Vec<u8>, AllocError>
    ensures { IfOk result (λ name. name.items ≡ codes "c" ++ decimal i) }
{
    let mut buffer = Buffer::new();
    let mut name = Vec::from_slice(alloc, b"c")?;
    name.extend_from_slice(buffer.format(i).as_bytes())?;
    Ok(name)
}

/// Adds a symbol of a name that no other has.
fn add_symbol(signature: &mut Signature, name: &[u8], arity: u8) -> Result<(), AllocError>
    requires few { length signature.old < most_functions }
    requires named { IsName name.now }
    requires small { arity ≤ most_arguments }
    requires other { Contains (names_of signature.old) name.now → ⊥ }
    ensures { OnOk result (signature.new ≡ signature.old ++ symbol name.now arity ∷ []) }
{
    match signature.add(name, arity) {
        Ok(_sym) => Ok(()),
        Err(AddFault::Memory) => Err(AllocError),
        Err(AddFault::Duplicate) => unreachable!(),
    }
}

/// So many constants, and `f`.
pub fn made_signature(alloc: Global, n: u32) -> Result<Signature, AllocError>
    requires { n ≤ 64 }
    ensures { IfOk result (λ s. s ≡ made.made_signature n) }
{
    let mut signature = Signature::empty(alloc);
    for i in 0..n {
        let name = constant_name(alloc, i)?;
        add_symbol(&mut signature, &name, 0)?;
    }
    add_symbol(&mut signature, b"f", 1)?;
    Ok(signature)
}
