//! Function symbols, by their numbers.
/// A function symbol, by its number in its signature.
#[derive(Clone, Copy, Debug, PartialEq, Eq, PartialOrd, Ord, Hash)]
pub struct Sym(pub u16);
