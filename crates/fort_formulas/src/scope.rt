//! Scopes, which number names.

ghost use Rattle.std.specs.Prelude.{◌≡◌, ℕ, ◌^◌, ◌<◌, ◌≤◌, ◌-◌, length, reverse};
ghost use Rattle.fort_logic.specs.Translation.{number_in};
ghost use Rattle.fort_formulas.specs.ScopeView.{as_scope};

use crate::surface::Name;

/// The names that may be used. Their numbers count from the outermost one.
#[derive(Drop)]
pub enum Scope<'a> {
    /// The free names, the outermost first.
    Free(&'a [Name]),
    /// A bound name, and the names outside it.
    Bound(&'a Name, &'a Scope<'a>),
}

impl Scope<'_> {
    /// How many names there are.
    pub fn depth(&self) -> u32
        requires { length (as_scope self.now) < 2 ^ 32 }
        ensures { result ≡ length (as_scope self.now) }
    {
        match self {
            Scope::Free(names) => names.len() as u32,
            Scope::Bound(_, outer) => outer.depth() + 1,
        }
    }

    /// The number of a name, by its innermost place.
    pub fn number(&self, name: &Name) -> u32
        requires { length (as_scope self.now) ≤ 2 ^ 32 }
        ensures { result ≡ number_in (as_scope self.now) name.now }
    {
        match self {
            Scope::Free(names) => number_among(names, name),
            Scope::Bound(bound, outer) => {
                if name.as_bytes() == bound.as_bytes() {
                    outer.depth()
                } else {
                    outer.number(name)
                }
            }
        }
    }
}

/// The last place of a name, or 0.
fn number_among(names: &[Name], name: &Name) -> u32
    requires { length names.now ≤ 2 ^ 32 }
    ensures { result ≡ number_in (reverse names.now) name.now }
{
    let mut number = 0;
    for (i, other) in names.iter().enumerate() {
        if name.as_bytes() == other.as_bytes() {
            number = i;
        }
    }
    number as u32
}
