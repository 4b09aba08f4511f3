//! Which symbols stand in the projected column, and over which states.
ghost use Rattle.std.specs.Prelude.{◌≡◌, ◌==◌, ℕ, Bool, IfSome, IfNone};
ghost use Rattle.fort_projections.specs.Scopes.{takes as takes_lem, may_in};

/// A child of the entry, in this state.
#[derive(Clone, Copy)]
pub(crate) struct Chosen {
    pub(crate) place: usize,
    pub(crate) state: u32,
}

/// The symbols in the projected column above an entry.
#[derive(Clone, Copy)]
pub(crate) enum Scope {
    All,
    /// Those without a child at this place.
    Without(usize),
    /// Those with a child at this place, which is in one state alone.
    With(Chosen),
}

impl Scope {
    /// Whether a symbol of this arity is among them.
    pub(crate) fn takes(&self, arity: usize) -> bool
        ensures { result ≡ takes_lem self.now arity }
    {
        match self {
            Scope::All => true,
            Scope::Without(place) => arity <= *place,
            Scope::With(chosen) => chosen.place < arity,
        }
    }

    /// The state that child `j` is in, where there is one alone.
    pub(crate) fn state_at(&self, j: usize) -> Option<u32>
        ensures some { IfSome result (λ s. (may : ℕ → ℕ → Bool) (k : ℕ)
            → may_in self.now may j k ≡ (s == k)) }
        ensures none { IfNone result ((may : ℕ → ℕ → Bool) (k : ℕ)
            → may_in self.now may j k ≡ may j k) }
    {
        match self {
            Scope::With(chosen) if chosen.place == j => Some(chosen.state),
            _ => None,
        }
    }
}
