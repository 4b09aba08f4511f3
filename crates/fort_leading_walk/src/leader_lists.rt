//! The states that lead at the places under a tuple symbol.
ghost use Rattle.std.specs.Prelude.{◌≡◌, ℕ, ◌<◌, ◌≤◌, List, [], length, get_or};

/// For each place under a tuple symbol the states that lead there, ascending.
pub trait LeaderLists {
    ghost lists: { Self → List (List ℕ) };

    fn places(&self) -> usize
        ensures count { result ≡ length (lists self.now) }
        ensures few { result ≤ 8 };

    fn leaders(&self, place: usize) -> &[u32]
        requires { place < length (lists self.now) }
        ensures { result.now ≡ get_or (lists self.now) place [] };
}
