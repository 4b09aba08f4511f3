//! Leaders that are chosen for up to 8 places.
ghost use Rattle.std.specs.Prelude.{◌≡◌, ℕ, ◌+◌, ◌<◌, ◌≤◌, List, [], ◌∷◌, length};

use std::marker::Model;

/// The leaders of up to 8 places, each with its index in its list, before which more come.
#[derive(Drop)]
pub struct Picks {
    start: usize,
    indices: [usize; 8],
    leaders: [u32; 8],
}

impl Model for Picks {
    ghost use Rattle.std.specs.Prelude.{◌≡◌, ℕ, ◌≤◌, List, drop, length};
    ghost use Rattle.fort_leading_walk.specs.Picked.{Picked};

    ghost Value = { Picked };

    ghost view = { λ r. record {
      indices = drop r.start r.indices;
      leaders = drop r.start r.leaders;
    } };

    ghost invariant = { λ r. (r.start ≤ 8) × (length r.indices ≡ 8) × (length r.leaders ≡ 8) };
}

impl Picks {
    pub fn empty() -> Picks
        ensures indices { result.indices ≡ [] }
        ensures leaders { result.leaders ≡ [] }
    {
        Picks {
            start: 8,
            indices: [0; 8],
            leaders: [0; 8],
        }
    }

    pub fn with_first(self, index: usize, leader: u32) -> Picks
        requires { length self.indices < 8 }
        ensures indices { result.indices ≡ index ∷ self.indices }
        ensures leaders { result.leaders ≡ leader ∷ self.leaders }
    {
        let start = self.start - 1;
        let mut indices = self.indices;
        indices[start] = index;
        let mut leaders = self.leaders;
        leaders[start] = leader;
        Picks {
            start,
            indices,
            leaders,
        }
    }

    pub fn indices(&self) -> &[usize]
        ensures { result.now ≡ self.now.indices }
    {
        let indices = &self.indices;
        &indices[self.start..]
    }

    pub fn leaders(&self) -> &[u32]
        ensures leaders { result.now ≡ self.now.leaders }
        ensures few { length result.now ≤ 8 }
    {
        let leaders = &self.leaders;
        &leaders[self.start..]
    }
}
