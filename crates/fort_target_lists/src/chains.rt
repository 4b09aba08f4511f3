//! The states of a table by their presences.
ghost use Rattle.std.specs.Prelude.{◌≡◌, ◌<◌, length, slice_index};

/// The states of each presence in order, each with the one that comes next; the number of states stands for none.
#[derive(Drop)]
pub struct Chains {
    /// The first state of each presence.
    pub firsts: Vec<u32>,
    /// The next state of a state's presence.
    pub nexts: Vec<u32>,
}

impl Chains {
    /// The first state of a presence.
    pub fn first(&self, presence: u16) -> u32
        requires { presence < length self.now.firsts.items }
        ensures { result ≡ slice_index self.now.firsts.items presence }
    {
        self.firsts[presence as usize]
    }

    /// The next state of a state's presence.
    pub fn next(&self, state: u32) -> u32
        requires { state < length self.now.nexts.items }
        ensures { result ≡ slice_index self.now.nexts.items state }
    {
        self.nexts[state as usize]
    }
}
