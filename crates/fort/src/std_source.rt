//! Standard input as a source.
ghost use Rattle.std.specs.Prelude.{◌≡◌, None};

use fort_io::{Failed, Source};
use std::io::Read;
use std::rt::Stdin;

/// Standard input. It tells no bytes, and counts each error.
#[derive(Drop)]
pub struct StdSource {
    input: Stdin,
    faults: u64,
}

impl StdSource {
    /// No fault so far.
    pub fn new(input: Stdin) -> StdSource
        ensures { result.faults ≡ 0 }
    {
        StdSource { input, faults: 0 }
    }
}

impl Source for StdSource {
    ghost rest = { λ _. None };

    ghost faults = { λ s. s.faults };

    fn read(&mut self, buf: &mut [u8]) -> Result<usize, Failed> {
        let faults = self.faults;
        match self.input.read(buf) {
            Ok(n) => Ok(n),
            Err(_) => {
                self.faults = faults.saturating_add(1);
                Err(Failed)
            }
        }
    }
}
