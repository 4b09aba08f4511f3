//! Standard output as a sink.
ghost use Rattle.std.specs.Prelude.{◌≡◌, None};

use fort_io::{Failed, Sink};
use std::io::Write;
use std::rt::Stdout;

/// Standard output. It tells no bytes, and counts each error, a write of no bytes among them.
#[derive(Drop)]
pub struct StdSink {
    output: Stdout,
    faults: u64,
}

impl StdSink {
    /// No fault so far.
    pub fn new(output: Stdout) -> StdSink
        ensures { result.faults ≡ 0 }
    {
        StdSink { output, faults: 0 }
    }
}

impl Sink for StdSink {
    ghost taken = { λ _. None };

    ghost faults = { λ s. s.faults };

    fn write(&mut self, piece: &[u8]) -> Result<usize, Failed> {
        let faults = self.faults;
        match self.output.write(piece) {
            Ok(n) if n > 0 => Ok(n),
            _ => {
                self.faults = faults.saturating_add(1);
                Err(Failed)
            }
        }
    }
}
