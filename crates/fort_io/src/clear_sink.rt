//! A sink over memory that never fails.
ghost use Rattle.std.specs.Prelude.{◌≡◌, ◌<◌, [], length, IfOk, option_map};
ghost use Rattle.fort_io.specs.Replay.{kept_within};

use crate::sink::Sink;
use crate::source::Failed;
use std::alloc::{AllocError, Global};
use std::marker::Model;

/// A sink over memory that never fails. It takes every piece whole, and keeps and tells what it took while all of it
/// fits in its room; from the first piece on that does not fit it tells nothing.
#[derive(Drop)]
pub struct ClearSink {
    taken: Option<Vec<u8>>,
    room: usize,
}

impl Model for ClearSink {
    ghost use Rattle.std.specs.Prelude.{◌≤◌, option_map, vec_len, vec_capacity};
    ghost use Rattle.std.specs.Option.{ForSome};
    ghost use Rattle.fort_io.specs.Replay.{Clear};

    ghost Value = { Clear };

    ghost view = { λ s. record { taken = option_map (λ v. v.items) s.taken; room = s.room } };

    ghost invariant = { λ s. ForSome s.taken (λ v. (vec_len v ≤ s.room) × (s.room ≤ vec_capacity v)) };
}

impl ClearSink {
    /// An empty sink with room for so many bytes, which is reserved here.
    pub fn new(alloc: Global, room: usize) -> Result<ClearSink, AllocError>
        ensures taken { IfOk result (λ s. s.taken ≡ Some []) }
        ensures room { IfOk result (λ s. s.room ≡ room) }
    {
        Ok(ClearSink {
            taken: Some(Vec::with_capacity(alloc, room)?),
            room,
        })
    }

    /// What it took, as long as all of it fits in its room.
    pub fn taken(&self) -> Option<&[u8]>
        ensures { option_map (λ s. s.now) result ≡ self.now.taken }
    {
        match &self.taken {
            Some(taken) => Some(taken.as_slice()),
            None => None,
        }
    }
}

impl Sink for ClearSink {
    ghost taken = { λ s. s.taken };

    ghost faults = { λ _. 0 };

    fn write(&mut self, piece: &[u8]) -> Result<usize, Failed>
        requires { 0 < length piece.now }
        ensures whole { result ≡ Ok (length piece.now) }
        ensures taken { self.new.taken ≡ kept_within self.old.room self.old.taken piece.now }
        ensures same_room { self.new.room ≡ self.old.room }
    {
        let fits = match &self.taken {
            Some(taken) => piece.len() <= self.room - taken.len(),
            None => false,
        };
        if fits {
            if let Some(taken) = &mut self.taken {
                taken.extend_from_slice(piece).unwrap();
            }
        } else {
            self.taken = None;
        }
        Ok(piece.len())
    }
}
