//! The ways to cut a text, each held against the text read whole.
ghost use Rattle.std.specs.Prelude.{◌<◌, ◌^◌, length};

use crate::outline::{Outline, outline_of};
use fort_sexpr::{Forms, Reader, SFault, read, read_pieces};
use std::alloc::{AllocError, Global};

/// How many ways were tried, and how many answered otherwise.
#[derive(Clone, Copy)]
pub struct Count {
    pub cuts: u64,
    pub differ: u64,
}

impl Count {
    /// One more way, with its outline and that of the text read whole.
    fn add(&mut self, cut: &Outline, whole: &Outline) {
        self.cuts = self.cuts.saturating_add(1);
        if cut != whole {
            self.differ = self.differ.saturating_add(1);
        }
    }
}

/// Tries all cuts of a text, and answers the fault that it has when it is read whole. A text of 4 GiB or more isn't read.
pub fn try_cuts(
    alloc: Global,
    text: &[u8],
    count: &mut Count,
) -> Result<Option<SFault>, AllocError> {
    if text.len() > u32::MAX as usize {
        return Ok(None);
    }
    let whole = outline_of(alloc, read(alloc, Vec::from_slice(alloc, text)?))?;
    for at in 0..=text.len() {
        let (front, back) = text.split_at(at);
        let two = outline_of(alloc, read_pieces(alloc, &[front, back]))?;
        count.add(&two, &whole);
        let three = outline_of(alloc, read_pieces(alloc, &[front, b"", back]))?;
        count.add(&three, &whole);
    }
    count.add(&outline_of(alloc, byte_by_byte(alloc, text))?, &whole);
    Ok(whole.err())
}

/// The forms of a text that is fed byte by byte, or its fault, which has to stay while more comes.
fn byte_by_byte(alloc: Global, text: &[u8]) -> Result<Forms, SFault>
    requires { length text.now < 2 ^ 32 }
{
    let mut reader = Reader::new(alloc);
    for i in 0..text.len() {
        if let Err(SFault::Memory) = reader.feed(&text[i..i + 1]) {
            return Err(SFault::Memory);
        }
    }
    reader.finish()
}
