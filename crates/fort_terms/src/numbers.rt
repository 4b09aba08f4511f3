//! Numbers of 32 bits for the places of lists.
ghost use Rattle.std.specs.Prelude.{◌↔◌, ◌<◌, ◌^◌, IsTrue};

/// Whether so many things have a number of 32 bits each, from 0 on.
pub fn has_numbers(count: usize) -> bool
    ensures { IsTrue result ↔ (count < 2 ^ 32) }
{
    count <= u32::MAX as usize
}
