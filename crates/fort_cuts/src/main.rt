//! Reads the texts of its standard input whole and in pieces, and says how many ways to cut them answer otherwise.
//!
//! The texts are parted by the byte 0x1e, the record separator of ASCII. Each is cut at each place into two pieces, and into
//! three with one of no bytes between them, and is read byte by byte. A line tells the fault of each text that has one, and
//! the last line how many ways there were.
#![tactic(auto)]

use cuts::{Count, try_cuts};
use std::io;
use std::io::Read;
use std::process::ExitCode;

mod cuts;
mod outline;

/// What stands between two texts.
const SEPARATOR: u8 = 0x1e;

fn main(rt: HostRuntime) -> io::Result<ExitCode> {
    let mut input = Vec::new(rt.alloc());
    rt.stdin().read_to_end(&mut input)?;
    let mut count = Count { cuts: 0, differ: 0 };
    let mut texts = 0u32;
    for text in input.split(|byte| *byte == SEPARATOR) {
        texts = texts.saturating_add(1);
        if let Some(fault) = try_cuts(rt.alloc(), text, &mut count)? {
            println!(rt; "text {texts}: {fault:?}")?;
        }
    }
    let Count { cuts, differ } = count;
    println!(rt; "{texts} texts, {cuts} cuts, {differ} differ")?;
    Ok(ExitCode::from(if differ == 0 { 0 } else { 1 }))
}
