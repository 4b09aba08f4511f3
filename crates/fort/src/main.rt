//! Decides first-order properties of rewrite systems over ground terms.
#![tactic(auto)]

use arguments::answer;
use std::env;
use std::process::ExitCode;
use std_sink::StdSink;
use std_source::StdSource;

mod arguments;
mod std_sink;
mod std_source;

/// Runs the arguments on standard input and output. No clause of std says what the environment gives.
fn main(rt: HostRuntime) -> ExitCode {
    let mut input = StdSource::new(rt.stdin());
    let mut output = StdSink::new(rt.stdout());
    answer(rt.alloc(), env::args(&rt), &mut input, &mut output)
}
