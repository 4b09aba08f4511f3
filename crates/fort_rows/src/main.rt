//! Runs the rows of its standard input, one command each, and prints what differs and how many passed.
//!
//! `== NAME` begins a problem, whose text are the lines up to the next row; `== < FILE` takes a file's text. `$ WORDS` is a
//! command on the last problem; words stand between blanks, and one in quotes may hold blanks. The lines behind it are the
//! text that it has to print, up to `= STATUS`. `+ WORDS` puts a line's end and what this command prints behind the problem
//! for the next row, as `check` wants a certificate; its status has to be 0. In problems and quoted words `\xHH`, with
//! digits 0 to 9 and a to f, is the byte of that number, `\*N[TEXT]` is N copies of a text without `]` and escapes, and `\`
//! at the end of a problem's line takes away the line's end. A line that begins with `#` is a comment, wherever it stands.
//! Between rows there are blank lines.
//!
//! A row of `decide` or `witness` with neither `--reduce` nor `--certificate`, of status 0, 1 or 3, is run a second time with
//! `--reduce`, and has to print the same; it then counts twice. The answer of such a row of `decide` with no flag at all on a problem
//! of at most 65,536 bytes is certified, with tables as they are and with reduced ones: what `--certificate` writes stands behind
//! the problem, and `check` has to find that verdict; it then counts twice more. So is the answer of such a row of `witness` to a
//! question with a free variable, by `confirm`, which has to print the same terms.
//!
//! All else fails as a wrong answer does: a row without its status, a problem without a row, a backslash that begins no
//! escape, a `+` with another status, more text than a row may have.
#![tactic(auto)]

use rows::Rows;
use std::io;
use std::process::ExitCode;

mod command;
mod escape;
mod rows;

fn main(rt: HostRuntime) -> io::Result<ExitCode> {
    let mut rows = Rows::new(rt.alloc());
    for line in rt.lines(rt.alloc()) {
        rows.take(&rt, line?.as_str())?;
    }
    rows.finish(&rt)?;
    let passed = rows.passed();
    let failed = rows.failed();
    println!(rt; "{passed} rows passed, {failed} failed")?;
    Ok(ExitCode::from(if failed == 0 { 0 } else { 1 }))
}
