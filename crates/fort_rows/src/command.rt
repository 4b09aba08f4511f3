//! Commands: their words, and what they answer on a problem.
use crate::escape::push_text;
use fort_io::{ClearSink, ClearSource};
use fort_run::run;
use std::alloc::{AllocError, Global};

/// What a command answered.
#[derive(Drop)]
pub struct Answer {
    pub status: u8,
    pub text: Vec<u8>,
    /// The text is all that was printed.
    pub is_whole: bool,
}

/// A word that was written in quotes; there is none where a backslash begins no escape, or the bytes aren't UTF-8.
fn quoted(alloc: Global, text: &str) -> Result<Option<String>, AllocError> {
    let mut bytes = Vec::new(alloc);
    if !push_text(&mut bytes, text)? {
        return Ok(None);
    }
    match std::str::from_utf8(bytes.as_slice()) {
        Ok(word) => Ok(Some(String::from_str(alloc, word)?)),
        Err(_) => Ok(None),
    }
}

/// The words of a command line, the program's own name first; there are none where a quoted word isn't one, or a quote
/// is open at the end.
fn words_of(alloc: Global, line: &str) -> Result<Option<Vec<String>>, AllocError> {
    let mut words = Vec::new(alloc);
    words.push(String::from_str(alloc, "fort")?)?;
    let mut is_open = true;
    for part in line.split('"') {
        is_open = !is_open;
        if !is_open {
            push_plain(alloc, &mut words, part)?;
        } else if let Some(word) = quoted(alloc, part)? {
            words.push(word)?;
        } else {
            return Ok(None);
        }
    }
    Ok(if is_open { None } else { Some(words) })
}

/// Appends the words between blanks.
fn push_plain(alloc: Global, words: &mut Vec<String>, part: &str) -> Result<(), AllocError> {
    for word in part.split_whitespace() {
        words.push(String::from_str(alloc, word)?)?;
    }
    Ok(())
}

/// What a command line answers on a problem, in at most `room` bytes; nothing, where it isn't one.
pub fn run_command(
    alloc: Global,
    line: &str,
    problem: &[u8],
    room: usize,
) -> Result<Option<Answer>, AllocError> {
    let Some(words) = words_of(alloc, line)? else {
        return Ok(None);
    };
    let mut source = ClearSource::new(alloc, problem)?;
    let mut sink = ClearSink::new(alloc, room)?;
    let outcome = run(alloc, words.as_slice(), &mut source, &mut sink);
    let taken = sink.taken();
    Ok(Some(Answer {
        status: outcome.status,
        text: Vec::from_slice(alloc, taken.unwrap_or(&[]))?,
        is_whole: taken.is_some(),
    }))
}

/// The formula that a command without a flag asks about, where its status says that nothing withholds the answer.
pub fn answered_formula<'a>(line: &'a str, command: &str, status: &str) -> Option<&'a str> {
    let formula = line.strip_prefix(command)?;
    let is_answer = status == "0" || status == "1";
    if is_answer && !formula.contains("--") {
        Some(formula)
    } else {
        None
    }
}

/// A command line of these words in front and a formula.
pub fn command_on(alloc: Global, front: &str, formula: &str) -> Result<String, AllocError> {
    let mut command = String::from_str(alloc, front)?;
    command.push(' ')?;
    command.push_str(formula)?;
    Ok(command)
}

/// The same question with reduced tables, where the command is one of `decide` or `witness` without `--reduce` and `--certificate`, and its
/// status says that no part is over the cap: then the answer may not differ.
pub fn reduced_command(
    alloc: Global,
    line: &str,
    status: &str,
) -> Result<Option<String>, AllocError> {
    let Some((command, rest)) = line.split_once(' ') else {
        return Ok(None);
    };
    let asks = command == "decide" || command == "witness";
    let has_flag = rest.contains("--reduce") || rest.contains("--certificate");
    let is_answer = status == "0" || status == "1" || status == "3";
    if !asks || has_flag || !is_answer {
        return Ok(None);
    }
    let mut reduced = String::from_str(alloc, command)?;
    reduced.push_str(" --reduce ")?;
    reduced.push_str(rest)?;
    Ok(Some(reduced))
}
