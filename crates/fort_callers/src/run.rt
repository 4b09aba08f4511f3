//! A formula decided over a problem in memory.
ghost use Rattle.std.specs.Prelude.{◌≡◌, ◌≤◌, map, string_bytes, IfOk};
ghost use Rattle.fort_answers.specs.Answer.{Answer};
ghost use Rattle.fort_answers.specs.Lines.{last_answer};
ghost use Rattle.fort_callers.specs.DecideWords.{decide_words};

use fort_io::{ClearSource, MemSink};
use fort_run::run;
use std::alloc::{AllocError, Global};

/// How a run ended, and what it wrote.
#[derive(Drop)]
pub struct Printed {
    pub status: u8,
    pub text: Vec<u8>,
}

/// The words of the command, as a list.
fn words(alloc: Global, formula: &str) -> Result<Vec<String>, AllocError>
    ensures { IfOk result (λ ws. map string_bytes ws.items ≡ decide_words formula.now) }
{
    let mut words = Vec::new(alloc);
    words.push(String::from_str(alloc, "fort")?)?;
    words.push(String::from_str(alloc, "decide")?)?;
    words.push(String::from_str(alloc, formula)?)?;
    Ok(words)
}

/// What `fort decide FORMULA` answers to a problem. A status above 4 is no answer: 7 comes where
/// the text has more than 1,000 bytes.
pub fn decide(alloc: Global, formula: &str, problem: &[u8]) -> Result<Printed, AllocError>
    ensures { IfOk result (λ p. p.status ≤ last_answer
        → Answer (decide_words formula.now) problem.now p.status p.text.items) }
{
    let words = words(alloc, formula)?;
    let mut source = ClearSource::new(alloc, problem)?;
    let mut sink = MemSink::new(alloc, 1_000, 1_000, &[])?;
    let status = run(alloc, &words, &mut source, &mut sink).status;
    let text = Vec::from_slice(alloc, sink.taken())?;
    Ok(Printed { status, text })
}
