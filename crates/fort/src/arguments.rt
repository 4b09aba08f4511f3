//! From the arguments to the exit status.
ghost use Rattle.std.specs.Prelude.{◌≡◌, ◌⊎◌, [], map, string_bytes, IfOk, IfErr, OnOk, IsErr};
ghost use Rattle.std.specs.Vec.Iter.{into_iter_items};
ghost use Rattle.std.specs.IoError.{error_kind};
ghost use Rattle.std.specs.Process.{exit_status};
ghost use Rattle.fort_answers.specs.Answer.{NeedsNoInput};
ghost use Rattle.fort_answers.specs.Lines.{out_of_memory, read_failed};
ghost use Rattle.fort.specs.Ends.{EndsAsRun, reads, writes};

use fort_io::{Sink, Source};
use fort_run::{Outcome, run};
use std::alloc::{AllocError, Global};
use std::io::ErrorKind;
use std::process::ExitCode;
use std::{env, io};

/// All arguments, in their order. Where one is no text there are none, which is no request.
fn words_of(alloc: Global, args: io::Result<env::Args>) -> Result<Vec<String>, AllocError>
    ensures all { IfOk args (λ given. IfOk result (λ all. all.items ≡ into_iter_items given)) }
    ensures none { IfErr args (λ e. IfOk result (λ all. all.items ≡ [])) }
    ensures memory { IfErr args (λ e. error_kind e ≡ ErrorKind.OutOfMemory → IsErr result) }
{
    match args {
        Ok(args) => args.collect(alloc),
        Err(error) => match error.kind() {
            ErrorKind::OutOfMemory => Err(AllocError),
            _ => Ok(Vec::new(alloc)),
        },
    }
}

/// What the process ends with.
fn code_of(outcome: &Outcome) -> ExitCode
    ensures { exit_status result ≡ outcome.now.status }
{
    ExitCode::from(outcome.status)
}

/// Answers words, and tells the status alone.
fn code_for<S: Source, K: Sink>(
    alloc: Global,
    words: &[String],
    input: &mut S,
    output: &mut K,
) -> ExitCode
    ensures ends { EndsAsRun (map string_bytes words.now)
        (reads (S.rest input.old) (S.rest input.new) (S.faults input.old) (S.faults input.new))
        (writes (K.taken output.old) (K.taken output.new) (K.faults output.old)
        (K.faults output.new)) (exit_status result) }
    ensures unread { NeedsNoInput (map string_bytes words.now) → input.new ≡ input.old }
    ensures silent { (exit_status result ≡ out_of_memory) ⊎ (exit_status result ≡ read_failed) →
        output.new ≡ output.old }
{
    code_of(&run(alloc, words, input, output))
}

/// Answers the arguments of a command line, the program's own name first. All that `run` promises of words holds of the
/// arguments, each and in their order, with the exit status for the status of `run`. Where they find no memory the status
/// says so, and nothing is read or written.
pub fn answer<S: Source, K: Sink>(
    alloc: Global,
    args: io::Result<env::Args>,
    input: &mut S,
    output: &mut K,
) -> ExitCode
    ensures ends { IfOk args (λ all. EndsAsRun (map string_bytes (into_iter_items all))
        (reads (S.rest input.old) (S.rest input.new) (S.faults input.old) (S.faults input.new))
        (writes (K.taken output.old) (K.taken output.new) (K.faults output.old)
        (K.faults output.new)) (exit_status result)) }
    ensures unread { IfOk args (λ all. NeedsNoInput (map string_bytes (into_iter_items all)) →
        input.new ≡ input.old) }
    ensures silent { (exit_status result ≡ out_of_memory) ⊎ (exit_status result ≡ read_failed) →
        output.new ≡ output.old }

    // Arguments that are no texts are no words.
    ensures no_words { IfErr args (λ e. EndsAsRun []
        (reads (S.rest input.old) (S.rest input.new) (S.faults input.old) (S.faults input.new))
        (writes (K.taken output.old) (K.taken output.new) (K.faults output.old)
        (K.faults output.new)) (exit_status result)) }
    ensures no_memory { IfErr args (λ e. error_kind e ≡ ErrorKind.OutOfMemory →
        exit_status result ≡ out_of_memory) }
    ensures untouched { IfErr args (λ e. input.new ≡ input.old) }
{
    match words_of(alloc, args) {
        Ok(words) => code_for(alloc, words.as_slice(), input, output),
        Err(AllocError) => code_of(&Outcome::out_of_memory()),
    }
}
