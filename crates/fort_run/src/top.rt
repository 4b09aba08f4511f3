//! The top call.
ghost use Rattle.std.specs.Prelude.{◌≡◌, ◌<◌, ◌≤◌, ◌⊎◌, ◌↔◌, ℕ, true, List, [], ◌∷◌, map, codes, string_bytes, IfOk, IfSome, IsSome, OnOk, IsErrOf};
ghost use Rattle.fort_io.specs.Devices.{FaultCounted};
ghost use Rattle.fort_words.specs.RequestView.{as_request};
ghost use Rattle.fort_answers.specs.PossibleRequests.{CanBeAsked};
ghost use Rattle.fort_answers.specs.Requests.{Text, Options, Decide, Witness, Check as CheckOf, Confirm as ConfirmOf};
ghost use Rattle.fort_answers.specs.Said.{Asks, Says, SaysTrue, SaysFalse, SaysTruth};
ghost use Rattle.fort_answers.specs.SaidTerms.{SaysLeastTerms, SaysConfirmed, SaysFirstTerms};
ghost use Rattle.fort_answers.specs.SaidSystems.{SaysSystem, SaysNoSystem};
ghost use Rattle.fort_answers.specs.Answer.{Answer, NeedsNoInput, NeedsInput, needed};
ghost use Rattle.fort_answers.specs.Lines.{last_answer, limited, negative, positive, out_of_memory, read_failed, write_failed};
ghost use Rattle.fort_run.specs.Answered.{Answers, CutsShort, IsDecidable, IsDecidableWithin, IsSearchable, IsSearchableWithin, OwesOnly, OwesOnlyEarly, ReadsWhole};
ghost use Rattle.fort_run.specs.Certified.{CertifiesTruth, IsCheckable, PrintsTruth, IsAcceptedBehind};
ghost use Rattle.fort_run.specs.Confirmed.{ConfirmsTerms, IsConfirmable, PrintsTerms, IsOpenAcceptedBehind};
ghost use Rattle.fort_answers.specs.CommandGrammar.{request_of};
ghost use Rattle.fort_run.specs.Limits.{IsLimitOf};
ghost use Rattle.fort_run.specs.Replies.{IsReplyTold};

use crate::ask::{Stop, ask};
use crate::outcome::Outcome;
use crate::reply::Reply;
use crate::sample::sample;
use crate::status::Status;
use crate::usage::USAGE;
use fort_io::{Sink, Source, write_all};
use fort_questions::Question;
use fort_words::{Request, read_request};
use std::alloc::{AllocError, Global};

/// The reply to a request on what the source gives.
fn reply_to_request<S: Source>(
    alloc: Global,
    request: &Request<'_>,
    input: &mut S,
) -> Result<Reply, Stop>
    requires { CanBeAsked (as_request request.now) }
    ensures ok { IfOk result
        (IsReplyTold (Some (as_request request.now)) (S.rest input.old)) }
    ensures whole { OnOk result (needed (Some (as_request request.now)) →
        ReadsWhole (S.rest input.old) (S.rest input.new)) }
    ensures fault { IsErrOf result Stop.Fault →
        FaultCounted (S.faults input.old) (S.faults input.new) }
    ensures reported { S.faults input.old < S.faults input.new → IsErrOf result Stop.Fault }
    ensures asked { IsErrOf result Stop.Fault → needed (Some (as_request request.now)) }
    ensures unread { (needed (Some (as_request request.now)) → ⊥) →
        input.new ≡ input.old }
    ensures never_falls { S.faults input.old ≤ S.faults input.new }
{
    match *request {
        Request::Decide {
            options,
            certificate: false,
            formula,
        } => ask(alloc, Question::Truth(options), formula, input),
        Request::Decide {
            options,
            certificate: true,
            formula,
        } => ask(alloc, Question::Certificate(options), formula, input),
        Request::Witness {
            options,
            certificate: false,
            formula,
        } => ask(alloc, Question::Terms(options), formula, input),
        Request::Witness {
            options,
            certificate: true,
            formula,
        } => ask(alloc, Question::TermsCertificate(options), formula, input),
        Request::Check { formula } => ask(alloc, Question::Check, formula, input),
        Request::Sample { n } => Ok(sample(alloc, n)?),
        Request::Solutions {
            options,
            bounds,
            formula,
        } => ask(alloc, Question::Solutions(options, bounds), formula, input),
        Request::Confirm { formula } => ask(alloc, Question::Confirm, formula, input),
        Request::Synth {
            options,
            family,
            formula,
        } => ask(alloc, Question::Synth(options, family), formula, input),
    }
}

/// The reply to the words on what the source gives. Where the words ask nothing, nothing is read.
fn reply_to<S: Source>(alloc: Global, words: &[String], input: &mut S) -> Result<Reply, Stop>
    ensures ok { IfOk result
        (IsReplyTold (request_of (map string_bytes words.now)) (S.rest input.old)) }
    ensures whole { OnOk result (NeedsInput (map string_bytes words.now) →
        ReadsWhole (S.rest input.old) (S.rest input.new)) }
    ensures fault { IsErrOf result Stop.Fault →
        FaultCounted (S.faults input.old) (S.faults input.new) }
    ensures reported { S.faults input.old < S.faults input.new → IsErrOf result Stop.Fault }
    ensures asked { IsErrOf result Stop.Fault → NeedsInput (map string_bytes words.now) }
    ensures unread { NeedsNoInput (map string_bytes words.now) → input.new ≡ input.old }
    ensures never_falls { S.faults input.old ≤ S.faults input.new }
{
    match read_request(alloc, words)? {
        Some(request) => reply_to_request(alloc, &request, input),
        None => Ok(Reply::line(alloc, Status::Usage, USAGE.as_bytes())?),
    }
}

/// Answers the words of a command line, the program's own name first, on what the source gives. The whole answer is
/// made before its first byte is written.
pub fn run<S: Source, K: Sink>(
    alloc: Global,
    words: &[String],
    input: &mut S,
    output: &mut K,
) -> Outcome
    // What YES, NO and CERTIFIED say, where the words plainly ask: the formula's truth over the system of the bytes.
    ensures yes { (formula : List ℕ)
        → Asks (codes "decide") (formula ∷ []) (map string_bytes words.now)
        → result.status ≡ 0 → Says formula (S.rest input.old)
        (K.taken output.old) (K.taken output.new) (SaysTrue (codes "YES")) }
    ensures no { (formula : List ℕ)
        → Asks (codes "decide") (formula ∷ []) (map string_bytes words.now)
        → result.status ≡ 1 → Says formula (S.rest input.old)
        (K.taken output.old) (K.taken output.new) (SaysFalse (codes "NO")) }
    ensures certified { (formula : List ℕ)
        → Asks (codes "check") (formula ∷ []) (map string_bytes words.now)
        → result.status ≡ 0 → Says formula (S.rest input.old)
        (K.taken output.old) (K.taken output.new)
        (SaysTruth (codes "CERTIFIED YES") (codes "CERTIFIED NO")) }

    // What is said of terms: the least that satisfy the formula, some that do, the first ones, or that there are none.
    ensures found { (formula : List ℕ)
        → Asks (codes "witness") (formula ∷ []) (map string_bytes words.now)
        → result.status ≡ 0 → Says formula (S.rest input.old)
        (K.taken output.old) (K.taken output.new) SaysLeastTerms }
    ensures none { (formula : List ℕ)
        → Asks (codes "witness") (formula ∷ []) (map string_bytes words.now)
        → result.status ≡ 1 → Says formula (S.rest input.old)
        (K.taken output.old) (K.taken output.new) (SaysFalse (codes "NONE")) }
    ensures confirmed { (formula : List ℕ)
        → Asks (codes "confirm") (formula ∷ []) (map string_bytes words.now)
        → result.status ≡ 0 → Says formula (S.rest input.old)
        (K.taken output.old) (K.taken output.new) SaysConfirmed }
    ensures solved { (height formula : List ℕ)
        → Asks (codes "solutions") (height ∷ formula ∷ []) (map string_bytes words.now)
        → result.status ≤ 1 → Says formula (S.rest input.old)
        (K.taken output.old) (K.taken output.new) (SaysFirstTerms height) }

    // And of the systems of a family: the first that makes the formula true, or that none does.
    ensures system { (rules height formula : List ℕ)
        → Asks (codes "synth") (rules ∷ height ∷ formula ∷ []) (map string_bytes words.now)
        → result.status ≡ 0 → Says formula (S.rest input.old)
        (K.taken output.old) (K.taken output.new) (SaysSystem rules height) }
    ensures no_system { (rules height formula : List ℕ)
        → Asks (codes "synth") (rules ∷ height ∷ formula ∷ []) (map string_bytes words.now)
        → result.status ≡ 1 → Says formula (S.rest input.old)
        (K.taken output.old) (K.taken output.new) (SaysNoSystem rules height) }

    // With 0 to 4 the status is the answer's, and its text was written. No other answer is owed to the bytes.
    ensures answered { result.status ≤ last_answer → Answers (map string_bytes words.now)
        (S.rest input.old) (K.taken output.old) (K.taken output.new) result.status }
    ensures only { result.status ≤ last_answer → IfSome (S.rest input.old)
        (OwesOnly (map string_bytes words.now) (K.taken output.old) (K.taken output.new)
        result.status) }
    ensures early { result.status ≤ last_answer → OwesOnlyEarly (map string_bytes words.now)
        (K.taken output.old) (K.taken output.new) result.status }
    ensures whole { result.status ≤ last_answer → NeedsInput (map string_bytes words.now) →
        ReadsWhole (S.rest input.old) (S.rest input.new) }

    // A line that says CERTIFIED is owed to the bytes, whoever wrote the certificate; a certificate that is printed says the
    // formula's truth, and is certified in its turn, as each is that is owed.
    ensures owed_certified { (formula : Text)
        → request_of (map string_bytes words.now) ≡ Some (CheckOf formula)
        → result.status ≡ positive → CertifiesTruth formula
        (S.rest input.old) (K.taken output.old) (K.taken output.new) }
    ensures printed { (options : Options) (formula : Text)
        → request_of (map string_bytes words.now) ≡ Some (Decide options true formula)
        → result.status ≡ positive → PrintsTruth options.reduces formula
        (S.rest input.old) (K.taken output.old) (K.taken output.new) }
    ensures accepted { (options : Options) (formula bytes text : Text)
        → request_of (map string_bytes words.now) ≡ Some (Decide options true formula)
        → Answer (map string_bytes words.now) bytes positive text
        → IsAcceptedBehind formula bytes text }

    // The same of terms that are found, or that there are none.
    ensures owed_confirmed { (formula : Text)
        → request_of (map string_bytes words.now) ≡ Some (ConfirmOf formula)
        → result.status ≡ positive → ConfirmsTerms formula
        (S.rest input.old) (K.taken output.old) (K.taken output.new) }
    ensures printed_terms { (options : Options) (formula : Text)
        → request_of (map string_bytes words.now) ≡ Some (Witness options true formula)
        → result.status ≡ positive → PrintsTerms formula
        (S.rest input.old) (K.taken output.old) (K.taken output.new) }
    ensures accepted_terms { (options : Options) (formula bytes text : Text)
        → request_of (map string_bytes words.now) ≡ Some (Witness options true formula)
        → Answer (map string_bytes words.now) bytes positive text
        → IsOpenAcceptedBehind formula bytes text }

    // With 4, and with no other status, there is a limit: the part that is over the cap, and the tuples that show it.
    ensures has_limit { IsSome result.limit ↔ (result.status ≡ limited) }
    ensures limit { IfSome result.limit
        (IsLimitOf (map string_bytes words.now) (S.rest input.old) (K.taken output.old)
        (K.taken output.new)) }

    // With 7 a front of the answer's text was written, with 5 and 6 nothing.
    ensures cut_short { result.status ≡ write_failed → CutsShort (map string_bytes words.now)
        (S.rest input.old) (K.taken output.old) (K.taken output.new) }
    ensures silent { (result.status ≡ out_of_memory) ⊎ (result.status ≡ read_failed) →
        output.new ≡ output.old }

    // No other status comes, 6 and 7 only by a fault that was counted, 6 wherever the source's count rose, and only after
    // an accepted formula.
    ensures statuses { (result.status ≤ last_answer) ⊎ ((result.status ≡ out_of_memory) ⊎
        ((result.status ≡ read_failed) ⊎ (result.status ≡ write_failed))) }
    ensures read_fault { result.status ≡ read_failed →
        FaultCounted (S.faults input.old) (S.faults input.new) }
    ensures reported { S.faults input.old < S.faults input.new → result.status ≡ read_failed }
    ensures asked { result.status ≡ read_failed → NeedsInput (map string_bytes words.now) }
    ensures write_fault { result.status ≡ write_failed →
        FaultCounted (K.faults output.old) (K.faults output.new) }

    // Where the words ask nothing, the source is as before.
    ensures unread { NeedsNoInput (map string_bytes words.now) → input.new ≡ input.old }

    // Without a fault there is an answer, or want of memory; 0, 1 or 4 where the words ask to decide and the bytes are a system
    // with all that the formula speaks of, 0 or 1 where each part of it keeps the cap, and where the words ask to check or to confirm;
    // 0, 1 or 4 too where they ask for the first system of a family that is not too large, and the bytes are a signature with all that
    // the formula speaks of, 0 or 1 where each part of it keeps the cap over each system of the family.
    ensures complete { (FaultCounted (S.faults input.old) (S.faults input.new) → ⊥) →
        (FaultCounted (K.faults output.old) (K.faults output.new) → ⊥) →
        (result.status ≤ last_answer) ⊎ (result.status ≡ out_of_memory) }
    ensures decided { (FaultCounted (S.faults input.old) (S.faults input.new) → ⊥) →
        (FaultCounted (K.faults output.old) (K.faults output.new) → ⊥) →
        IsDecidable (map string_bytes words.now) (S.rest input.old) → (result.status ≤ negative)
        ⊎ ((result.status ≡ limited) ⊎ (result.status ≡ out_of_memory)) }
    ensures kept { (FaultCounted (S.faults input.old) (S.faults input.new) → ⊥) →
        (FaultCounted (K.faults output.old) (K.faults output.new) → ⊥) →
        IsDecidableWithin (map string_bytes words.now) (S.rest input.old) →
        (result.status ≤ negative) ⊎ (result.status ≡ out_of_memory) }
    ensures checked { (FaultCounted (S.faults input.old) (S.faults input.new) → ⊥) →
        (FaultCounted (K.faults output.old) (K.faults output.new) → ⊥) →
        IsCheckable (map string_bytes words.now) (S.rest input.old) →
        (result.status ≤ negative) ⊎ (result.status ≡ out_of_memory) }
    ensures confirmable { (FaultCounted (S.faults input.old) (S.faults input.new) → ⊥) →
        (FaultCounted (K.faults output.old) (K.faults output.new) → ⊥) →
        IsConfirmable (map string_bytes words.now) (S.rest input.old) →
        (result.status ≤ negative) ⊎ (result.status ≡ out_of_memory) }
    ensures searched { (FaultCounted (S.faults input.old) (S.faults input.new) → ⊥) →
        (FaultCounted (K.faults output.old) (K.faults output.new) → ⊥) →
        IsSearchable (map string_bytes words.now) (S.rest input.old) → (result.status ≤ negative)
        ⊎ ((result.status ≡ limited) ⊎ (result.status ≡ out_of_memory)) }
    ensures searched_within { (FaultCounted (S.faults input.old) (S.faults input.new) → ⊥) →
        (FaultCounted (K.faults output.old) (K.faults output.new) → ⊥) →
        IsSearchableWithin (map string_bytes words.now) (S.rest input.old) →
        (result.status ≤ negative) ⊎ (result.status ≡ out_of_memory) }
{
    let reply = match reply_to(alloc, words, input) {
        Ok(reply) => reply,
        Err(Stop::Memory) => return Outcome::of(Status::OutOfMemory),
        Err(Stop::Fault) => return Outcome::of(Status::ReadFailed),
    };
    match write_all(output, &reply.text) {
        Ok(()) => Outcome::of_reply(reply),
        Err(_) => Outcome::of(Status::WriteFailed),
    }
}
