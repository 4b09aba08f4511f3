//! The lines that refuse formulas and inputs.
ghost use Rattle.std.specs.Prelude.{◌≡◌, ◌++◌, IfOk, OnOk, decimal};
ghost use Rattle.fort_answers.specs.Lines as lines;
ghost use Rattle.fort_questions.specs.Refusals.{SaysCertificateFault, SaysFormulaFault, SaysProblemFault, SaysTextFault};

use fort_ari::ProblemFault;
use fort_certificate::CertificateFault;
use fort_formula_parser::FFault;
use fort_sexpr::SFault;
use itoa::Buffer;
use std::alloc::{AllocError, AllocFailed, Global};

/// Why something is refused.
#[derive(Debug, Drop)]
pub enum Refusal {
    /// There is not enough memory.
    Memory,
    /// By this line.
    Line(Vec<u8>),
}

impl From<AllocError> for Refusal {
    ghost use Rattle.std.specs.Prelude.{◌≡◌};
    ghost use Rattle.fort_questions.specs.declared.refusal.Refusal.TheVariants.{Memory};

    ghost from_gives = { λ _ e. e ≡ Memory };

    fn from(_e: AllocError) -> Refusal {
        Refusal::Memory
    }
}

impl<T: Drop> From<AllocFailed<T>> for Refusal {
    ghost use Rattle.std.specs.Prelude.{◌≡◌};
    ghost use Rattle.fort_questions.specs.declared.refusal.Refusal.TheVariants.{Memory};

    ghost from_gives = { λ _ e. e ≡ Memory };

    fn from(_e: AllocFailed<T>) -> Refusal {
        Refusal::Memory
    }
}

/// Adds a number's digits.
pub fn push_number(line: &mut Vec<u8>, n: usize) -> Result<(), AllocError>
    ensures { OnOk result (line.new.items ≡ line.old.items ++ decimal n) }
{
    let mut buffer = Buffer::new();
    line.extend_from_slice(buffer.format(n).as_bytes())
}

/// The line of a refusal that ends with a number.
pub fn numbered(alloc: Global, text: &[u8], n: usize) -> Result<Vec<u8>, AllocError>
    ensures { IfOk result (λ line. line.items ≡ lines.numbered text.now n) }
{
    let mut line = Vec::from_slice(alloc, text)?;
    push_number(&mut line, n)?;
    line.push(b'\n')?;
    Ok(line)
}

/// The line of a formula's first fault.
pub fn formula_line(alloc: Global, fault: &FFault) -> Result<Vec<u8>, AllocError>
    ensures { IfOk result (λ line. SaysFormulaFault fault.now line.items) }
{
    match fault {
        FFault::Memory => Err(AllocError),
        FFault::BadByte(at) => numbered(alloc, b"REFUSED formula bad byte at ", *at),
        FFault::TooLong => Vec::from_slice(alloc, b"REFUSED formula too long\n"),
        FFault::TooDeep(at) => numbered(alloc, b"REFUSED formula too deep at ", *at),
        FFault::Syntax(at) => numbered(alloc, b"REFUSED formula syntax at ", *at),
    }
}

/// The line of a formula in which a variable is free.
pub fn open_line(alloc: Global, name: &[u8]) -> Result<Vec<u8>, AllocError>
    ensures { IfOk result (λ line. line.items ≡ lines.formula_open name.now) }
{
    let mut line = Vec::from_slice(alloc, b"REFUSED formula open ")?;
    line.extend_from_slice(name)?;
    line.push(b'\n')?;
    Ok(line)
}

/// The line of a refusal of the form with a number: what it is, and the name that it names, if any.
pub fn form_line(alloc: Global, i: u32, what: &[u8], name: &[u8]) -> Result<Vec<u8>, AllocError>
    ensures { IfOk result (λ line. line.items ≡ lines.form_line i (what.now ++ name.now)) }
{
    let mut line = Vec::from_slice(alloc, b"REFUSED problem form ")?;
    push_number(&mut line, i as usize)?;
    line.extend_from_slice(what)?;
    line.extend_from_slice(name)?;
    line.push(b'\n')?;
    Ok(line)
}

/// The line of a text's first fault.
pub fn text_line(alloc: Global, fault: &SFault) -> Result<Vec<u8>, AllocError>
    ensures { IfOk result (λ line. SaysTextFault fault.now line.items) }
{
    match fault {
        SFault::Memory => Err(AllocError),
        SFault::BadByte(at) => numbered(alloc, b"REFUSED text bad byte at ", *at),
        SFault::ExtraClose(at) => numbered(alloc, b"REFUSED text extra close at ", *at),
        SFault::Unclosed(at) => numbered(alloc, b"REFUSED text unclosed at ", *at),
        SFault::TooDeep(at) => numbered(alloc, b"REFUSED text too deep at ", *at),
    }
}

/// The line of a problem's first fault.
pub fn problem_line(alloc: Global, fault: &ProblemFault) -> Result<Vec<u8>, AllocError>
    ensures { IfOk result (λ line. SaysProblemFault fault.now line.items) }
{
    match fault {
        ProblemFault::Memory => Err(AllocError),
        ProblemFault::NoFormat => Vec::from_slice(alloc, b"REFUSED problem no format\n"),
        ProblemFault::TooManyFunctions => Vec::from_slice(
            alloc,
            b"REFUSED problem too many functions\n",
        ),
        ProblemFault::TooManyRules => Vec::from_slice(alloc, b"REFUSED problem too many rules\n"),
        ProblemFault::NoConstant => Vec::from_slice(alloc, b"REFUSED problem no constant\n"),
        ProblemFault::BadForm(i) => form_line(alloc, *i, b" bad form", b""),
        ProblemFault::BadName(i) => form_line(alloc, *i, b" bad name", b""),
        ProblemFault::BadArity(i) => form_line(alloc, *i, b" bad arity", b""),
        ProblemFault::Duplicate(i) => form_line(alloc, *i, b" duplicate", b""),
        ProblemFault::WrongCount(i) => form_line(alloc, *i, b" wrong count", b""),
        ProblemFault::VariableApplied(i) => form_line(alloc, *i, b" variable applied", b""),
        ProblemFault::LeftRepeats(i, name) => form_line(alloc, *i, b" left side repeats ", name),
        ProblemFault::RightRepeats(i, name) => form_line(alloc, *i, b" right side repeats ", name),
        ProblemFault::Shares(i, name) => form_line(alloc, *i, b" sides share ", name),
    }
}

/// The line of a refusal of the form with a number, as one of a certificate: what it is.
fn certificate_form(alloc: Global, i: u32, what: &[u8]) -> Result<Vec<u8>, AllocError>
    ensures { IfOk result (λ line. line.items ≡ lines.certificate_line i what.now) }
{
    let mut line = Vec::from_slice(alloc, b"REFUSED certificate form ")?;
    push_number(&mut line, i as usize)?;
    line.extend_from_slice(what)?;
    line.push(b'\n')?;
    Ok(line)
}

/// The line of a certificate's first fault.
pub fn certificate_line(alloc: Global, fault: CertificateFault) -> Result<Vec<u8>, AllocError>
    ensures { IfOk result (λ line. SaysCertificateFault fault line.items) }
{
    match fault {
        CertificateFault::Memory => Err(AllocError),
        CertificateFault::BadForm(i) => certificate_form(alloc, i, b" bad form"),
        CertificateFault::BadNumber(i) => certificate_form(alloc, i, b" bad number"),
        CertificateFault::Version(i) => certificate_form(alloc, i, b" version"),
    }
}
