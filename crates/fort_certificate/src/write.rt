//! Writes a certificate.
ghost use Rattle.std.specs.Prelude.{◌≡◌, ◌++◌, ◌∷◌, map, decimal, OnOk, IfOk};
ghost use Rattle.fort_certificate_theory.specs.Certificates as certificates;
ghost use Rattle.fort_certificate_theory.specs.CertificateText.{line_of, element_text, pair_element, count_element, index_elements, step_elements, header_elements, steps_text, certificate_text, IsSmall, IsSmallPair, IsSmallCount};
ghost use Rattle.std.specs.List.{AllByRecursion};
ghost use Rattle.fort_findings.specs.FindingView.{as_which, as_pair, as_count};
ghost use Rattle.fort_steps.specs.StepView.{as_step};
ghost use Rattle.fort_certificate.specs.Again.{IsReadBehind, HasSmallNumbers};
ghost use Rattle.fort_certificate.specs.Lines.{tails};
ghost use Rattle.fort_certificate.specs.VersionView.{as_version};

use crate::version::Version;
use crate::words::{push_digits, push_number, push_reason, push_verdict, push_version, push_which};
use fort_findings::{ClosureEntry, Count, Which};
use fort_steps::Step;
use std::alloc::{AllocError, Global};

fn push_entry(out: &mut Vec<u8>, entry: &ClosureEntry) -> Result<(), AllocError>
    ensures text { OnOk result (out.new.items ≡
        out.old.items ++ 32 ∷ element_text (pair_element (as_pair entry.now))) }
    ensures small { OnOk result (IsSmallPair (as_pair entry.now)) }
{
    out.extend_from_slice(b" (")?;
    push_digits(out, entry.p)?;
    push_number(out, entry.q)?;
    push_reason(out, entry.why)?;
    out.push(b')')?;
    Ok(())
}

fn push_entries(out: &mut Vec<u8>, entries: &[ClosureEntry]) -> Result<(), AllocError>
    ensures text { OnOk result (out.new.items ≡ out.old.items ++
        tails (map (λ e. element_text (pair_element (as_pair e))) entries.now)) }
    ensures small { OnOk result (AllByRecursion IsSmallPair (map as_pair entries.now)) }
{
    for entry in entries {
        push_entry(out, entry)?;
    }
    Ok(())
}

/// The index of a closure, where the version tells it.
fn push_index(out: &mut Vec<u8>, version: Version, index: u32) -> Result<(), AllocError>
    ensures { OnOk result (out.new.items ≡ out.old.items ++
        tails (map element_text (index_elements (as_version version) index))) }
{
    if !version.tells_index() {
        return Ok(());
    }
    push_number(out, index)
}

fn push_closure(
    out: &mut Vec<u8>,
    version: Version,
    which: Which,
    index: u32,
    entries: &[ClosureEntry],
) -> Result<(), AllocError>
    ensures text { OnOk result (out.new.items ≡
        out.old.items ++ line_of (step_elements (as_version version)
        (certificates.Closure (as_which which) index (map as_pair entries.now)))) }
    ensures small { OnOk result (HasSmallNumbers
        (certificates.Closure (as_which which) index (map as_pair entries.now))) }
{
    out.extend_from_slice(b"(closure")?;
    push_which(out, which)?;
    push_index(out, version, index)?;
    push_entries(out, entries)?;
    out.extend_from_slice(b")\n")?;
    Ok(())
}

pub(crate) fn push_numbers(out: &mut Vec<u8>, numbers: &[u32]) -> Result<(), AllocError>
    ensures text { OnOk result (out.new.items ≡ out.old.items ++ tails (map decimal numbers.now)) }
    ensures small { OnOk result (AllByRecursion IsSmall numbers.now) }
{
    for number in numbers {
        push_number(out, *number)?;
    }
    Ok(())
}

fn push_part(
    out: &mut Vec<u8>,
    version: Version,
    part: u32,
    targets: &[u32],
) -> Result<(), AllocError>
    ensures text { OnOk result (out.new.items ≡
        out.old.items ++ line_of (step_elements (as_version version)
        (certificates.Part part targets.now))) }
    ensures small { OnOk result (HasSmallNumbers (certificates.Part part targets.now)) }
{
    out.extend_from_slice(b"(part")?;
    push_number(out, part)?;
    push_numbers(out, targets)?;
    out.extend_from_slice(b")\n")?;
    Ok(())
}

fn push_merge(
    out: &mut Vec<u8>,
    version: Version,
    part: u32,
    classes: &[u32],
) -> Result<(), AllocError>
    ensures text { OnOk result (out.new.items ≡
        out.old.items ++ line_of (step_elements (as_version version)
        (certificates.Merge part classes.now))) }
    ensures small { OnOk result (HasSmallNumbers (certificates.Merge part classes.now)) }
{
    out.extend_from_slice(b"(merge")?;
    push_number(out, part)?;
    push_numbers(out, classes)?;
    out.extend_from_slice(b")\n")?;
    Ok(())
}

fn push_count(out: &mut Vec<u8>, count: &Count) -> Result<(), AllocError>
    ensures text { OnOk result (out.new.items ≡
        out.old.items ++ 32 ∷ element_text (count_element (as_count count.now))) }
    ensures small { OnOk result (IsSmallCount (as_count count.now)) }
{
    match *count {
        Count::Finite(height) => {
            out.extend_from_slice(b" (fin")?;
            push_number(out, height)?;
        }
        Count::Infinite(child) => {
            out.extend_from_slice(b" (inf")?;
            push_number(out, child)?;
        }
    }
    out.push(b')')?;
    Ok(())
}

fn push_each_count(out: &mut Vec<u8>, counts: &[Count]) -> Result<(), AllocError>
    ensures text { OnOk result (out.new.items ≡ out.old.items ++
        tails (map (λ n. element_text (count_element (as_count n))) counts.now)) }
    ensures small { OnOk result (AllByRecursion IsSmallCount (map as_count counts.now)) }
{
    for count in counts {
        push_count(out, count)?;
    }
    Ok(())
}

fn push_counts(
    out: &mut Vec<u8>,
    version: Version,
    part: u32,
    counts: &[Count],
) -> Result<(), AllocError>
    ensures text { OnOk result (out.new.items ≡
        out.old.items ++ line_of (step_elements (as_version version)
        (certificates.Counts part (map as_count counts.now)))) }
    ensures small { OnOk result (HasSmallNumbers
        (certificates.Counts part (map as_count counts.now))) }
{
    out.extend_from_slice(b"(counts")?;
    push_number(out, part)?;
    push_each_count(out, counts)?;
    out.extend_from_slice(b")\n")?;
    Ok(())
}

fn push_value(out: &mut Vec<u8>, version: Version, part: u32, value: bool) -> Result<(), AllocError>
    ensures text { OnOk result (out.new.items ≡
        out.old.items ++ line_of (step_elements (as_version version)
        (certificates.Value part value))) }
    ensures small { OnOk result (HasSmallNumbers (certificates.Value part value)) }
{
    out.extend_from_slice(b"(value")?;
    push_number(out, part)?;
    push_verdict(out, value)?;
    out.extend_from_slice(b")\n")?;
    Ok(())
}

fn push_step(out: &mut Vec<u8>, version: Version, step: &Step) -> Result<(), AllocError>
    ensures text { OnOk result (out.new.items ≡
        out.old.items ++ line_of (step_elements (as_version version) (as_step step.now))) }
    ensures small { OnOk result (HasSmallNumbers (as_step step.now)) }
{
    match step {
        Step::Closure(which, index, entries) => {
            push_closure(out, version, *which, *index, entries.as_slice())
        }
        Step::Part(part, targets) => push_part(out, version, *part, targets.as_slice()),
        Step::Merge(part, classes) => push_merge(out, version, *part, classes.as_slice()),
        Step::Counts(part, counts) => push_counts(out, version, *part, counts.as_slice()),
        Step::Value(part, value) => push_value(out, version, *part, *value),
    }
}

pub(crate) fn push_steps(
    out: &mut Vec<u8>,
    version: Version,
    steps: &[Step],
) -> Result<(), AllocError>
    ensures text { OnOk result (out.new.items ≡
        out.old.items ++ steps_text (as_version version) (map as_step steps.now)) }
    ensures small { OnOk result (AllByRecursion HasSmallNumbers (map as_step steps.now)) }
{
    for step in steps {
        push_step(out, version, step)?;
    }
    Ok(())
}

fn push_header(out: &mut Vec<u8>, version: Version, verdict: bool) -> Result<(), AllocError>
    ensures { OnOk result (out.new.items ≡
        out.old.items ++ line_of (header_elements (as_version version) verdict)) }
{
    out.extend_from_slice(b"(certificate")?;
    push_version(out, version)?;
    push_verdict(out, verdict)?;
    out.extend_from_slice(b")\n")?;
    Ok(())
}

/// The text of a certificate.
pub fn text(
    alloc: Global,
    version: Version,
    verdict: bool,
    steps: &[Step],
) -> Result<Vec<u8>, AllocError>
    ensures text { IfOk result (λ text.
        text.items ≡ certificate_text (as_version version) verdict (map as_step steps.now)) }
    ensures again { IfOk result (λ text.
        IsReadBehind (as_version version) verdict (map as_step steps.now) text.items) }
    ensures small { OnOk result (AllByRecursion HasSmallNumbers (map as_step steps.now)) }
{
    let mut out = Vec::new(alloc);
    push_header(&mut out, version, verdict)?;
    push_steps(&mut out, version, steps)?;
    Ok(out)
}
