//! The command that decides properties of a made problem, `sample`.
ghost use Rattle.std.specs.Prelude.{◌≡◌, None, map, IfOk, OnOk};
ghost use Rattle.fort_formula_grammar.specs.Tokens.{property_text};
ghost use Rattle.fort_formulas.specs.FormulaView.{as_property};
ghost use Rattle.fort_answers.specs.Lines.{positive};
ghost use Rattle.fort_answers.specs.SampleAnswer.{SampleAnswer};
ghost use Rattle.fort_answers.specs.PossibleRequests.{IsSampleSize};
ghost use Rattle.fort_run.specs.Samples.{AddsLine, AddsLines};
ghost use Rattle.fort_run.specs.StatusView.{code_of};

use crate::reply::Reply;
use crate::status::Status;
use crate::verdict::{core_for, truth};
use fort_formulas::{Formula, Macro};
use fort_questions::push_number;
use fort_sample::made_system;
use fort_terms::System;
use fort_words::Options;
use std::alloc::{AllocError, Global};

/// How each property is decided.
const OPTIONS: Options = Options {
    states: 10_000,
    reduces: false,
};

/// In the order of their lines.
const PROPERTIES: [Macro; 7] = [
    Macro::Cr,
    Macro::Wcr,
    Macro::Scr,
    Macro::Wn,
    Macro::Unr,
    Macro::Unc,
    Macro::Nfp,
];

/// The word for a property.
fn property_word(property: Macro) -> &'static [u8]
    ensures { result.now ≡ property_text (as_property property) }
{
    match property {
        Macro::Cr => b"CR",
        Macro::Wcr => b"WCR",
        Macro::Scr => b"SCR",
        Macro::Wn => b"WN",
        Macro::Unr => b"UNR",
        Macro::Unc => b"UNC",
        Macro::Nfp => b"NFP",
    }
}

/// Adds the line of a property of the rules of index 1.
fn push_property(
    alloc: Global,
    system: &System,
    property: Macro,
    text: &mut Vec<u8>,
) -> Result<(), AllocError>
    ensures { OnOk result (AddsLine system.now (as_property property)
        text.old.items text.new.items) }
{
    // Each system has an index 1.
    let _number = system.number();
    let core = core_for(alloc, system, &Formula::Macro(property, 1), &[])?;
    let reply = truth(alloc, system, &core, OPTIONS)?;
    text.extend_from_slice(property_word(property))?;
    text.push(b' ')?;
    text.extend_from_slice(&reply.text)?;
    Ok(())
}

/// Adds a line for each of these properties.
fn push_properties(
    alloc: Global,
    system: &System,
    properties: &[Macro],
    text: &mut Vec<u8>,
) -> Result<(), AllocError>
    ensures { OnOk result (AddsLines system.now (map as_property properties.now)
        text.old.items text.new.items) }
{
    for property in properties {
        push_property(alloc, system, *property, text)?;
    }
    Ok(())
}

/// The line of a sample's size, and behind it a line for each property.
fn sample_text(alloc: Global, n: u32) -> Result<Vec<u8>, AllocError>
    requires { IsSampleSize n }
    ensures { IfOk result (λ text. SampleAnswer n positive text.items) }
{
    let system = made_system(alloc, n)?;
    let mut text = Vec::from_slice(alloc, b"sample ")?;
    push_number(&mut text, n as usize)?;
    text.push(b'\n')?;
    push_properties(alloc, &system, &PROPERTIES, &mut text)?;
    Ok(text)
}

/// The reply to a sample of this size.
pub fn sample(alloc: Global, n: u32) -> Result<Reply, AllocError>
    requires { IsSampleSize n }
    ensures answer { IfOk result (λ r. SampleAnswer n (code_of r.status) r.text.items) }
    ensures limit { IfOk result (λ r. r.limit ≡ None) }
{
    Ok(Reply::of(Status::Positive, sample_text(alloc, n)?))
}
