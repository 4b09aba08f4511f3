//! Requests, from `clap`'s matches.
ghost use Rattle.std.specs.Prelude.{◌≡◌, IfOk, map, option_and_then, option_map, string_bytes};
ghost use Rattle.clap.specs.Words.{subcommand_rows_of};
ghost use Rattle.fort_answers.specs.Commands.{bounds_given, check_asked, confirm_asked, decide_asked, family_given, is_set, number_given, options_given, sample_asked, solutions_asked, synth_asked, witness_asked};
ghost use Rattle.fort_answers.specs.CommandGrammar.{request_of};
ghost use Rattle.fort_words.specs.Matches.{asked_in, given_of, request_in};
ghost use Rattle.fort_words.specs.RequestView.{as_bounds, as_family, as_options, as_request};
ghost use Rattle.fort_words.specs.RowView.{as_number};

use crate::command::fort_command;
use crate::number::parse_number;
use crate::row::{
    CERTIFICATE, CHECK, CONFIRM, COUNT, DECIDE, FORMULA, HEIGHT, MOST, Number, REDUCE, RULE_COUNT,
    SAMPLE, SIDE_HEIGHT, SOLUTIONS, STATES, SYNTH, WITNESS,
};
use clap::ArgMatches;
use clap::error::ErrorKind;
use std::alloc::{AllocError, Global};

/// How the parts of a formula are decided.
#[derive(Clone, Copy, Debug, PartialEq, Eq)]
pub struct Options {
    /// The most states of a part.
    pub states: u32,
    /// Whether the table of each part is reduced.
    pub reduces: bool,
}

/// Which solutions are wanted.
#[derive(Clone, Copy, Debug, PartialEq, Eq)]
pub struct Bounds {
    /// How high their terms may be.
    pub height: u32,
    /// How many at most.
    pub most: u32,
}

/// Of which systems the first is wanted.
#[derive(Clone, Copy, Debug, PartialEq, Eq)]
pub struct Family {
    /// How many rules they have.
    pub count: u32,
    /// How high the sides of their rules may be.
    pub height: u32,
}

/// What a command line asks.
#[derive(Clone, Copy, Debug, PartialEq, Eq)]
pub enum Request<'a> {
    /// Whether the formula is true.
    Decide {
        options: Options,
        certificate: bool,
        formula: &'a str,
    },
    /// The least terms for its free variables that make the formula true.
    Witness {
        options: Options,
        certificate: bool,
        formula: &'a str,
    },
    /// Whether the certificate behind the problem proves the formula or its negation.
    Check {
        formula: &'a str,
    },
    /// Decisions of a made problem with so many constants.
    Sample {
        n: u32,
    },
    /// The first terms for its free variables that make the formula true.
    Solutions {
        options: Options,
        bounds: Bounds,
        formula: &'a str,
    },
    /// Whether the certificate behind the problem proves that some terms make the formula true, or that none do.
    Confirm {
        formula: &'a str,
    },
    /// The first system of the family that makes the formula true.
    Synth {
        options: Options,
        family: Family,
        formula: &'a str,
    },
}

/// The first value of `id`.
fn value_of<'a>(matches: &ArgMatches<'a>, id: &str) -> Option<&'a str>
    ensures { option_map (λ text. text.now) result ≡ given_of matches.now id.now }
{
    matches.get_str(id)
}

fn number_given(matches: &ArgMatches<'_>, number: Number) -> Option<u32>
    ensures { result ≡ number_given (as_number number) (given_of matches.now) }
{
    parse_number(value_of(matches, number.name)?, number.low, number.high)
}

fn is_set(matches: &ArgMatches<'_>, id: &str) -> bool
    ensures { result ≡ is_set id.now (given_of matches.now) }
{
    match value_of(matches, id) {
        Some(text) => text == "true",
        None => false,
    }
}

fn options_given(matches: &ArgMatches<'_>) -> Option<Options>
    ensures { option_map as_options result ≡ options_given (given_of matches.now) }
{
    let states = number_given(matches, STATES)?;
    let reduces = is_set(matches, REDUCE);
    Some(Options { states, reduces })
}

fn asked_to_decide<'a>(matches: &ArgMatches<'a>) -> Option<Request<'a>>
    ensures { option_map as_request result ≡ decide_asked (given_of matches.now) }
{
    let options = options_given(matches)?;
    let formula = value_of(matches, FORMULA)?;
    let certificate = is_set(matches, CERTIFICATE);
    Some(Request::Decide {
        options,
        certificate,
        formula,
    })
}

fn asked_for_witness<'a>(matches: &ArgMatches<'a>) -> Option<Request<'a>>
    ensures { option_map as_request result ≡ witness_asked (given_of matches.now) }
{
    let options = options_given(matches)?;
    let formula = value_of(matches, FORMULA)?;
    let certificate = is_set(matches, CERTIFICATE);
    Some(Request::Witness {
        options,
        certificate,
        formula,
    })
}

fn asked_to_check<'a>(matches: &ArgMatches<'a>) -> Option<Request<'a>>
    ensures { option_map as_request result ≡ check_asked (given_of matches.now) }
{
    let formula = value_of(matches, FORMULA)?;
    Some(Request::Check { formula })
}

fn asked_for_sample<'a>(matches: &ArgMatches<'a>) -> Option<Request<'a>>
    ensures { option_map as_request result ≡ sample_asked (given_of matches.now) }
{
    let n = number_given(matches, COUNT)?;
    Some(Request::Sample { n })
}

fn bounds_given(matches: &ArgMatches<'_>) -> Option<Bounds>
    ensures { option_map as_bounds result ≡ bounds_given (given_of matches.now) }
{
    let height = number_given(matches, HEIGHT)?;
    let most = number_given(matches, MOST)?;
    Some(Bounds { height, most })
}

fn asked_for_solutions<'a>(matches: &ArgMatches<'a>) -> Option<Request<'a>>
    ensures { option_map as_request result ≡ solutions_asked (given_of matches.now) }
{
    let options = options_given(matches)?;
    let bounds = bounds_given(matches)?;
    let formula = value_of(matches, FORMULA)?;
    Some(Request::Solutions {
        options,
        bounds,
        formula,
    })
}

fn asked_to_confirm<'a>(matches: &ArgMatches<'a>) -> Option<Request<'a>>
    ensures { option_map as_request result ≡ confirm_asked (given_of matches.now) }
{
    let formula = value_of(matches, FORMULA)?;
    Some(Request::Confirm { formula })
}

fn family_given(matches: &ArgMatches<'_>) -> Option<Family>
    ensures { option_map as_family result ≡ family_given (given_of matches.now) }
{
    let count = number_given(matches, RULE_COUNT)?;
    let height = number_given(matches, SIDE_HEIGHT)?;
    Some(Family { count, height })
}

fn asked_for_synth<'a>(matches: &ArgMatches<'a>) -> Option<Request<'a>>
    ensures { option_map as_request result ≡ synth_asked (given_of matches.now) }
{
    let options = options_given(matches)?;
    let family = family_given(matches)?;
    let formula = value_of(matches, FORMULA)?;
    Some(Request::Synth {
        options,
        family,
        formula,
    })
}

fn asked<'a>(matches: &ArgMatches<'a>) -> Option<Request<'a>>
    ensures { option_map as_request result ≡ option_and_then asked_in
        (subcommand_rows_of matches.now) }
{
    let (name, inner) = matches.subcommand()?;
    if name == DECIDE.name {
        asked_to_decide(inner)
    } else if name == WITNESS.name {
        asked_for_witness(inner)
    } else if name == CHECK.name {
        asked_to_check(inner)
    } else if name == SAMPLE.name {
        asked_for_sample(inner)
    } else if name == SOLUTIONS.name {
        asked_for_solutions(inner)
    } else if name == CONFIRM.name {
        asked_to_confirm(inner)
    } else if name == SYNTH.name {
        asked_for_synth(inner)
    } else {
        None
    }
}

/// What the words ask, the program's own name first.
pub fn read_request<'a>(
    alloc: Global,
    words: &'a [String],
) -> Result<Option<Request<'a>>, AllocError>
    ensures grammar { IfOk result (λ r. option_map as_request r ≡
        request_of (map string_bytes words.entry.now)) }

    // The same by clap's definitions.
    ensures matches { IfOk result (λ r. option_map as_request r ≡
        request_in (map string_bytes words.entry.now)) }
{
    let command = fort_command(alloc)?;
    match command.try_get_matches_from(words) {
        Ok(matches) => Ok(asked(&matches)),
        Err(error) => match error.kind() {
            ErrorKind::OutOfMemory => Err(AllocError),
            _ => Ok(None),
        },
    }
}
