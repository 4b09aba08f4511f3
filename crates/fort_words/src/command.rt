//! The command line, made by `clap`'s builder from the rows.
ghost use Rattle.std.specs.Prelude.{◌≡◌, IfOk, false};
ghost use Rattle.clap.specs.Words.{app_of, rule_of};
ghost use Rattle.clap.specs.declared.builder.command.Command.TheViews.{out-Command as fields_of};
ghost use Rattle.fort_words.specs.CommandLine.{command_app, fort, rule_for};
ghost use Rattle.fort_words.specs.RowView.{as_parameter, as_parameters};

use crate::row::{Parameter, Row, rows};
use clap::{Arg, ArgAction, Command};
use std::alloc::{AllocError, Global};

fn arg_for<'a>(alloc: Global, parameter: &Parameter) -> Arg<'a>
    ensures { (rule_of result ≡ rule_for (as_parameter parameter.now)) × (result.global ≡ false) }
{
    match parameter {
        Parameter::Flag(name) => Arg::new(alloc, *name)
            .long(*name)
            .action(ArgAction::SetTrue),
        Parameter::Setting { number, default } => Arg::new(alloc, number.name)
            .long(number.name)
            .default_value(*default),
        Parameter::NumberWord(number) => Arg::new(alloc, number.name).required(true),
        Parameter::TextWord(name) => Arg::new(alloc, *name).required(true),
    }
}

fn command_for<'a>(alloc: Global, row: &Row) -> Result<Command<'a>, AllocError>
    ensures { IfOk result (λ c.
        (app_of c ≡ command_app row.now.name.now (as_parameters row.now.parameters.now))
        × ((fields_of c).has_globals ≡ false)) }
{
    let mut command = Command::new(alloc, row.name);
    for parameter in row.parameters {
        command = command.arg(arg_for(alloc, parameter))?;
    }
    Ok(command)
}

/// The program with its commands.
pub fn fort_command<'a>(alloc: Global) -> Result<Command<'a>, AllocError>
    ensures { IfOk result (λ c. app_of c ≡ fort) }
{
    let mut command = Command::new(alloc, "fort").subcommand_required(true);
    for row in rows() {
        command = command.subcommand(command_for(alloc, row)?)?;
    }
    Ok(command)
}
