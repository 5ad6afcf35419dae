// The table of commands as `clap` has it: a subcommand for each row, and for each option an argument whose value is a text.
ghost use Rattle.std.specs.Prelude.{◌≡◌, [], ◌<◌, length, map, IfErr, IfOk, false};
ghost use Rattle.clap.specs.Words.{app_of, kind_of, rule_of, shape_of};
ghost use Rattle.clap.specs.declared.builder.command.Command.TheViews.{out-Command as fields_of};
ghost use Rattle.command_words.specs.Shapes.{app_for, rule_for, shape_for};
ghost use Rattle.command_words.specs.Builds.{so_far};
ghost use Rattle.command_words.specs.Rows.{cmd_of, opt_of};

use crate::rows::{CommandRow, OptionRow};
use clap::error::ErrorKind;
use clap::{Arg, ArgAction, Command, Error};
use std::alloc::Global;

fn argument<'a>(alloc: Global, row: &OptionRow<'a>) -> Arg<'a>
    ensures rule { rule_of result ≡ rule_for (opt_of row.now) }
    ensures local { result.global ≡ false }
{
    let action = if row.is_flag {
        ArgAction::SetTrue
    } else {
        ArgAction::Set
    };
    Arg::new(alloc, row.name).long(row.name).action(action)
}

fn subcommand<'a>(alloc: Global, row: &CommandRow<'a>) -> Result<Command<'a>, Error>
    ensures shape { IfOk result (λ c. shape_of c ≡ shape_for (cmd_of row.now)) }
    ensures local { IfOk result (λ c. (fields_of c).has_globals ≡ false) }
    ensures memory { IfErr result (λ e. kind_of e ≡ ErrorKind.OutOfMemory) }
{
    let mut command = Command::new(alloc, row.name);
    for option in row.options {
        command = command.arg(argument(alloc, option))?;
    }
    Ok(command)
}

fn bare<'a>(alloc: Global, name: &'a str) -> Command<'a>
    ensures { app_of result ≡ so_far name.entry.now [] 0 }
{
    Command::new(alloc, name)
        .no_binary_name(true)
        .disable_help_flag(true)
        .disable_help_subcommand(true)
}

pub(crate) fn command<'a>(
    alloc: Global,
    name: &'a str,
    rows: &[CommandRow<'a>],
) -> Result<Command<'a>, Error>
    requires { 0 < length rows.now }
    ensures app { IfOk result (λ c. app_of c ≡ app_for name.entry.now (map cmd_of rows.now)) }
    ensures memory { IfErr result (λ e. kind_of e ≡ ErrorKind.OutOfMemory) }
{
    let mut command = bare(alloc, name);
    for row in rows {
        command = command.subcommand(subcommand(alloc, row)?)?;
    }
    Ok(command)
}
