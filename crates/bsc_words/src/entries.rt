//! The `clap` commands that are made of the tables of `bsc_options`. No argument is global, since
//! the laws of `clap` cover only commands without global ones. What help says is in no contract.

ghost use Rattle.std.specs.Prelude.{◌≡◌, IfOk, Some, map, false};
ghost use Rattle.clap.specs.Words.{app_of, rule_of, shape_of, with_subcommand as with_shape};
ghost use Rattle.clap.specs.declared.builder.command.Command.TheViews.{out-Command};
ghost use Rattle.bsc_words.specs.Options.{entry_rule, subcommand_shape, with_rules, with_shapes};

use bsc_options::{Entry, Subcommand, Takes};
use clap::{Arg, ArgAction, Command};
use std::alloc::{AllocError, Global};

/// Returns the `clap` argument for an entry.
fn argument<'a>(alloc: Global, entry: &'a Entry) -> Arg<'a>
    ensures rule { rule_of result ≡ entry_rule entry.now }
    ensures local { result.global ≡ false }
{
    let argument = Arg::new(alloc, entry.id).help(entry.help);
    match entry.takes {
        Takes::Required => argument.required(true).action(ArgAction::Set),
        Takes::Optional => argument.action(ArgAction::Set),
        Takes::Rest => argument.action(ArgAction::Append).trailing_var_arg(true),
        Takes::Flag => argument.long(entry.id).action(ArgAction::SetTrue),
        Takes::Count => argument.long(entry.id).action(ArgAction::Count),
        Takes::Values => with_value(argument, entry).action(ArgAction::Append),
        Takes::Value | Takes::Number { .. } | Takes::Derived { .. } => {
            with_value(argument, entry).action(ArgAction::Set)
        }
    }
}

/// Adds the name of an entry and that of its value to its argument.
fn with_value<'a>(argument: Arg<'a>, entry: &'a Entry) -> Arg<'a>
    ensures rule { rule_of result
        ≡ record (rule_of argument.entry) { long = Some entry.now.id.now; value_names = 1 } }
    ensures local { result.global ≡ argument.entry.global }
{
    argument.long(entry.id).value_name(entry.value)
}

/// Adds the arguments and options of these entries to a command.
fn with_entries<'a>(
    alloc: Global,
    command: Command<'a>,
    entries: &'a [Entry],
) -> Result<Command<'a>, AllocError>
    requires local { (out-Command command).has_globals ≡ false }
    ensures app { IfOk result (λ c. app_of c
        ≡ with_rules (app_of command.entry) (map entry_rule entries.now)) }
    ensures local { IfOk result (λ c. (out-Command c).has_globals ≡ false) }
{
    let mut command = command;
    'entries: for entry in entries {
        command = command.arg(argument(alloc, entry))?;
    }
    Ok(command)
}

/// Returns the `clap` command for a row.
pub(crate) fn command_of<'a>(alloc: Global, row: &'a Subcommand) -> Result<Command<'a>, AllocError>
    ensures shape { IfOk result (λ c. shape_of c ≡ subcommand_shape row.now) }
    ensures local { IfOk result (λ c. (out-Command c).has_globals ≡ false) }
{
    let bare = Command::new(alloc, row.name)
        .about(row.about)
        .after_help(row.example);
    with_entries(alloc, bare, row.entries)
}

/// Adds these commands to a program.
pub(crate) fn with_subcommands<'a>(
    alloc: Global,
    program: Command<'a>,
    rows: &'a [Subcommand],
) -> Result<Command<'a>, AllocError>
    ensures { IfOk result (λ c. app_of c
        ≡ with_shapes (app_of program.entry) (map subcommand_shape rows.now)) }
{
    let mut program = program;
    'rows: for row in rows {
        program = with_subcommand(alloc, program, row)?;
    }
    Ok(program)
}

/// Adds the command for a row to a program.
fn with_subcommand<'a>(
    alloc: Global,
    program: Command<'a>,
    row: &'a Subcommand,
) -> Result<Command<'a>, AllocError>
    ensures { IfOk result (λ c. app_of c
        ≡ with_shape (app_of program.entry) (subcommand_shape row.now)) }
{
    let command = command_of(alloc, row)?;
    program.subcommand(command)
}
