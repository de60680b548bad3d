//! Defines the arguments of subcommands for `clap`: names of files, and options.

ghost use Rattle.std.specs.Prelude.{◌≡◌, IfOk, false};
ghost use Rattle.clap.specs.Words.{app_of, rule_of};
ghost use Rattle.command_line.specs.Commands.{all_names, also_named, one_flag, one_option};
ghost use Rattle.command_line.specs.Commands.{rule_for, with_argument, with_arguments};

use crate::argument_help::OptionHelp;
use clap::{Arg, ArgAction, Command};
use std::alloc::{AllocError, Global};

/// An argument of a subcommand: its name, and its help.
#[derive(Clone, Copy)]
pub enum Argument {
    /// The name of a file. Required.
    File(&'static str, &'static str),
    /// Names of files. At least one is required.
    Files(&'static str, &'static str),
    /// An option with one value. Required.
    Required(&'static str, OptionHelp),
    /// An option with one value.
    Optional(&'static str, OptionHelp),
    /// An option with one value and a second name.
    Aliased(&'static str, &'static str, OptionHelp),
    /// An option with one value, which may be given more than once.
    Repeated(&'static str, OptionHelp),
    /// An option without a value.
    Flag(&'static str, &'static str),
}

impl Argument {
    /// Returns the argument as `clap` defines it.
    fn arg<'a>(&self, alloc: Global) -> Result<Arg<'a>, AllocError>
        ensures rule { IfOk result (λ arg. rule_of arg ≡ rule_for self.now) }
        ensures local { IfOk result (λ arg. arg.global ≡ false) }
    {
        match *self {
            Argument::File(name, help) => Ok(Arg::new(alloc, name).required(true).help(help)),
            Argument::Files(name, help) => Ok(files(alloc, name).help(help)),
            Argument::Required(name, help) => Ok(option(alloc, name, help).required(true)),
            Argument::Optional(name, help) => Ok(option(alloc, name, help)),
            Argument::Aliased(name, other, help) => aliased(alloc, name, other, help),
            Argument::Repeated(name, help) => Ok(option(alloc, name, help).action(
                ArgAction::Append,
            )),
            Argument::Flag(name, help) => Ok(flag(alloc, name).help(help)),
        }
    }
}

/// Adds these arguments to a command, in this order.
pub fn with_arguments<'a>(
    alloc: Global,
    command: Command<'a>,
    arguments: &[Argument],
) -> Result<Command<'a>, AllocError>
    ensures { IfOk result (λ more. app_of more
        ≡ with_arguments (app_of command.entry) arguments.now) }
{
    let mut command = command;
    for argument in arguments {
        command = with_argument(alloc, command, argument)?;
    }
    Ok(command)
}

fn with_argument<'a>(
    alloc: Global,
    command: Command<'a>,
    argument: &Argument,
) -> Result<Command<'a>, AllocError>
    ensures { IfOk result (λ more. app_of more
        ≡ with_argument (app_of command.entry) argument.now) }
{
    command.arg(argument.arg(alloc)?)
}

/// Defines an option with one value.
fn option<'a>(alloc: Global, name: &'a str, help: OptionHelp) -> Arg<'a>
    ensures rule { rule_of result ≡ one_option name.entry.now false }
    ensures local { result.global ≡ false }
{
    Arg::new(alloc, name)
        .long(name)
        .value_name(help.0)
        .help(help.1)
}

/// Defines an option with one value and two names.
fn aliased<'a>(
    alloc: Global,
    name: &'a str,
    other: &'a str,
    help: OptionHelp,
) -> Result<Arg<'a>, AllocError>
    ensures rule { IfOk result (λ arg. rule_of arg
        ≡ also_named (one_option name.entry.now false) other.entry.now) }
    ensures local { IfOk result (λ arg. arg.global ≡ false) }
{
    option(alloc, name, help).visible_alias(other)
}

/// Defines an argument for names of files, of which at least one is required.
fn files(alloc: Global, name: &str) -> Arg<'_>
    ensures rule { rule_of result ≡ all_names name.entry.now }
    ensures local { result.global ≡ false }
{
    Arg::new(alloc, name).required(true).num_args(1..)
}

/// Defines an option without a value.
fn flag(alloc: Global, name: &str) -> Arg<'_>
    ensures rule { rule_of result ≡ one_flag name.entry.now }
    ensures local { result.global ≡ false }
{
    Arg::new(alloc, name).long(name).action(ArgAction::SetTrue)
}
