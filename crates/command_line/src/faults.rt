//! Makes the errors of faults in arguments, as `clap` prints its own.

ghost use Rattle.std.specs.Prelude.{◌≡◌, IfOk, option_map};
ghost use Rattle.clap.specs.Words.{kind_of};
ghost use Rattle.clap.specs.declared.error.kind.ErrorKind.TheVariants.{InvalidValue};
ghost use Rattle.command_line.specs.Faults.{IsTold, IsUsage};
ghost use Rattle.command_line.specs.Given.{misuse_kind};

use crate::codes::INTRODUCTION;
use crate::commands::Subcommand;
use crate::error::OrderError;
use crate::matching::matches_of;
use crate::{commands, fault_texts};
use clap::error::ErrorKind;
use clap::{Command, Error};
use common::texts::Escaped;
use std::alloc::{AllocError, Global};
use std::convert::AsStr;

/// Returns the fault of these arguments as it is printed: the text of `clap` names them with their
/// control characters escaped. `fault` is the answer of `clap` to the arguments as they are.
pub fn fault_of<S: AsStr>(alloc: Global, words: &[S], fault: Error) -> OrderError
    ensures { IsTold result }
{
    match escaped_words(alloc, words) {
        Err(error) => OrderError::from(error),
        Ok(escaped) => match matches_of(alloc, escaped.as_slice()) {
            Err(error) => OrderError::from(error),
            Ok(_) => OrderError::from(fault),
        },
    }
}

/// Returns the fault of arguments that aren't valid UTF-8.
pub fn no_text(alloc: Global) -> OrderError
    ensures { IsUsage InvalidValue result }
{
    match program_error(alloc, ErrorKind::InvalidValue, fault_texts::NO_TEXT) {
        Ok(error) => OrderError::from(error),
        Err(error) => OrderError::from(error),
    }
}

/// Returns a fault in the arguments of the program, with this text.
pub fn program_error(alloc: Global, kind: ErrorKind, text: &str) -> Result<Error, AllocError>
    ensures { IfOk result (λ error. kind_of error ≡ kind) }
{
    error_of(commands::bootswap(alloc, INTRODUCTION), kind, text)
}

/// Returns a fault in the arguments of a subcommand, with this text.
pub fn subcommand_error(
    alloc: Global,
    subcommand: Subcommand,
    kind: ErrorKind,
    text: &str,
) -> Result<Error, AllocError>
    ensures { IfOk result (λ error. kind_of error ≡ kind) }
{
    error_of(subcommand.named_command(alloc), kind, text)
}

/// Returns a fault in the arguments of a command, with this text.
fn error_of(
    command: Result<Command<'_>, AllocError>,
    kind: ErrorKind,
    text: &str,
) -> Result<Error, AllocError>
    ensures { IfOk result (λ error. kind_of error ≡ kind) }
{
    command?.error(kind, text)
}

/// Returns the fault of an order that writes standard input, with `written_text`, or that reads it
/// twice. Returns `None` if it does neither.
pub fn misuse_error(
    alloc: Global,
    subcommand: Subcommand,
    is_written: bool,
    written_text: &str,
    is_twice: bool,
) -> Result<Option<Error>, AllocError>
    ensures { IfOk result (λ found. option_map kind_of found ≡ misuse_kind is_written is_twice) }
{
    let (kind, text) = if is_written {
        (ErrorKind::InvalidValue, written_text)
    } else if is_twice {
        (ErrorKind::ArgumentConflict, fault_texts::TWICE)
    } else {
        return Ok(None);
    };
    Ok(Some(subcommand_error(alloc, subcommand, kind, text)?))
}

fn escaped_words<S: AsStr>(alloc: Global, words: &[S]) -> Result<Vec<String>, AllocError> {
    let mut escaped = Vec::new(alloc);
    for word in words {
        let word = format!(in alloc; "{}", Escaped(word.as_str()))?;
        escaped.push(word)?;
    }
    Ok(escaped)
}
