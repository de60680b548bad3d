//! Prints the requested page or script.
ghost use Rattle.std.specs.Prelude.{◌≡◌, ◌⊎◌, if◌then◌else◌};
ghost use Rattle.arguments.specs.Asked.{is_known};

use crate::manual::asked::{Asked, Topic};
use crate::manual::page::{add_command_page, add_program_page};
use crate::manual::scripts::add_script;
use crate::manual::text_builder::TextBuilder;
use clap::Error;
use clap::error::ErrorKind;
use command_line::{Subcommand, code_groups, code_list_text, program_error, subcommand_error};
use common::texts::Escaped;
use host::{Refusal, refuse, status_after};
use std::alloc::{AllocError, Global};
use std::io;
use std::io::Write;

/// The exit status after a page or script was printed.
const PRINTED: u8 = 0;

/// The exit status after a fault in the arguments.
const USAGE: u8 = 2;

/// What `help help` prints: what `clap` prints of the command `help`, and the topics.
const TOPICS: &str = "Print this message or the help of the given subcommand(s)

Usage: bootswap help [COMMAND]...
       bootswap help man [COMMAND]
       bootswap help completions <SHELL>

Arguments:
  [COMMAND]...  Print help for the subcommand(s)
  man           Print the manual page of the program or of a command
  completions   Print the completion script for bash, zsh or fish
";

/// The fault of arguments that name no shell.
const NO_SHELL: &str = "`help completions` needs the name of a shell: bash, zsh or fish";

/// Prints the requested page or script, and returns the exit status.
///
/// A page or a script goes to `out`, with status 0. A name that isn't known is reported to `err`,
/// with status 2. The status is 1 if memory ran out or the answer could not be written. The text is
/// in memory of `alloc`.
pub fn answer<O: Write, E: Write>(alloc: Global, asked: Asked<'_>, out: &mut O, err: &mut E) -> u8
    ensures { (result ≡ (if is_known asked.entry then 0 else 2)) ⊎ (result ≡ 1) }
{
    match asked {
        Asked::Known(topic) => answer_text(text_of(alloc, topic), out, err),
        Asked::Unknown(name) => answer_fault(unknown(alloc, None, name), err),
        Asked::TooMany(command, name) => answer_fault(unknown(alloc, Some(command), name), err),
        Asked::NoShell => answer_fault(
            program_error(alloc, ErrorKind::MissingRequiredArgument, NO_SHELL),
            err,
        ),
    }
}

/// Returns the text of a topic.
fn text_of(alloc: Global, topic: Topic) -> Result<String, AllocError> {
    let mut text = TextBuilder::new(alloc);
    match topic {
        Topic::List => text.add(TOPICS),
        Topic::ProgramPage => add_program_page(&mut text),
        Topic::CommandPage(command) => {
            let list = code_list_text(alloc, &code_groups())?;
            add_command_page(&mut text, command, list.as_str());
        }
        Topic::Script(shell) => add_script(&mut text, shell),
    }
    text.finish()
}

/// Returns the fault of a name that isn't known, as `clap` words it for `help`. The name may come
/// after that of a command.
fn unknown(alloc: Global, command: Option<Subcommand>, name: &str) -> Result<Error, AllocError> {
    let kind = ErrorKind::InvalidSubcommand;
    let text = format!(in alloc; "unrecognized subcommand '{}'", Escaped(name))?;
    match command {
        Some(command) => subcommand_error(alloc, command, kind, text.as_str()),
        None => program_error(alloc, kind, text.as_str()),
    }
}

/// Writes a text, or that memory ran out, and returns the exit status.
fn answer_text<O: Write, E: Write>(text: Result<String, AllocError>, out: &mut O, err: &mut E) -> u8
    ensures { (result ≡ 0) ⊎ (result ≡ 1) }
{
    match text {
        Ok(text) => status_after(write_all(text.as_str(), out), PRINTED),
        Err(_) => refuse(&Refusal::NoMemory, err),
    }
}

/// Writes a fault in the arguments, or that memory ran out, and returns the exit status.
fn answer_fault<E: Write>(fault: Result<Error, AllocError>, err: &mut E) -> u8
    ensures { (result ≡ 2) ⊎ (result ≡ 1) }
{
    match fault {
        Ok(fault) => status_after(write_fault(&fault, err), USAGE),
        Err(_) => refuse(&Refusal::NoMemory, err),
    }
}

fn write_all<O: Write>(text: &str, out: &mut O) -> io::Result<()> {
    out.write_all(text.as_bytes())?;
    out.flush()
}

fn write_fault<E: Write>(fault: &Error, err: &mut E) -> io::Result<()> {
    write!(err, "{fault}")?;
    err.flush()
}
