//! Prints help and usage faults: the answers to arguments that give no order.

ghost use Rattle.std.specs.Prelude.{◌≡◌, ◌⊎◌, IfOk, MatchResult};
ghost use Rattle.clap.specs.Words.{kind_of};
ghost use Rattle.command_line.specs.Status.{EndsWords, is_help, status_of_fault};

use clap::error::ErrorKind;
use command_line::{OrderError, fault_of, no_text, program_error};
use host::{Refusal, refuse, status_after};
use std::alloc::Global;
use std::convert::AsStr;
use std::io::Write;
use std::rt::Env;
use std::{env, io};

/// The exit status after help or the version was printed.
const HELPED: u8 = 0;

/// The exit status after a fault in the arguments.
const USAGE: u8 = 2;

/// The exit status if the answer could not be written.
const NOT_WRITTEN: u8 = 1;

/// The text of a value of `--color` that isn't valid.
const NO_COLORING: &str = "`--color` is `always`, `never` or `auto`";

/// Returns the arguments, the program's own name first, in memory of `rt`.
///
/// # Errors
/// `OutOfMemory` if memory is refused, another kind if the arguments can't be read as text.
pub fn words_of(rt: &(impl Env + AllocGlobal)) -> io::Result<Vec<String>> {
    Ok(env::args(rt)?.collect(rt.alloc())?)
}

/// Prints the answer to arguments that give no order, and returns the exit status.
///
/// Help and the version go to `out`, with status 0. A fault in the arguments goes to `err`, with
/// status 2. The status is 1 if memory ran out or the answer could not be written.
pub fn answer_words<S: AsStr, O: Write, E: Write>(
    alloc: Global,
    words: &[S],
    error: OrderError,
    out: &mut O,
    err: &mut E,
) -> u8
    ensures { EndsWords error result }
{
    match error {
        OrderError::NoMemory => refuse(&Refusal::NoMemory, err),
        OrderError::Usage(answer) => {
            if is_help(&answer) {
                status_after(write_text(&answer, out), HELPED)
            } else {
                status_of_written(write_fault(&fault_of(alloc, words, answer), err))
            }
        }
    }
}

/// Whether this answer of `clap` is help or the version.
fn is_help(answer: &clap::Error) -> bool
    ensures { result ≡ is_help (kind_of answer.now) }
{
    matches!(
        answer.kind(),
        ErrorKind::DisplayHelp | ErrorKind::DisplayVersion
    )
}

/// Reports that the arguments could not be read, and returns the exit status: 1 if memory ran out
/// or the report could not be written, 2 if the arguments aren't text. The report is in memory of
/// `alloc`.
pub fn refuse_words<E: Write>(alloc: Global, error: &io::Error, err: &mut E) -> u8
    ensures { (result ≡ 2) ⊎ (result ≡ 1) }
{
    match error.kind() {
        io::ErrorKind::OutOfMemory => refuse(&Refusal::NoMemory, err),
        _ => status_of_written(write_fault(&no_text(alloc), err)),
    }
}

/// Reports that the value of `--color` isn't valid, and returns the exit status: 2, or 1 if memory ran
/// out or the report could not be written. The report is in memory of `alloc`.
pub fn refuse_coloring<E: Write>(alloc: Global, err: &mut E) -> u8
    ensures { (result ≡ 2) ⊎ (result ≡ 1) }
{
    let error = match program_error(alloc, ErrorKind::InvalidValue, NO_COLORING) {
        Ok(error) => OrderError::from(error),
        Err(error) => OrderError::from(error),
    };
    status_of_written(write_fault(&error, err))
}

/// Writes a fault in the arguments, or that memory ran out, and returns the exit status.
fn write_fault<E: Write>(error: &OrderError, err: &mut E) -> io::Result<u8>
    ensures { IfOk result (λ status. status ≡ status_of_fault error.now) }
{
    match error {
        OrderError::NoMemory => Ok(refuse(&Refusal::NoMemory, err)),
        OrderError::Usage(answer) => {
            write_text(answer, err)?;
            Ok(USAGE)
        }
    }
}

/// The exit status after this write: the one that it returned, or 1 if it failed.
fn status_of_written(written: io::Result<u8>) -> u8
    ensures { MatchResult written (λ status. result ≡ status) (λ _. result ≡ 1) }
{
    written.unwrap_or(NOT_WRITTEN)
}

fn write_text<W: Write>(answer: &clap::Error, to: &mut W) -> io::Result<()> {
    write!(to, "{answer}")?;
    to.flush()
}
