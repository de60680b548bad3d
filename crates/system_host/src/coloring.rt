//! Colors the words `error:` and `note:` at the start of lines on standard error.

ghost use Rattle.std.specs.Prelude.{◌≤◌, IfOk, length};

use std::convert::AsStr;
use std::env::VarError;
use std::io::Write;
use std::rt::Env;
use std::{env, io};

/// Ends a color.
const PLAIN: &[u8] = b"\x1b[0m";

/// Clears a line of progress, after which the next line starts.
const CLEARED: &[u8] = b"\r\x1b[K";

/// When messages are colored.
#[derive(Clone, Copy)]
pub enum Coloring {
    Always,
    Never,
    /// If standard error is a terminal that shows colors, and the user didn't turn them off.
    Auto,
}

/// A word that is colored at the start of a line.
#[derive(Clone, Copy)]
enum Label {
    Error,
    Note,
}

/// A writer that colors the words `error:` and `note:` at the start of each line.
#[derive(Drop)]
pub struct Colored<'a, W> {
    to: &'a mut W,
    is_colored: bool,
    /// Whether the next byte is the first of a line.
    at_start: bool,
}

/// Returns the value of `--color` among the arguments, of which the first is the program's own name.
/// Without the option it is `Auto`. Returns `None` if the value isn't valid.
pub fn coloring_in<S: AsStr>(words: &[S]) -> Option<Coloring> {
    let mut coloring = Coloring::Auto;
    let mut is_value = false;
    for word in words {
        let word = word.as_str();
        if is_value {
            return coloring_of(word);
        }
        if word == "--" {
            return Some(coloring);
        }
        is_value = word == "--color";
        if let Some(value) = word.strip_prefix("--color=") {
            coloring = coloring_of(value)?;
        }
    }
    Some(coloring)
}

/// Reads a value of `--color`.
fn coloring_of(value: &str) -> Option<Coloring> {
    match value {
        "always" => Some(Coloring::Always),
        "never" => Some(Coloring::Never),
        "auto" => Some(Coloring::Auto),
        _ => None,
    }
}

/// Returns whether messages are colored. `is_terminal` says whether standard error is a terminal.
///
/// `Auto` reads the environment: no colors if `NO_COLOR` is set and not empty, or if `TERM` is
/// `dumb`. A variable that can't be read turns them off.
pub fn is_colored(rt: &(impl Env + AllocGlobal), coloring: Coloring, is_terminal: bool) -> bool {
    match coloring {
        Coloring::Always => true,
        Coloring::Never => false,
        Coloring::Auto => is_terminal && !are_off(rt) && !is_dumb(rt),
    }
}

/// Returns whether `NO_COLOR` is set and not empty.
fn are_off(rt: &(impl Env + AllocGlobal)) -> bool {
    match env::var(rt, "NO_COLOR") {
        Ok(value) => !value.is_empty(),
        Err(error) => !matches!(error, VarError::NotPresent),
    }
}

/// Returns whether `TERM` names a terminal without colors.
fn is_dumb(rt: &(impl Env + AllocGlobal)) -> bool {
    match env::var(rt, "TERM") {
        Ok(value) => value.as_str() == "dumb",
        Err(error) => !matches!(error, VarError::NotPresent),
    }
}

impl Label {
    /// Returns the label with which these bytes begin.
    fn of(bytes: &[u8]) -> Option<Label> {
        if bytes.starts_with(Label::Error.word()) {
            return Some(Label::Error);
        }
        if bytes.starts_with(Label::Note.word()) {
            return Some(Label::Note);
        }
        None
    }

    /// Returns its bytes.
    fn word(self) -> &'static [u8] {
        match self {
            Label::Error => b"error:",
            Label::Note => b"note:",
        }
    }

    /// Returns the sequence that begins its color: bold red, or bold cyan.
    fn color(self) -> &'static [u8] {
        match self {
            Label::Error => b"\x1b[1;31m",
            Label::Note => b"\x1b[1;36m",
        }
    }
}

impl<'a, W: Write> Colored<'a, W> {
    /// A writer that passes everything on to `to`, with colors if `is_colored` is set.
    pub fn over(to: &'a mut W, is_colored: bool) -> Self {
        Colored {
            to,
            is_colored,
            at_start: true,
        }
    }

    /// Writes the label with which these bytes begin, in its color.
    fn write_label(&mut self, label: Label, bytes: &[u8]) -> io::Result<usize>
        ensures { IfOk result (λ count. count ≤ length bytes.now) }
    {
        self.to.write_all(label.color())?;
        self.to.write_all(label.word())?;
        self.to.write_all(PLAIN)?;
        self.at_start = false;
        Ok(label.word().len().min(bytes.len()))
    }

    /// Writes a prefix of these bytes, which don't begin with a label: at most one line.
    fn write_line(&mut self, bytes: &[u8]) -> io::Result<usize>
        ensures { IfOk result (λ count. count ≤ length bytes.now) }
    {
        let line = first_line(bytes);
        let count = self.to.write(line)?;
        if count > 0 {
            self.at_start = count >= line.len()
                && (line.ends_with(b"\n") || line.ends_with(CLEARED));
        }
        Ok(count)
    }
}

/// Returns the first line of these bytes, with its line feed.
fn first_line(bytes: &[u8]) -> &[u8]
    ensures { length result.now ≤ length bytes.now }
{
    match bytes.iter().position(|byte| *byte == b'\n') {
        Some(place) => &bytes[..place + 1],
        None => bytes,
    }
}

impl<W: Write> Write for Colored<'_, W> {
    fn write(&mut self, bytes: &[u8]) -> io::Result<usize> {
        if !self.is_colored {
            return self.to.write(bytes);
        }
        if self.at_start {
            if let Some(label) = Label::of(bytes) {
                return self.write_label(label, bytes);
            }
        }
        self.write_line(bytes)
    }

    fn flush(&mut self) -> io::Result<()> {
        self.to.flush()
    }
}
