//! The longest file that the system lets this program write, as `ulimit -f` sets it.
//!
//! A write past that limit ends a program by a signal in the middle of its work. The standard
//! library can't change what a signal does. Therefore such a write is refused here before it
//! reaches the system, with the error that the system returns if the signal is ignored. The limit
//! and the position of an output are read below `/proc`. On a system without it, nothing is
//! refused.

ghost use Rattle.std.specs.Prelude.{◌+◌, ◌<◌, ◌≤◌, IfSome, IsSome, OnErr, OnOk};

use arrayvec::ArrayVec;
use std::fs::File;
use std::io::ErrorKind;
use std::rt::Files;
use std::{fs, io, str};

/// The longest text that is read below `/proc`, in bytes.
const TEXT: usize = 1 << 12;

/// The flag of an open file whose writes go to its end.
const APPENDING: u64 = 0o2000;

/// Returns the length in bytes past which this program may not write a file, if there is such a
/// limit.
pub fn most_bytes<R: Files>(runtime: &R) -> Option<u64> {
    let text = text_of(runtime, "/proc/self/limits").ok()?;
    word_after(&text, "Max file size")?.parse().ok()
}

/// Refuses a write of `count` bytes from byte `at` of a file on if it ends past `most`.
pub fn refuse_past(most: Option<u64>, at: u64, count: usize) -> io::Result<()>
    ensures within { OnOk result (IfSome most (λ bytes. at + count ≤ bytes)) }
    ensures limited { OnErr result (IsSome most) }
    ensures past { OnErr result (IfSome most (λ bytes. bytes < at + count)) }
{
    match most {
        Some(most) if at > most || count as u64 > most - at => {
            Err(io::Error::from(ErrorKind::FileTooLarge))
        }
        _ => Ok(()),
    }
}

/// Finds out how many more bytes an output of the program accepts.
#[derive(Drop)]
pub struct Room<R> {
    runtime: R,
    output: OutputFile,
    most: Option<u64>,
}

/// The names by which the system describes the file of an output.
#[derive(Clone, Copy)]
pub struct OutputFile {
    /// Another name of the file.
    name: &'static str,
    /// The text with its position and its flags.
    info: &'static str,
}

/// The file that standard output is.
pub const STANDARD_OUTPUT: OutputFile = OutputFile {
    name: "/proc/self/fd/1",
    info: "/proc/self/fdinfo/1",
};

/// The file that standard error is.
pub const STANDARD_ERROR: OutputFile = OutputFile {
    name: "/proc/self/fd/2",
    info: "/proc/self/fdinfo/2",
};

impl<R: Files> Room<R> {
    /// Creates the room of an output. An output that isn't a plain file has no limit.
    pub fn of(runtime: R, output: OutputFile) -> Self {
        let most = match fs::metadata(&runtime, output.name) {
            Ok(found) if found.is_file() => most_bytes(&runtime),
            _ => None,
        };
        Room {
            runtime,
            output,
            most,
        }
    }

    /// Returns how many more bytes it accepts. Other programs may write to it meanwhile.
    pub fn left(&self) -> u64 {
        match (self.most, self.position()) {
            (Some(most), Some(at)) => most.saturating_sub(at),
            _ => u64::MAX,
        }
    }

    /// Returns where the next write begins, if that is known and there is a limit.
    fn position(&self) -> Option<u64> {
        self.most?;
        let text = text_of(&self.runtime, self.output.info).ok()?;
        let flags = u64::from_str_radix(word_after(&text, "flags:")?, 8).ok()?;
        if flags & APPENDING != 0 {
            return Some(fs::metadata(&self.runtime, self.output.name).ok()?.len());
        }
        word_after(&text, "pos:")?.parse().ok()
    }
}

/// Reads a short text of the system.
fn text_of<R: Files>(runtime: &R, name: &str) -> io::Result<ArrayVec<u8, TEXT>> {
    let mut text = ArrayVec::new();
    io::copy(&mut File::open(runtime, name)?, &mut text)?;
    Ok(text)
}

/// Returns the first word after a label with which a line of a text begins.
fn word_after<'a>(text: &'a [u8], label: &str) -> Option<&'a str> {
    for line in str::from_utf8(text).ok()?.lines() {
        if let Some(rest) = line.strip_prefix(label) {
            return rest.split_whitespace().next();
        }
    }
    None
}
