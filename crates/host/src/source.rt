//! Where a command reads its input, as its arguments name it.
ghost use Rattle.std.specs.Prelude.{◌≡◌, ◌≤◌, IfErr, IfOk, None, OnOk, false, length};
ghost use Rattle.host.specs.Doings.{IsApartFrom};
ghost use Rattle.host.specs.Input.{Gives, IsNamed, KeepsFiles, KeepsOthers, is_standard_input};
ghost use Rattle.host.specs.ScriptLines.{script_line};
ghost use Rattle.host.specs.Status.{status_of_refusal};

use crate::error::{NamedText, Refusal, SourceFault, SourceRefusal};
use crate::host::Host;
use crate::limits::MOST_FILE;
use common::texts::{Escaped, STANDARD_INPUT};
use std::alloc::Global;
use std::io::ErrorKind;
use std::{fmt, io};

/// An input of a command.
#[derive(Clone, Copy)]
pub enum Source<'a> {
    /// Standard input.
    StandardInput,
    /// The file of this name.
    File(&'a str),
}

impl<'a> Source<'a> {
    /// Returns the source that a word names: `-` is standard input, and any other word is the name
    /// of a file.
    pub fn named(word: &'a str) -> Self
        ensures { IsNamed word.now result }
    {
        if word == STANDARD_INPUT {
            Source::StandardInput
        } else {
            Source::File(word)
        }
    }

    /// Returns whether this is standard input.
    pub fn is_standard_input(self) -> bool
        ensures { result ≡ is_standard_input self.entry }
    {
        matches!(self, Source::StandardInput)
    }

    /// Reads all its bytes, at most `most`, from `host` into memory of `alloc`.
    pub fn read<H: Host>(self, alloc: Global, host: &mut H, most: u32) -> Result<Vec<u8>, Refusal>
        ensures bytes { IfOk result (λ bytes.
            Gives self.entry (H.input host.old) (H.file host.old) bytes.items) }
        ensures others { KeepsOthers self.entry (H.input host.old) (H.file host.old)
            (H.input host.new) (H.file host.new) }
        ensures files { KeepsFiles (H.file host.old) (H.file host.new) }
        ensures opened { H.opened host.new ≡ H.opened host.old }
        ensures refused { IfErr result (λ refusal. script_line refusal ≡ None) }
    {
        let bytes = self.read_start(alloc, host, most)?;
        if bytes.len() > most as usize {
            return Err(self.refused(alloc, SourceFault::TooLong(most)));
        }
        Ok(bytes)
    }

    /// Reads its bytes from `host` into memory of `alloc`. Returns all of them if there are at most
    /// `most`, and else the first `most + 1`. No others are read.
    pub fn read_start<H: Host>(
        self,
        alloc: Global,
        host: &mut H,
        most: u32,
    ) -> Result<Vec<u8>, Refusal>
        ensures bytes { IfOk result (λ bytes. length bytes.items ≤ most
            → Gives self.entry (H.input host.old) (H.file host.old) bytes.items) }
        ensures others { KeepsOthers self.entry (H.input host.old) (H.file host.old)
            (H.input host.new) (H.file host.new) }
        ensures files { KeepsFiles (H.file host.old) (H.file host.new) }
        ensures opened { H.opened host.new ≡ H.opened host.old }
        ensures refused { IfErr result (λ refusal. script_line refusal ≡ None) }
    {
        let read = match self {
            Source::StandardInput => host.read_input(alloc, most),
            Source::File(name) => host.read_file(alloc, name, most),
        };
        match read {
            Ok(bytes) => Ok(bytes),
            Err(error) => Err(self.refusal(alloc, error)),
        }
    }

    /// Returns whether this source is the file of this name, also if it is read by another name.
    pub fn is_file<H: Host>(self, host: &H, name: &str) -> io::Result<bool>
        ensures { IfOk result (λ is. is ≡ false
            → IsApartFrom (H.apart host.now) name.now self.entry) }
    {
        match self {
            Source::StandardInput => host.is_input(name),
            Source::File(other) if other == name => Ok(true),
            Source::File(other) => host.is_same_file(other, name),
        }
    }

    /// Returns the word that names it.
    fn name(self) -> &'a str {
        match self {
            Source::StandardInput => STANDARD_INPUT,
            Source::File(name) => name,
        }
    }

    /// Returns the refusal for this fault of the source. Its name is copied into memory of `alloc`.
    /// If memory runs out, the refusal says so instead.
    pub fn refused(self, alloc: Global, fault: SourceFault) -> Refusal
        ensures status { status_of_refusal result ≡ 1 }
        ensures other { script_line result ≡ None }
    {
        match String::from_str(alloc, self.name()) {
            Ok(name) => Refusal::OfSource(SourceRefusal {
                name,
                fault,
                script: None,
            }),
            Err(_) => Refusal::NoMemory,
        }
    }

    /// Returns the refusal of a text of this source that is no device file. The source's name is copied
    /// into memory of `alloc`. If memory runs out, the refusal says so instead.
    pub fn no_device_file(self, alloc: Global, text: Vec<u8>) -> Refusal
        ensures status { status_of_refusal result ≡ 1 }
        ensures other { script_line result ≡ None }
    {
        match String::from_str(alloc, self.name()) {
            Ok(name) => Refusal::DeviceFile(NamedText { name, text }),
            Err(_) => Refusal::NoMemory,
        }
    }

    /// Returns the refusal for a read of this source that failed for this reason. An error of kind
    /// `FileTooLarge` means that a part of the source lies past [`MOST_FILE`] bytes. The name is
    /// copied into memory of `alloc`.
    pub fn refusal(self, alloc: Global, error: io::Error) -> Refusal
        ensures status { status_of_refusal result ≡ 1 }
        ensures other { script_line result ≡ None }
    {
        match error.kind() {
            ErrorKind::OutOfMemory => Refusal::NoMemory,
            ErrorKind::FileTooLarge => self.refused(alloc, SourceFault::TooLong(MOST_FILE)),
            _ => self.refused(alloc, SourceFault::CannotRead(error)),
        }
    }
}

/// Refuses a file that is to be made if it is this input, by any name. Texts are in memory of `alloc`.
///
/// # Errors
/// `is_input` if it is this input. If that can't be told, `CannotReplace` of the file.
pub fn refuse_input<H: Host>(
    alloc: Global,
    host: &H,
    file: &str,
    source: Source<'_>,
    is_input: Refusal,
) -> Result<(), Refusal>
    ensures { OnOk result (IsApartFrom (H.apart host.now) file.now source.entry) }
{
    match source.is_file(host, file) {
        Ok(false) => Ok(()),
        Ok(true) => Err(is_input),
        Err(error) => Err(Source::File(file).refused(
            alloc,
            SourceFault::CannotReplace(Some(error)),
        )),
    }
}

/// Writes the name with its control characters escaped.
impl fmt::Display for Source<'_> {
    fn fmt<W: fmt::Write>(&self, f: &mut fmt::Formatter<W>) -> fmt::Result {
        match self {
            Source::StandardInput => f.write_str(STANDARD_INPUT),
            Source::File(name) => write!(f, "{}", Escaped(name)),
        }
    }
}
