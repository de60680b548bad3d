//! The system as the host of a command.

ghost use Rattle.std.specs.Prelude.{◌≡◌, IfOk, length};
ghost use Rattle.system_host.specs.Streams.{stream_of};

use crate::holding::HeldFile;
use crate::replacing::HeldOutput;
use crate::{file_reading, holding, replacing};
use host::{Access, FilePart, FlashFault, Host, Replaced, Source};
use std::alloc::Global;
use std::fs::File;
use std::io;
use std::io::{ErrorKind, Read};
use std::os::unix::fs::FileExt;
use std::random::RandomSource;
use std::rt::Files;
use std::time::Clock;

/// The name by which Linux leads to the file or pipe that is standard input. It leads nowhere if
/// standard input is closed, and on a system without `/proc`. Then standard input isn't known to be
/// a file that a command names.
const INPUT: &str = "/proc/self/fd/0";

/// The system that the program runs on: its files, and its standard input as a reader.
#[derive(Drop)]
pub struct SystemHost<'a, R: Files, I: Read> {
    runtime: &'a R,
    input: I,
    is_watched: bool,
    flash: Option<HeldFile>,
    /// The file that is to be made or replaced, if it was looked up.
    output: Option<HeldOutput>,
    /// The file that is the stream. Without one, standard input is.
    stream: Option<File>,
}

impl<'a, R: Files, I: Read> SystemHost<'a, R, I> {
    /// Creates a host with the files and the clock of `runtime`, and `input` as standard input.
    /// `is_watched` says whether standard error is a terminal.
    pub fn new(runtime: &'a R, input: I, is_watched: bool) -> Self {
        SystemHost {
            runtime,
            input,
            is_watched,
            flash: None,
            output: None,
            stream: None,
        }
    }

    /// Returns what was found where a file of this name is to be made or replaced, if it was looked
    /// up.
    fn output_of(&self, name: &str) -> Option<&HeldOutput> {
        match &self.output {
            Some(held) if held.is_of(name) => Some(held),
            _ => None,
        }
    }
}

impl<R: Files<File = File> + Clock + RandomSource, I: Read> Host for SystemHost<'_, R, I> {
    ghost input = { λ host. I.remaining host.input };

    ghost stream = { λ host. stream_of I.remaining host.stream host.input };

    fn read_file(&mut self, alloc: Global, name: &str, most: u32) -> io::Result<Vec<u8>> {
        file_reading::read_start(self.runtime, alloc, name, most)
    }

    fn read_input(&mut self, alloc: Global, most: u32) -> io::Result<Vec<u8>> {
        file_reading::read_input(alloc, &mut self.input, most)
    }

    fn open_stream(&mut self, source: Source<'_>) -> io::Result<()> {
        self.stream = match source {
            Source::StandardInput => None,
            Source::File(name) => Some(File::open(self.runtime, name)?),
        };
        Ok(())
    }

    fn read_stream(&mut self, buffer: &mut [u8]) -> io::Result<usize> {
        match &mut self.stream {
            Some(file) => file.read(buffer),
            None => self.input.read(buffer),
        }
    }

    fn read_again(&self, alloc: Global, name: &str, most: u32) -> io::Result<Vec<u8>> {
        match self.output_of(name) {
            Some(held) => held.read_start(alloc, most),
            None => file_reading::read_start(self.runtime, alloc, name, most),
        }
    }

    fn read_part(&self, alloc: Global, name: &str, part: FilePart) -> io::Result<Option<Vec<u8>>> {
        file_reading::read_part(self.runtime, alloc, name, part)
    }

    fn is_plain(&self, name: &str) -> io::Result<bool> {
        match self.output_of(name) {
            Some(held) => held.is_plain(),
            None => file_reading::is_plain(self.runtime, name),
        }
    }

    fn length_of(&self, name: &str) -> io::Result<u64> {
        match self.output_of(name) {
            Some(held) => held.length(self.runtime),
            None => holding::length_of_name(self.runtime, name),
        }
    }

    fn is_same_file(&self, one: &str, other: &str) -> io::Result<bool> {
        match self.output_of(other) {
            Some(held) => held.is_file(self.runtime, one),
            None => replacing::is_same_file(self.runtime, one, other),
        }
    }

    fn is_input(&self, name: &str) -> io::Result<bool> {
        self.is_same_file(INPUT, name)
    }

    fn hold_output(
        &mut self,
        alloc: Global,
        name: &str,
        replaced: Replaced,
    ) -> Result<(), FlashFault> {
        self.output = None;
        self.output = Some(replacing::hold(self.runtime, alloc, name, replaced)?);
        Ok(())
    }

    fn open_flash(
        &mut self,
        alloc: Global,
        name: &str,
        length: u64,
        access: Access,
    ) -> Result<Vec<u8>, FlashFault> {
        let held = holding::open(self.runtime, alloc, name, length, access)?;
        let bytes = flash_bytes(alloc, &held.file, length)?;
        self.flash = Some(held);
        Ok(bytes)
    }

    fn write_flash(&self, at: u64, bytes: &[u8]) -> io::Result<()> {
        match &self.flash {
            Some(held) => held.write(at, bytes),
            None => Err(io::Error::from(ErrorKind::NotFound)),
        }
    }

    fn sync_flash(&mut self) -> io::Result<()> {
        match &self.flash {
            Some(held) => held.sync(self.runtime),
            None => Ok(()),
        }
    }

    fn replace_file(
        &mut self,
        alloc: Global,
        name: &str,
        bytes: &[u8],
        replaced: Replaced,
    ) -> Result<(), FlashFault> {
        let held = match self.output.take() {
            Some(held) if held.is_of(name) => held,
            _ => replacing::hold(self.runtime, alloc, name, replaced)?,
        };
        held.replace(self.runtime, alloc, bytes)
    }

    fn watched_seconds(&self) -> Option<u64> {
        if !self.is_watched {
            return None;
        }
        Some(self.runtime.monotonic().ok()?.as_secs())
    }
}

/// Reads the `count` bytes of a flash file.
fn flash_bytes(alloc: Global, file: &File, count: u64) -> Result<Vec<u8>, FlashFault>
    ensures { IfOk result (λ bytes. length bytes.items ≡ count) }
{
    let Ok(mut bytes) = vec![in alloc; 0; count as usize] else {
        return Err(FlashFault::NoMemory);
    };
    match file.read_exact_at(&mut bytes, 0) {
        Ok(()) => Ok(bytes),
        Err(error) => Err(FlashFault::Failed(error)),
    }
}
