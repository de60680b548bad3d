//! A source of a host as a reader.

ghost use Rattle.std.specs.Prelude.{◌≡◌, OnOk};
ghost use Rattle.host.specs.Input.{held_by};

use crate::error::Refusal;
use crate::host::Host;
use crate::source::Source;
use std::alloc::Global;
use std::io;
use std::io::Read;

/// The stream of a host, as a reader.
#[derive(Drop)]
pub struct Stream<'a, H> {
    /// The host whose stream it is.
    pub host: &'a mut H,
}

impl<H: Host> Read for Stream<'_, H> {
    ghost remaining = { λ it. H.stream it.host.now };

    fn read(&mut self, buf: &mut [u8]) -> io::Result<usize> {
        self.host.read_stream(buf)
    }
}

/// Opens a source as the stream of a host, to be read piece by piece.
///
/// # Errors
/// The refusal of a source that can't be read.
pub fn open_stream<H: Host>(alloc: Global, source: Source<'_>, host: &mut H) -> Result<(), Refusal>
    ensures { OnOk result
        (H.stream host.new ≡ held_by source.entry (H.input host.old) (H.file host.old)) }
{
    match host.open_stream(source) {
        Ok(()) => Ok(()),
        Err(error) => Err(source.refusal(alloc, error)),
    }
}
