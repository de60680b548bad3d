//! Writes the flash of a run to the host's file.

use host::Host;
use inputs::FlashFile;
use std::io;

/// The flash file that a host opened last.
#[derive(Drop)]
pub struct HostFile<'a, H> {
    /// The host that opened the file.
    pub host: &'a H,
}

impl<H: Host> FlashFile for HostFile<'_, H> {
    fn write_at(&mut self, at: u32, bytes: &[u8]) -> io::Result<()> {
        self.host.write_flash(u64::from(at), bytes)
    }
}
