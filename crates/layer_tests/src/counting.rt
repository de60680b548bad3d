//! A flash that counts the bytes that are read.

use flash_model::{Flash, Result};

/// A flash over another one that counts the bytes that are read in a part of it: of all calls, and
/// of the longest call.
#[derive(Drop)]
pub(crate) struct Counting<F> {
    flash: F,
    from: u32,
    to: u32,
    pub(crate) read: u64,
    pub(crate) most: usize,
}

impl<F: Flash> Counting<F> {
    /// A flash over another one. It counts the reads that touch the bytes from the address `from` to
    /// before `to`, and has counted none.
    pub(crate) fn new(flash: F, from: u32, to: u32) -> Self {
        Counting {
            flash,
            from,
            to,
            read: 0,
            most: 0,
        }
    }
}

impl<F: Flash> Flash for Counting<F> {
    ghost chip = { λ counting. F.chip counting.flash };

    ghost whole = { λ counting. F.whole counting.flash };

    ghost addressed = { λ counting. F.addressed counting.flash };

    ghost bytes = { λ counting. F.bytes counting.flash };

    ghost armed = { λ counting. F.armed counting.flash };

    ghost written = { λ counting. F.written counting.flash };

    fn sector_size(&self) -> u32 {
        self.flash.sector_size()
    }

    fn sectors(&self) -> u32 {
        self.flash.sectors()
    }

    fn read(&mut self, at: u32, out: &mut [u8]) -> Result<()> {
        if at < self.to && at as usize + out.len() > self.from as usize {
            self.read = self.read.saturating_add(out.len() as u64);
            self.most = self.most.max(out.len());
        }
        self.flash.read(at, out)
    }

    fn program(&mut self, at: u32, bytes: &[u8]) -> Result<()> {
        self.flash.program(at, bytes)
    }

    fn erase(&mut self, sector: u32) -> Result<()> {
        self.flash.erase(sector)
    }

    fn restart(&mut self) {
        self.flash.restart();
    }
}
