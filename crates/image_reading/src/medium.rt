//! The media from which images are read: bytes in memory, or a flash.

ghost use Rattle.std.specs.Prelude.{◌≡◌, ◌<◌, ℕ, length, slice_index};
ghost use Rattle.flash_model.specs.Chip.{Chip};
ghost use Rattle.sha2.specs.Sha256.{sha256};
ghost use Rattle.image_reading.specs.Span.{CanRead, bytes_of};

use crate::span::Span;
use flash_model::Flash;
use sha2::{Digest, Sha256};

/// The length in bytes of the pieces in which a flash is hashed.
const PIECE_LENGTH: usize = 256;

/// A medium from which an image is read, span by span. Contracts see bytes in memory as a flash
/// that is always on.
pub(crate) trait Medium {
    ghost chip: { Self → Chip };

    /// Reads a span into `out`, which has the span's length.
    fn read(&mut self, span: Span, out: &mut [u8])
        requires readable { CanRead (chip self.old) span }
        requires whole { length out.old ≡ span.len }
        ensures same { chip self.new ≡ chip self.old }
        ensures read { out.new ≡ bytes_of (chip self.old) span };

    /// The SHA-256 of a span, which is read in pieces.
    fn digest(&mut self, span: Span) -> [u8; 32]
        requires { CanRead (chip self.old) span }
        ensures same { chip self.new ≡ chip self.old }
        ensures digest { result ≡ sha256 (bytes_of (chip self.old) span) }
    {
        let mut buffer = [0; PIECE_LENGTH];
        let mut hasher = Sha256::new();
        let mut rest = span;
        while rest.len > 0 {
            let size = rest.len.min(PIECE_LENGTH);
            let piece = &mut buffer[..size];
            self.read(rest.first(size), piece);
            hasher.update(&buffer[..size]);
            rest = rest.after(size);
        }
        hasher.finalize()
    }

    /// A byte is below 256.
    ghost bytes: { (medium : Self) (k : ℕ) → slice_index (chip medium).bytes k < 256 };
}

/// Bytes in memory.
#[derive(Drop)]
pub(crate) struct Memory<'a> {
    pub(crate) bytes: &'a [u8],
    ghost are_bytes: { (k : ℕ) → slice_index bytes.now k < 256 },
}

impl<'a> Medium for Memory<'a> {
    ghost use Rattle.image_reading.specs.Memory.{chip_of_memory};

    ghost chip = { chip_of_memory };

    ghost bytes = { λ memory. memory.are_bytes };

    fn read(&mut self, span: Span, out: &mut [u8]) {
        out.copy_from_slice(&self.bytes[span.at..span.at + span.len]);
    }

    fn digest(&mut self, span: Span) -> [u8; 32] {
        Sha256::digest(&self.bytes[span.at..span.at + span.len])
    }
}

impl<F: Flash> Medium for F {
    ghost chip = { λ flash. F.chip flash };

    ghost bytes = { λ flash. F.bytes flash };

    fn read(&mut self, span: Span, out: &mut [u8]) {
        // A span can be read only from a flash that is on, and no read of such a flash fails.
        match Flash::read(self, span.at as u32, out) {
            Ok(()) => {}
            Err(_) => unreachable!(),
        }
    }
}
