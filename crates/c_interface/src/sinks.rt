//! Sinks for texts: one counts their bytes, one writes them to the front of the caller's buffer.
//!
//! Neither can fail. So a text that was counted, and fits, is always written.

ghost use Rattle.std.specs.Prelude.{◌≡◌, MatchOption};
ghost use Rattle.c_interface.specs.Sinks.{FitsIn, IsWithin};

use reports::Sink;
use std::convert::Infallible;

/// Counts the bytes of a text, up to 2^64 - 1.
#[derive(Drop)]
pub(crate) struct LengthSink(usize);

impl LengthSink {
    /// The length of no text.
    pub(crate) fn new() -> LengthSink
        ensures { result.0 ≡ 0 }
    {
        LengthSink(0)
    }

    /// The length, if the text fits in a buffer of this size and the length fits in 32 bits.
    pub(crate) fn within(&self, buffer_size: usize) -> Option<u32>
        ensures { MatchOption result (FitsIn self.now.0 buffer_size → ⊥)
            (λ length. FitsIn self.now.0 buffer_size × (length ≡ self.now.0)) }
    {
        if self.0 > buffer_size || self.0 > u32::MAX as usize {
            return None;
        }
        Some(self.0 as u32)
    }
}

impl Sink for LengthSink {
    type Error = Infallible;

    ghost use Rattle.c_interface.specs.Sinks.{Counts, counts_both, counts_nothing};

    ghost takes = { λ old text new. Counts old.0 text new.0 };

    fn put(&mut self, piece: &str) -> Result<(), Infallible> {
        self.0 = self.0.saturating_add(piece.len());
        Ok(())
    }

    ghost takes_nothing = { λ length. counts_nothing length.0 };

    ghost takes_both = { λ first second third before after.
        counts_both first.0 second.0 third.0 before after };
}

/// Writes a text to the front of a buffer.
pub(crate) struct BufferSink<'a> {
    buffer: &'a mut [u8],
    length: usize,
    ghost is_within: { IsWithin length buffer.now },
}

impl<'a> BufferSink<'a> {
    /// A sink that has written nothing to the buffer yet.
    pub(crate) fn new(buffer: &'a mut [u8]) -> BufferSink<'a>
        ensures same { result.buffer.ghost_name ≡ buffer.entry.ghost_name }
        ensures buffer { result.buffer.now ≡ buffer.old }
        ensures length { result.length ≡ 0 }
    {
        BufferSink { buffer, length: 0 }
    }
}

// Written out for its clause, by which the caller knows the bytes again.
impl<'a> Drop for BufferSink<'a> {
    fn drop(self)
        ensures { self.exit.0.now ≡ self.entry.buffer.now }
    {
        let BufferSink { buffer, length } = self;
    }
}

impl<'a> Sink for BufferSink<'a> {
    type Error = Infallible;

    ghost use Rattle.std.specs.Prelude.{refl};
    ghost use Rattle.std.proofs.Common.{◌∙◌};
    ghost use Rattle.tlv.specs.Writing.{PutsAfter, puts_both, puts_nothing};

    ghost takes = { λ old text new. (new.buffer.ghost_name ≡ old.buffer.ghost_name)
        × PutsAfter old.length old.buffer.now text new.length new.buffer.now };

    fn put(&mut self, piece: &str) -> Result<(), Infallible> {
        if piece.len() <= self.buffer.len() - self.length {
            let end = self.length + piece.len();
            self.buffer[self.length..end].copy_from_slice(piece.as_bytes());
            self.length = end;
        }
        Ok(())
    }

    ghost takes_nothing = { λ sink. (refl, puts_nothing sink.length sink.buffer.now) };

    ghost takes_both = { λ first second third before after put more. (
      more.0 ∙ put.0,
      puts_both first.length second.length third.length first.buffer.now second.buffer.now
          third.buffer.now before after put.1 more.1,
    ) };
}
