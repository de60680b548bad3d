//! Converts what a script says of a power cut to what a flash in memory takes.

ghost use Rattle.std.specs.Prelude.{IfOk};
ghost use Rattle.device_texts.specs.Cuts.{Leaves};
ghost use Rattle.device_texts.specs.Said.{said_torn};

use crate::line::TornText;
use flash_model::Torn;
use std::alloc::{AllocError, Global};

impl<'a> TornText<'a> {
    /// What the interrupted write leaves, as [`flash_model::MemFlash::arm`] takes it. Digits are
    /// decoded to bytes.
    ///
    /// # Errors
    /// `AllocError` if memory for the bytes is refused, or if the digits of `Hex` aren't those of
    /// bytes, which [`line_of`](crate::line_of) never returns.
    pub fn torn(self, alloc: Global) -> Result<Torn, AllocError>
        ensures { IfOk result (λ torn. Leaves (said_torn self.entry) torn) }
    {
        match self {
            TornText::Keep => Ok(Torn::Keep),
            TornText::Done => Ok(Torn::Done),
            TornText::Hex(digits) => match hex::decode(alloc, digits) {
                Ok(bytes) => Ok(Torn::Bytes(bytes)),
                Err(_) => Err(AllocError),
            },
        }
    }
}
