//! Checks whether a range of a flash is erased.

ghost use Rattle.std.specs.Prelude.{◌≡◌, ◌+◌, ◌≤◌, length};
ghost use Rattle.flash_model.specs.Chip.{size_of};
ghost use Rattle.flash_model.specs.Calls.{TellsErased, TellsPieceErased};
ghost use Rattle.flash_model.specs.Units.{are_erased};

use crate::error::Result;
use crate::flash::Flash;

/// The most bytes that `is_erased` reads with one call.
const PIECE: usize = 64;

/// Returns whether each of these bytes is 0xFF, as after an erase. If there are none the result is
/// `true`. Does not allocate.
pub fn are_erased(bytes: &[u8]) -> bool
    ensures { result ≡ are_erased bytes.now }
{
    bytes.iter().all(|byte| *byte == 0xff)
}

/// Reads the bytes from address `at` into `piece`, and returns whether they are erased.
fn is_piece_erased<F: Flash>(flash: &mut F, at: u32, piece: &mut [u8]) -> Result<bool>
    requires { at + length piece.old ≤ size_of (F.chip flash.old) }
    ensures { TellsPieceErased at (length piece.old) (F.chip flash.old) (F.chip flash.new) result }
{
    flash.read(at, piece)?;
    Ok(are_erased(piece))
}

/// Returns whether the `len` bytes from address `at` are erased, that is, 0xFF. The range has to
/// lie in the flash. If `len` is 0 the result is `true`.
///
/// Reads the flash in pieces of at most 64 bytes, up to the first piece that isn't erased. The
/// flash doesn't change. Does not allocate.
///
/// # Errors
/// `Off` if the flash is off and `len` isn't 0.
#[tactic(auto, using(crate::proofs::Erased::erased_joined))]
pub fn is_erased<F: Flash>(flash: &mut F, at: u32, len: u32) -> Result<bool>
    requires { at + len ≤ size_of (F.chip flash.old) }
    ensures { TellsErased at len (F.chip flash.old) (F.chip flash.new) result }
{
    let mut buffer = [0u8; PIECE];
    let mut done = 0;
    while done < len {
        let left = (len - done) as usize;
        let size = left.min(PIECE);
        if !is_piece_erased(flash, at + done, &mut buffer[..size])? {
            return Ok(false);
        }
        done += size as u32;
    }
    Ok(true)
}
