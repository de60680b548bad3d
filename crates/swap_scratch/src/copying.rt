//! Copies sectors through a buffer.

ghost use Rattle.std.specs.Prelude.{◌⊎◌, ◌+◌, ◌<◌, ◌≤◌, ◌^◌, length};
ghost use Rattle.flash_model.specs.Chip.{size_of};
ghost use Rattle.swap_scratch.specs.Copies.{CanCopy, CanCopySector, Copies, CopiesSector};

use flash_model::{Flash, Result};

/// The number of bytes that are copied in one piece: whole units.
const PIECE: usize = 256;

/// Copies as many bytes as the buffer has, through it.
#[tactic(auto, using(flash_model::proofs::Copies::copy_of_reads))]
fn copy_piece<F: Flash>(flash: &mut F, from: u32, to: u32, piece: &mut [u8]) -> Result<()>
    requires range { CanCopy from to (length piece.old) (F.chip flash.old) }
    requires some { 8 ≤ length piece.old }
    ensures { Copies from to (length piece.old) (F.chip flash.old) (F.chip flash.new) result }
{
    flash.read(from, piece)?;
    flash.program(to, piece)
}

/// Copies a range to an erased range that doesn't overlap it.
#[tactic(auto, using(flash_model::proofs::Copies::copied_more, flash_model::proofs::Erased::erased_after))]
fn copy_range<F: Flash>(flash: &mut F, from: u32, to: u32, len: u32) -> Result<()>
    requires range { CanCopy from to len (F.chip flash.old) }
    requires addressed { size_of (F.chip flash.old) < 2 ^ 32 }
    requires apart { (from + len ≤ to) ⊎ (to + len ≤ from) }
    ensures { Copies from to len (F.chip flash.old) (F.chip flash.new) result }
{
    let mut buffer = [0u8; PIECE];
    let mut done = 0;
    while done < len {
        let left = (len - done) as usize;
        let size = left.min(PIECE);
        copy_piece(flash, from + done, to + done, &mut buffer[..size])?;
        done += size as u32;
    }
    Ok(())
}

/// Erases a sector and copies another one to it.
pub(crate) fn copy_sector<F: Flash>(flash: &mut F, from: u32, to: u32) -> Result<()>
    requires { CanCopySector from to (F.chip flash.old) }
    ensures { CopiesSector from to (F.chip flash.old) (F.chip flash.new) result }
{
    let size = flash.sector_size();
    flash.erase(to)?;
    copy_range(flash, from * size, to * size, size)
}
