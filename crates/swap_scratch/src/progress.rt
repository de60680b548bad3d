//! Reads the progress of the swap of an image.

ghost use Rattle.sector_map.specs.Map.{HasImage};
ghost use Rattle.swap_scratch.specs.Steps.{ReadsProgress};

use crate::used::used_sectors;
use flash_model::{Flash, Result};
use sector_map::{SectorMap, Side};
use trailer::status_count;

/// The progress of the swap of the slots of an image.
#[derive(Clone, Copy)]
pub struct Progress {
    /// The number of completed steps, as the trailer counts them.
    pub taken: u32,
    /// The number of all steps: three for each sector of a slot that the swap moves.
    pub steps: u32,
}

/// Reads the progress of the swap of an image's slots, as the image's trailer of `side` counts it.
/// Does not allocate.
///
/// The map must be laid out on the flash, and must have the image. `image` is its number, from 0.
/// If no swap was started with that trailer, the number of completed steps has no meaning.
///
/// # Errors
/// `Off` if the flash was off. Nothing changes in any case.
pub fn swap_progress<F: Flash>(
    flash: &mut F,
    map: &SectorMap,
    image: u8,
    side: Side,
) -> Result<Progress>
    requires { HasImage map.now image (F.chip flash.old) }
    ensures { ReadsProgress map.now image side (F.chip flash.old) (F.chip flash.new) result }
{
    let used = used_sectors(flash, map, image, side)?;
    let taken = status_count(flash, map, image, side)?;
    let steps = 3 * used;
    Ok(Progress { taken, steps })
}
