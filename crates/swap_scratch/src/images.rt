//! Swaps the slots of one image.

ghost use Rattle.sector_map.specs.Map.{HasImage};
ghost use Rattle.swap_scratch.specs.Steps.{SwapsImage};

use crate::counting::{count_from, next_count};
use crate::steps::take_step;
use crate::used::used_sectors;
use flash_model::{Flash, Result};
use sector_map::{SectorMap, Side};

/// Swaps the slots of one image, from any place of the swap. If all its steps are counted, nothing
/// is touched, since scratch may hold a sector of a later image.
pub(crate) fn swap_image<F: Flash>(
    flash: &mut F,
    map: &SectorMap,
    image: u8,
    side: Side,
) -> Result<()>
    requires image { HasImage map.now image (F.chip flash.old) }
    ensures { SwapsImage map.now image side (F.chip flash.old) (F.chip flash.new) result }
{
    let used = used_sectors(flash, map, image, side)?;
    let mut known = count_from(flash, map, image, side, 0)?;
    while known.count < 3 * used {
        take_step(flash, map, image, side, used, known.count)?;
        known = next_count(flash, map, image, side, known)?;
    }
    Ok(())
}
