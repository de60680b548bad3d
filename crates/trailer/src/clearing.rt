//! Erases trailers.

ghost use Rattle.sector_map.specs.Map.{HasImage};
ghost use Rattle.trailer.specs.Erases.{Clears, ErasesTrailer};

use crate::units::is_range_erased;
use flash_model::{Flash, Result};
use sector_map::{SectorMap, Side};

/// Erases the trailer of a slot.
pub(crate) fn erase_trailer<F: Flash>(
    flash: &mut F,
    map: &SectorMap,
    image: u8,
    side: Side,
) -> Result<()>
    requires { HasImage map.now image (F.chip flash.old) }
    ensures { ErasesTrailer map.now image side (F.chip flash.old) (F.chip flash.new) result }
{
    flash.erase(map.trailer(image, side))
}

/// Erases the trailer of a slot, unless each of its bytes is erased.
///
/// The map is laid out on the flash. Images are numbered from 0, and the map has this image.
///
/// # Errors
/// - `Cut` if power failed: the trailer holds any bytes, and all other bytes are unchanged.
/// - `Off` if the flash was off before: nothing changed.
pub fn clear<F: Flash>(flash: &mut F, map: &SectorMap, image: u8, side: Side) -> Result<()>
    requires { HasImage map.now image (F.chip flash.old) }
    ensures { Clears map.now image side (F.chip flash.old) (F.chip flash.new) result }
{
    if is_range_erased(flash, map, image, side, 0, map.sector_size)? {
        return Ok(());
    }
    erase_trailer(flash, map, image, side)
}
