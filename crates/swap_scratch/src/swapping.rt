//! Swaps the slots of a set of images.

ghost use Rattle.std.specs.Prelude.{◌<◌};
ghost use Rattle.sector_map.specs.Map.{HasImages};
ghost use Rattle.swap_scratch.specs.Swaps.{Swaps, SwapsMember};

use crate::images::swap_image;
use common::mask::is_member;
use flash_model::{Flash, Result};
use sector_map::{SectorMap, Side};

/// Swaps the slots of an image if the image is in the mask.
fn swap_member<F: Flash>(
    flash: &mut F,
    map: &SectorMap,
    mask: u8,
    side: Side,
    image: u8,
) -> Result<()>
    requires images { HasImages map.now mask (F.chip flash.old) }
    requires there { image < map.now.images }
    ensures { SwapsMember map.now mask side image (F.chip flash.old) (F.chip flash.new) result }
{
    if !is_member(mask, image) {
        return Ok(());
    }
    swap_image(flash, map, image, side)
}

/// Swaps the primary and the secondary slot of each image of a mask through scratch, in ascending
/// order. It starts a swap, or continues one that was interrupted anywhere.
///
/// The map must be laid out on the flash. Bit i of the mask is image i: the mask must have only
/// images of the map. The status units of the images' trailers of `side` count the progress. The
/// size in such a trailer is the number of bytes of each slot of its image that are moved, rounded
/// up to whole sectors. If the trailer holds no size, all sectors are moved.
///
/// Another call with the same mask and side continues after the last step, and erases one sector
/// for each remaining step. If no step remains, for example for an empty mask, nothing changes.
/// Bytes are copied through a buffer of 256 bytes. Does not allocate.
///
/// # Errors
/// `Cut` if power failed during a write. The flash is then at a place of the same swap: each byte
/// of the old contents is in a slot of its image or in scratch. Another call completes the swap.
/// `Off` if the flash was already off: nothing changed.
///
/// # Examples
///
/// ```text
/// // `flash` has at least the 16 sectors of the map. A swap takes three steps a sector.
/// let map = SectorMap::new(512, &[2, 2])?;
/// assert!(rt; map.images == 2 && map.fits(flash) && is_within(&map, 0b01));
/// swap_set(flash, &map, 0b01, Side::Primary)?;
/// let progress = swap_progress(flash, &map, 0, Side::Primary)?;
/// assert!(rt; progress.taken == 6 && progress.steps == 6);
/// ```
pub fn swap_set<F: Flash>(flash: &mut F, map: &SectorMap, mask: u8, side: Side) -> Result<()>
    requires images { HasImages map.now mask (F.chip flash.old) }
    ensures { Swaps map.now mask side (F.chip flash.old) (F.chip flash.new) result }
{
    for image in 0..map.images {
        swap_member(flash, map, mask, side, image)?;
    }
    Ok(())
}
