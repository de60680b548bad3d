//! Looks whether slots begin with intact images.

ghost use Rattle.sector_map.specs.Map.{HasImage, IsLaidOut};
ghost use Rattle.boot_core.specs.Looking.{IsLowestLostIn, IsMemberLost};
ghost use Rattle.decision.specs.Telling.{Tells};

use common::mask::is_member;
use decision::read_slot;
use flash_model::{Flash, Result};
use sector_map::{SectorMap, Side};

/// Whether an image is in a set and its slot on a side doesn't begin with an intact image.
fn is_damaged_member<F: Flash>(
    flash: &mut F,
    map: &SectorMap,
    mask: u8,
    image: u8,
    side: Side,
) -> Result<bool>
    requires { HasImage map.now image (F.chip flash.old) }
    ensures { Tells (IsMemberLost map.now mask image side)
        (F.chip flash.old) (F.chip flash.new) result }
{
    if !is_member(mask, image) {
        return Ok(false);
    }
    match read_slot(flash, map, image, side)? {
        None => Ok(true),
        Some(_) => Ok(false),
    }
}

/// Returns the lowest image of a set whose slot on a side doesn't begin with an intact image, if
/// there is one. `mask` has bit i set for image i of the set.
pub(crate) fn lowest_damaged<F: Flash>(
    flash: &mut F,
    map: &SectorMap,
    mask: u8,
    side: Side,
) -> Result<Option<u8>>
    requires { IsLaidOut map.now (F.chip flash.old) }
    ensures { Tells (IsLowestLostIn map.now mask side)
        (F.chip flash.old) (F.chip flash.new) result }
{
    for image in 0..map.images {
        let damaged = is_damaged_member(flash, map, mask, image, side)?;
        if damaged {
            return Ok(Some(image));
        }
    }
    Ok(None)
}
