//! Withdraws a request.

ghost use Rattle.sector_map.specs.Map.{HasImage};
ghost use Rattle.sector_map.specs.declared.layout.Side.TheVariants.{Secondary};
ghost use Rattle.trailer.specs.Withdraws.{ErasesFront, TakesBack, Withdraws};

use crate::clearing::clear;
use crate::format::WITHDRAWN;
use crate::standing_request::{is_front_set, standing};
use crate::units::write_units;
use flash_model::{FLAG, Flash, Result};
use sector_map::{SectorMap, Side};

/// Sets the withdrawn unit if a request is pending.
fn take_back<F: Flash>(flash: &mut F, map: &SectorMap, image: u8) -> Result<()>
    requires { HasImage map.now image (F.chip flash.old) }
    ensures { TakesBack map.now image (F.chip flash.old) (F.chip flash.new) result }
{
    match standing(flash, map, image)? {
        None => Ok(()),
        Some(_) => write_units(flash, map, image, Side::Secondary, WITHDRAWN, &FLAG),
    }
}

/// Erases the first sector of a secondary slot, unless its first unit is erased.
fn erase_front<F: Flash>(flash: &mut F, map: &SectorMap, image: u8) -> Result<()>
    requires { HasImage map.now image (F.chip flash.old) }
    ensures { ErasesFront map.now image Secondary (F.chip flash.old) (F.chip flash.new) result }
{
    if !is_front_set(flash, map, image, Side::Secondary)? {
        return Ok(());
    }
    flash.erase(map.slot(image, Side::Secondary))
}

/// Withdraws the pending request of an image, in three steps:
/// - It sets the withdrawn unit.
/// - It erases the first sector of the secondary slot, unless the slot's first unit is erased.
/// - It erases the secondary trailer, unless each of its bytes is erased.
///
/// If no request is pending, only the last two steps are made.
///
/// The map is laid out on the flash. Images are numbered from 0, and the map has this image.
///
/// # Errors
/// - `Cut` if power failed: the slot and the fields of the trailer are as they were, or no request
///   is pending.
/// - `Off` if the flash was off before: nothing changed.
pub fn withdraw<F: Flash>(flash: &mut F, map: &SectorMap, image: u8) -> Result<()>
    requires { HasImage map.now image (F.chip flash.old) }
    ensures { Withdraws map.now image (F.chip flash.old) (F.chip flash.new) result }
{
    take_back(flash, map, image)?;
    erase_front(flash, map, image)?;
    clear(flash, map, image, Side::Secondary)
}
