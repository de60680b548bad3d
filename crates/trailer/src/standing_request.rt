//! Reads the pending request for an image.

ghost use Rattle.std.specs.Prelude.{◌≡◌};
ghost use Rattle.sector_map.specs.Map.{HasImage, part_of};
ghost use Rattle.sector_map.specs.Part.{Slot};
ghost use Rattle.trailer.specs.Standing.{first_is_set, standing_kind, standing_of};
ghost use Rattle.trailer.specs.Reads.{Tells};

use crate::kinds::{Magic, Trailer};
use crate::trailer_reading::read_trailer;
use common::kind::Kind;
use flash_model::{Flash, Result, is_unit_erased};
use sector_map::{SectorMap, Side};

/// Returns whether the first unit of a slot is set.
pub(crate) fn is_front_set<F: Flash>(
    flash: &mut F,
    map: &SectorMap,
    image: u8,
    side: Side,
) -> Result<bool>
    requires { HasImage map.now image (F.chip flash.old) }
    ensures { Tells (first_is_set (part_of map.now (F.chip flash.old) (Slot image side)))
        (F.chip flash.old) (F.chip flash.new) result }
{
    let erased = is_unit_erased(flash, map.slot_start(image, side))?;
    Ok(!erased)
}

/// Returns the request in a secondary trailer, if it is pending. `is_filled` says whether the first
/// unit of the slot is set.
fn standing_kind(trailer: &Trailer, is_filled: bool) -> Option<Kind>
    ensures { result ≡ standing_kind trailer.now is_filled }
{
    if trailer.magic != Magic::Good || trailer.withdrawn || !is_filled {
        return None;
    }
    if trailer.image_ok {
        Some(Kind::Permanent)
    } else {
        Some(Kind::Test)
    }
}

/// Returns the pending request for an image, if there is one. It is permanent if `image_ok` is set.
/// A request is pending if all of these conditions hold:
/// - The magic of the secondary trailer is good.
/// - The withdrawn unit of the secondary trailer is erased.
/// - The first unit of the secondary slot is set, that is, not all of its bytes are 0xFF.
///
/// The map is laid out on the flash. Images are numbered from 0, and the map has this image.
///
/// # Errors
/// `Off` if the flash was off. The flash never changes.
pub fn standing<F: Flash>(flash: &mut F, map: &SectorMap, image: u8) -> Result<Option<Kind>>
    requires { HasImage map.now image (F.chip flash.old) }
    ensures { Tells (standing_of map.now (F.chip flash.old) image)
        (F.chip flash.old) (F.chip flash.new) result }
{
    let trailer = read_trailer(flash, map, image, Side::Secondary)?;
    let is_filled = is_front_set(flash, map, image, Side::Secondary)?;
    Ok(standing_kind(&trailer, is_filled))
}
