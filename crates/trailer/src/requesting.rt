//! Requests an image, or confirms one.

ghost use Rattle.std.specs.Prelude.{◌≡◌};
ghost use Rattle.sector_map.specs.Map.{HasImage};
ghost use Rattle.sector_map.specs.declared.layout.Side.TheVariants.{Secondary};
ghost use Rattle.trailer.specs.Fields.{erased_fields, fields_at};
ghost use Rattle.trailer.specs.Requests.{Confirms, MarksKind, Requests};

use crate::format::{IMAGE_OK, MAGIC, MAGIC_PLACE};
use crate::units::{is_unit_set, write_units};
use common::kind::Kind;
use flash_model::{FLAG, Flash, Result};
use sector_map::{SectorMap, Side};

/// Writes the kind of a request into an erased trailer.
fn mark_kind<F: Flash>(flash: &mut F, map: &SectorMap, image: u8, kind: Kind) -> Result<()>
    requires image { HasImage map.now image (F.chip flash.old) }
    requires erased { fields_at map.now (F.chip flash.old) image Secondary ≡ erased_fields }
    ensures { MarksKind map.now image kind (F.chip flash.old) (F.chip flash.new) result }
{
    match kind {
        Kind::Test => Ok(()),
        Kind::Permanent => write_units(flash, map, image, Side::Secondary, IMAGE_OK, &FLAG),
    }
}

/// Requests the image in a secondary slot, whose trailer is erased. Sets `image_ok` if the image is
/// to stay, and then writes the magic.
///
/// The map is laid out on the flash. Images are numbered from 0, and the map has this image.
///
/// # Errors
/// - `Cut` if power failed: the image is requested as asked, or the magic isn't good and no request
///   is pending. All bytes outside `image_ok` and the magic are unchanged.
/// - `Off` if the flash was off before: nothing changed.
///
/// # Examples
///
/// ```text
/// // `flash` has at least the 16 sectors of the map.
/// let map = SectorMap::new(512, &[2, 2])?;
/// assert!(rt; map.images == 2 && map.fits(flash));
/// clear(flash, &map, 0, Side::Secondary)?;
/// request(flash, &map, 0, Kind::Permanent)?;
/// let trailer = read_trailer(flash, &map, 0, Side::Secondary)?;
/// assert!(rt; trailer.magic == Magic::Good && trailer.image_ok);
/// ```
pub fn request<F: Flash>(flash: &mut F, map: &SectorMap, image: u8, kind: Kind) -> Result<()>
    requires image { HasImage map.now image (F.chip flash.old) }
    requires erased { fields_at map.now (F.chip flash.old) image Secondary ≡ erased_fields }
    ensures { Requests map.now image kind (F.chip flash.old) (F.chip flash.new) result }
{
    mark_kind(flash, map, image, kind)?;
    write_units(flash, map, image, Side::Secondary, MAGIC_PLACE, &MAGIC)
}

/// Confirms the image in a primary slot: sets `image_ok` of its trailer, unless it is set.
///
/// The map is laid out on the flash. Images are numbered from 0, and the map has this image.
///
/// # Errors
/// - `Cut` if power failed: `image_ok` is as it was or set, and all bytes outside its unit are
///   unchanged.
/// - `Off` if the flash was off before: nothing changed.
pub fn set_ok<F: Flash>(flash: &mut F, map: &SectorMap, image: u8) -> Result<()>
    requires { HasImage map.now image (F.chip flash.old) }
    ensures { Confirms map.now image (F.chip flash.old) (F.chip flash.new) result }
{
    if is_unit_set(flash, map, image, Side::Primary, IMAGE_OK)? {
        return Ok(());
    }
    write_units(flash, map, image, Side::Primary, IMAGE_OK, &FLAG)
}
