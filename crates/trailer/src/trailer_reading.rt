//! Reads the fields of a trailer.

ghost use Rattle.std.specs.Prelude.{◌≡◌};
ghost use Rattle.sector_map.specs.Map.{HasImage};
ghost use Rattle.trailer.specs.Fields.{fields_at, magic_in, trailer_of};
ghost use Rattle.trailer.specs.Reads.{Tells};

use crate::format::{COPY_DONE, IMAGE_OK, MAGIC, MAGIC_PLACE, WITHDRAWN};
use crate::kinds::{Magic, Trailer};
use crate::units::{is_unit_set, read_bytes};
use flash_model::{Flash, Result, are_erased};
use sector_map::{SectorMap, Side};

/// Returns what the bytes of a magic say.
fn magic_in(bytes: &[u8; 16]) -> Magic
    ensures { result ≡ magic_in bytes.now }
{
    if *bytes == MAGIC {
        Magic::Good
    } else if are_erased(bytes) {
        Magic::Unset
    } else {
        Magic::Bad
    }
}

/// Reads the magic, `copy_done`, `image_ok` and withdrawn of the trailer of a slot.
///
/// The map is laid out on the flash. Images are numbered from 0, and the map has this image.
///
/// # Errors
/// `Off` if the flash was off. The flash never changes.
#[tactic(auto, unfolding(crate::specs::Fields::fields_at, crate::specs::Fields::fields_in))]
pub fn read_trailer<F: Flash>(
    flash: &mut F,
    map: &SectorMap,
    image: u8,
    side: Side,
) -> Result<Trailer>
    requires { HasImage map.now image (F.chip flash.old) }
    ensures { Tells (trailer_of (fields_at map.now (F.chip flash.old) image side))
        (F.chip flash.old) (F.chip flash.new) result }
{
    let magic: [u8; 16] = read_bytes(flash, map, image, side, MAGIC_PLACE)?;
    let copy_done = is_unit_set(flash, map, image, side, COPY_DONE)?;
    let image_ok = is_unit_set(flash, map, image, side, IMAGE_OK)?;
    let withdrawn = is_unit_set(flash, map, image, side, WITHDRAWN)?;
    Ok(Trailer {
        magic: magic_in(&magic),
        copy_done,
        image_ok,
        withdrawn,
    })
}
