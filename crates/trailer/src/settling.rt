//! Settles the trailers of an image after a swap.

ghost use Rattle.std.specs.Prelude.{◌≡◌};
ghost use Rattle.sector_map.specs.Map.{HasImage};
ghost use Rattle.trailer.specs.Fields.{bytes_at};
ghost use Rattle.trailer.specs.Places.{image_ok_place};
ghost use Rattle.trailer.specs.Settled.{IsFree, IsOkFree, IsWhole, is_confirmed};
ghost use Rattle.trailer.specs.Reads.{Decides, HasPlace};
ghost use Rattle.trailer.specs.Settles.{MakesWhole, Settles};

use crate::clearing::erase_trailer;
use crate::format::{COPY_DONE, IMAGE_OK, MAGIC, MAGIC_PLACE};
use crate::kinds::Settling;
use crate::marking::mark_trailer;
use crate::units::{is_unit_set, read_bytes};
use flash_model::{FLAG, Flash, Result, are_erased};
use sector_map::{SectorMap, Side};

/// Returns whether an image is settled as confirmed.
fn is_confirmed(settling: Settling) -> bool
    ensures { result ≡ is_confirmed settling }
{
    matches!(settling, Settling::Permanent | Settling::Back)
}

/// Returns whether units of a trailer are erased or hold `value`. Then no write of them was torn.
#[tactic(auto, using(crate::proofs::Marks::tells_free))]
fn are_units_free<F: Flash, const N: usize>(
    flash: &mut F,
    map: &SectorMap,
    image: u8,
    side: Side,
    from_end: u32,
    value: &[u8; N],
) -> Result<bool>
    requires { HasPlace map.now image from_end N (F.chip flash.old) }
    ensures { Decides (IsFree (bytes_at map.now (F.chip flash.old) image side from_end N) value.now)
        (F.chip flash.old) (F.chip flash.new) result }
{
    let units: [u8; N] = read_bytes(flash, map, image, side, from_end)?;
    Ok(units == *value || are_erased(&units))
}

/// Returns whether `image_ok` of a trailer isn't torn. If the image is to be tried, it has to be
/// erased.
fn is_ok_free<F: Flash>(
    flash: &mut F,
    map: &SectorMap,
    image: u8,
    side: Side,
    confirmed: bool,
) -> Result<bool>
    requires { HasImage map.now image (F.chip flash.old) }
    ensures { Decides
        (IsOkFree confirmed (bytes_at map.now (F.chip flash.old) image side image_ok_place 8))
        (F.chip flash.old) (F.chip flash.new) result }
{
    if confirmed {
        let free = are_units_free(flash, map, image, side, IMAGE_OK, &FLAG)?;
        return Ok(free);
    }
    let set = is_unit_set(flash, map, image, side, IMAGE_OK)?;
    Ok(!set)
}

/// Returns whether none of the units that settling writes is torn.
fn is_trailer_whole<F: Flash>(
    flash: &mut F,
    map: &SectorMap,
    image: u8,
    side: Side,
    confirmed: bool,
) -> Result<bool>
    requires { HasImage map.now image (F.chip flash.old) }
    ensures { Decides (IsWhole map.now (F.chip flash.old) image side confirmed)
        (F.chip flash.old) (F.chip flash.new) result }
{
    let copy_done = are_units_free(flash, map, image, side, COPY_DONE, &FLAG)?;
    let image_ok = is_ok_free(flash, map, image, side, confirmed)?;
    let magic = are_units_free(flash, map, image, side, MAGIC_PLACE, &MAGIC)?;
    Ok(copy_done && image_ok && magic)
}

/// Erases a trailer if settling can't write its units. After a swap back it is always erased.
/// Otherwise it is erased if a unit is torn, or is set and has to stay erased.
fn make_whole<F: Flash>(
    flash: &mut F,
    map: &SectorMap,
    image: u8,
    side: Side,
    settling: Settling,
) -> Result<()>
    requires { HasImage map.now image (F.chip flash.old) }
    ensures { MakesWhole map.now image side settling (F.chip flash.old) (F.chip flash.new) result }
{
    if settling != Settling::Back
        && is_trailer_whole(flash, map, image, side, settling == Settling::Permanent)?
    {
        return Ok(());
    }
    erase_trailer(flash, map, image, side)?;
    Ok(())
}

/// Settles the trailers of an image whose slots were swapped.
///
/// The secondary trailer is erased. The primary one gets `copy_done`, `image_ok` unless the image
/// is to be tried, and the magic. Units that hold their values aren't written again. The primary
/// trailer is erased first in each of these cases:
/// - One of these units is torn, that is, set and not to its value.
/// - `image_ok` is set, and the image is to be tried.
/// - The swap was a swap back.
///
/// The call can be repeated, whatever the trailers hold. The map is laid out on the flash. Images
/// are numbered from 0, and the map has this image.
///
/// # Errors
/// - `Cut` if power failed: the two trailers hold any bytes, and all other bytes are unchanged.
/// - `Off` if the flash was off before: nothing changed.
pub fn settle<F: Flash>(flash: &mut F, map: &SectorMap, image: u8, settling: Settling) -> Result<()>
    requires { HasImage map.now image (F.chip flash.old) }
    ensures { Settles map.now image settling (F.chip flash.old) (F.chip flash.new) result }
{
    erase_trailer(flash, map, image, Side::Secondary)?;
    make_whole(flash, map, image, Side::Primary, settling)?;
    mark_trailer(flash, map, image, Side::Primary, is_confirmed(settling))
}
