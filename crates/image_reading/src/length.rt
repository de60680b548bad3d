//! The length of an image in a slot that is known to be intact, without its digest.

ghost use Rattle.std.specs.Prelude.{◌≡◌, IfOk};
ghost use Rattle.flash_model.specs.Chip.{Ends};
ghost use Rattle.sector_map.specs.Map.{HasImage};
ghost use Rattle.image_reading.specs.Image.{BeginsIntact};
ghost use Rattle.image_reading.specs.Slot.{slot_bytes};
ghost use Rattle.image_reading.specs.declared.desc.Desc.{Desc};

use crate::desc::Desc;
use crate::front::Front;
use crate::slot::slot_span;
use flash_model::{Flash, Result};
use sector_map::{SectorMap, Side};

/// Returns the length in bytes of the image at the beginning of a slot, if the caller knows that the
/// image is intact. It reads the header, and the type and length of each entry, but no digest is
/// taken: it costs as little for a long image as for a short one. If the slot begins with no intact
/// image, the result may be any number. Does not allocate.
///
/// The map must be laid out on the flash, and must have the image. `image` is its number, from 0.
///
/// # Errors
/// `Off` if the flash was off. Nothing changes in any case.
pub fn image_length<F: Flash>(flash: &mut F, map: &SectorMap, image: u8, side: Side) -> Result<u64>
    requires { HasImage map.now image (F.chip flash.old) }
    ensures same { F.chip flash.new ≡ F.chip flash.old }
    // Of an intact image it is the length in the description.
    ensures length { IfOk result (λ length. (description : Desc)
        → BeginsIntact (slot_bytes map.now (F.chip flash.old) image side) description
        → length ≡ description.length) }
    ensures ends { Ends result (F.chip flash.old) (F.chip flash.new) }
{
    flash.read(0, &mut [])?;
    let mut description = Desc::default();
    match Front::read(flash, slot_span(map, image, side), &mut description) {
        Ok(front) => Ok(front.length as u64),
        Err(_) => Ok(0),
    }
}
