//! Checks whether a trailer is blank.

ghost use Rattle.std.specs.Prelude.{◌≡◌, ◌↔◌, IsTrue};
ghost use Rattle.sector_map.specs.Map.{HasImage};
ghost use Rattle.trailer.specs.Fields.{erased_fields, trailer_of};
ghost use Rattle.trailer.specs.Reads.{TellsBlank};

use crate::kinds::{Magic, Trailer};
use crate::sizes::read_size;
use crate::statuses::status_units;
use crate::trailer_reading::read_trailer;
use crate::units::is_range_erased;
use flash_model::{Flash, Result, UNIT};
use sector_map::{SectorMap, Side};

/// Returns whether none of these fields is set.
fn says_nothing(trailer: &Trailer) -> bool
    ensures { IsTrue result ↔ (trailer.now ≡ trailer_of erased_fields) }
{
    matches!(
        trailer,
        Trailer {
            magic: Magic::Unset,
            copy_done: false,
            image_ok: false,
            withdrawn: false,
        }
    )
}

/// Returns whether the trailer of a slot reads as an erased one: none of its fields and none of its
/// status units is set. Other bytes of the trailer aren't read. Does not allocate.
///
/// The map is laid out on the flash. Images are numbered from 0, and the map has this image.
///
/// # Errors
/// `Off` if the flash was off. The flash never changes.
#[tactic(auto, using(crate::proofs::Empty::blank_fields, crate::proofs::Empty::fresh_is))]
pub fn is_blank<F: Flash>(flash: &mut F, map: &SectorMap, image: u8, side: Side) -> Result<bool>
    requires { HasImage map.now image (F.chip flash.old) }
    ensures { TellsBlank map.now image side (F.chip flash.old) (F.chip flash.new) result }
{
    let trailer = read_trailer(flash, map, image, side)?;
    let size = read_size(flash, map, image, side)?;
    let statuses = UNIT * status_units(map, image);
    let is_fresh = is_range_erased(flash, map, image, side, 0, statuses)?;
    Ok(is_fresh && size.is_none() && says_nothing(&trailer))
}
