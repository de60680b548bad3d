//! Writes the units of a primary trailer that settling sets, except units that hold their values.

ghost use Rattle.std.specs.Prelude.{length};
ghost use Rattle.sector_map.specs.Map.{HasImage};
ghost use Rattle.trailer.specs.Fields.{bytes_at};
ghost use Rattle.trailer.specs.Places.{image_ok_place};
ghost use Rattle.trailer.specs.Settled.{IsFree, IsOkFree, IsWhole};
ghost use Rattle.trailer.specs.Writes.{HasUnits, WritesUnits};
ghost use Rattle.trailer.specs.Settles.{MarksOk, MarksTrailer};

use crate::format::{COPY_DONE, IMAGE_OK, MAGIC, MAGIC_PLACE};
use crate::units::{read_bytes, write_units};
use flash_model::{FLAG, Flash, Result, are_erased};
use sector_map::{SectorMap, Side};

/// Writes units that are erased or hold these bytes already. If they hold them nothing is written.
#[tactic(auto, using(crate::proofs::Marks::holds_value))]
fn mark<F: Flash, const N: usize>(
    flash: &mut F,
    map: &SectorMap,
    image: u8,
    side: Side,
    from_end: u32,
    units: &[u8; N],
) -> Result<()>
    requires units { HasUnits map.now image from_end (length units.now) (F.chip flash.old) }
    requires free { IsFree
        (bytes_at map.now (F.chip flash.old) image side from_end (length units.now)) units.now }
    ensures { WritesUnits map.now image side from_end units.now
        (F.chip flash.old) (F.chip flash.new) result }
{
    let held: [u8; N] = read_bytes(flash, map, image, side, from_end)?;
    if !are_erased(&held) {
        return Ok(());
    }
    write_units(flash, map, image, side, from_end, units)
}

/// Sets `image_ok` of a trailer if the image is to be confirmed.
fn mark_ok<F: Flash>(
    flash: &mut F,
    map: &SectorMap,
    image: u8,
    side: Side,
    confirmed: bool,
) -> Result<()>
    requires image { HasImage map.now image (F.chip flash.old) }
    requires free { IsOkFree confirmed
        (bytes_at map.now (F.chip flash.old) image side image_ok_place 8) }
    ensures { MarksOk map.now image side confirmed (F.chip flash.old) (F.chip flash.new) result }
{
    if !confirmed {
        return Ok(());
    }
    mark(flash, map, image, side, IMAGE_OK, &FLAG)
}

/// Sets `copy_done`, sets `image_ok` if the image is to be confirmed, and writes the magic.
pub(crate) fn mark_trailer<F: Flash>(
    flash: &mut F,
    map: &SectorMap,
    image: u8,
    side: Side,
    confirmed: bool,
) -> Result<()>
    requires image { HasImage map.now image (F.chip flash.old) }
    requires whole { IsWhole map.now (F.chip flash.old) image side confirmed }
    ensures { MarksTrailer map.now image side confirmed
        (F.chip flash.old) (F.chip flash.new) result }
{
    mark(flash, map, image, side, COPY_DONE, &FLAG)?;
    mark_ok(flash, map, image, side, confirmed)?;
    mark(flash, map, image, side, MAGIC_PLACE, &MAGIC)
}
