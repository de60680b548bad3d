//! Counts and sets the status units of a trailer, one for each completed step of a swap.

ghost use Rattle.std.specs.Prelude.{◌≡◌, ◌+◌, ◌*◌, ◌==◌, ◌<◌, ◌≤◌};
ghost use Rattle.sector_map.specs.Map.{HasImage, slot_sectors};
ghost use Rattle.trailer.specs.Places.{withdrawn_place};
ghost use Rattle.trailer.specs.Fields.{trailer_bytes};
ghost use Rattle.trailer.specs.Status.{are_units_erased, is_block_set, set_units, status_count_of};
ghost use Rattle.trailer.specs.Reads.{PassesSet, Tells};
ghost use Rattle.trailer.specs.Writes.{PushesStatus};

use crate::units::{is_range_erased, read_range};
use flash_model::{Flash, Result, UNIT, are_erased, set_unit};
use sector_map::{SectorMap, Side};

/// The number of status units that are read at once, to find the first erased one.
const BLOCK: u32 = 8;

/// Returns the number of status units of a trailer: three for each sector of the slot. Images are
/// numbered from 0, and the map has this image.
#[tactic(auto, using(crate::proofs::StatusUnits::status_fit))]
pub fn status_units(map: &SectorMap, image: u8) -> u32
    requires { image < map.now.images }
    ensures count { result ≡ 3 * slot_sectors map.now image }
    ensures fit { 8 * result + withdrawn_place ≤ map.now.sector_size }
{
    3 * map.slot_sectors(image)
}

/// Returns the number of completed steps of a swap: the number of status units of a trailer that
/// are set before the first erased one.
///
/// The map is laid out on the flash. Images are numbered from 0, and the map has this image.
///
/// # Errors
/// `Off` if the flash was off. The flash never changes.
pub fn status_count<F: Flash>(flash: &mut F, map: &SectorMap, image: u8, side: Side) -> Result<u32>
    requires { HasImage map.now image (F.chip flash.old) }
    ensures { Tells (status_count_of map.now (F.chip flash.old) image side)
        (F.chip flash.old) (F.chip flash.new) result }
{
    status_count_from(flash, map, image, side, 0)
}

/// Returns what `status_count` does, and reads no unit before number `known`, counted from 0. The
/// caller knows that the units before it are set. It is the number of a unit of the trailer.
///
/// A swap calls this if one of the units after its last step is set. Without the number, it would
/// read the units of all steps before.
///
/// The map is laid out on the flash. Images are numbered from 0, and the map has this image.
///
/// # Errors
/// `Off` if the flash was off. The flash never changes.
pub fn status_count_from<F: Flash>(
    flash: &mut F,
    map: &SectorMap,
    image: u8,
    side: Side,
    known: u32,
) -> Result<u32>
    requires image { HasImage map.now image (F.chip flash.old) }
    requires known { known ≤ status_count_of map.now (F.chip flash.old) image side }
    requires unit { known < 3 * slot_sectors map.now image }
    ensures { Tells (status_count_of map.now (F.chip flash.old) image side)
        (F.chip flash.old) (F.chip flash.new) result }
{
    let all = status_units(map, image);
    let set = pass_set(flash, map, image, side, known)?;
    for status in set..all {
        if is_range_erased(flash, map, image, side, UNIT * status, UNIT)? {
            return Ok(status);
        }
    }
    Ok(all)
}

/// Passes over blocks of units that are all set, from number `known` on, with one read for a block.
/// Returns the number after them.
fn pass_set<F: Flash>(
    flash: &mut F,
    map: &SectorMap,
    image: u8,
    side: Side,
    known: u32,
) -> Result<u32>
    requires image { HasImage map.now image (F.chip flash.old) }
    requires known { known ≤ status_count_of map.now (F.chip flash.old) image side }
    requires unit { known ≤ 3 * slot_sectors map.now image }
    ensures { PassesSet map.now image side known (F.chip flash.old) (F.chip flash.new) result }
{
    let blocks = (status_units(map, image) - known) / BLOCK;
    for block in 0..blocks {
        let from = known + BLOCK * block;
        if !is_block_set(flash, map, image, side, from)? {
            return Ok(from);
        }
    }
    Ok(known + BLOCK * blocks)
}

/// Returns whether eight status units of a trailer, from number `from` on, are all set.
fn is_block_set<F: Flash>(
    flash: &mut F,
    map: &SectorMap,
    image: u8,
    side: Side,
    from: u32,
) -> Result<bool>
    requires image { HasImage map.now image (F.chip flash.old) }
    requires within { from + 8 ≤ 3 * slot_sectors map.now image }
    ensures { Tells (is_block_set (trailer_bytes map.now (F.chip flash.old) image side) from)
        (F.chip flash.old) (F.chip flash.new) result }
{
    let block: [u8; 64] = read_range(flash, map, image, side, UNIT * from)?;
    Ok(are_all_set(&block))
}

/// Returns whether each of eight units is set.
fn are_all_set(block: &[u8; 64]) -> bool
    ensures { result ≡ (set_units block.now 8 == 8) }
{
    for unit in 0..8 {
        if are_erased(&block[8 * unit..8 * unit + 8]) {
            return false;
        }
    }
    true
}

/// Returns whether `units` status units of a trailer, from number `from` on, are all erased. Units
/// are numbered from 0. There is at least one, and the trailer has all of them. Up to 8 units are
/// read together, in one read of at most 64 bytes.
///
/// A swap calls this once for 8 steps, and then sets these units without reading them again. The
/// status count doesn't replace the call: on a flash that holds no valid state, units after the
/// first erased one may be set.
///
/// The map is laid out on the flash. Images are numbered from 0, and the map has this image.
///
/// # Errors
/// `Off` if the flash was off. The flash never changes.
pub fn are_units_erased<F: Flash>(
    flash: &mut F,
    map: &SectorMap,
    image: u8,
    side: Side,
    from: u32,
    units: u32,
) -> Result<bool>
    requires image { HasImage map.now image (F.chip flash.old) }
    requires some { 0 < units }
    requires within { from + units ≤ 3 * slot_sectors map.now image }
    ensures { Tells (are_units_erased
        (trailer_bytes map.now (F.chip flash.old) image side) from units)
        (F.chip flash.old) (F.chip flash.new) result }
{
    is_range_erased(flash, map, image, side, UNIT * from, UNIT * units)
}

/// Sets the first erased status unit of a trailer, and reads nothing. The caller knows its number,
/// counted from 0: the status count, which is below three for each sector of the slot.
///
/// The map is laid out on the flash. Images are numbered from 0, and the map has this image.
///
/// # Errors
/// - `Cut` if power failed: the unit holds any bytes, so it may count or not. All other bytes are
///   unchanged.
/// - `Off` if the flash was off before: nothing changed.
pub fn push_status<F: Flash>(
    flash: &mut F,
    map: &SectorMap,
    image: u8,
    side: Side,
    count: u32,
) -> Result<()>
    requires image { HasImage map.now image (F.chip flash.old) }
    requires count { count ≡ status_count_of map.now (F.chip flash.old) image side }
    requires room { count < 3 * slot_sectors map.now image }
    ensures { PushesStatus map.now image side (F.chip flash.old) (F.chip flash.new) result }
{
    set_unit(flash, map.trailer_start(image, side) + UNIT * count)
}
