//! Reads and writes the size of a swap.

ghost use Rattle.std.specs.Prelude.{◌≡◌, true};
ghost use Rattle.sector_map.specs.Map.{HasImage};
ghost use Rattle.flash_model.specs.Units.{are_erased};
ghost use Rattle.trailer.specs.Fields.{bytes_at, fields_at, size_bytes, size_in};
ghost use Rattle.trailer.specs.Places.{swap_size_place};
ghost use Rattle.trailer.specs.Reads.{Tells};
ghost use Rattle.trailer.specs.Writes.{WritesSize};

use crate::format::SWAP_SIZE;
use crate::units::{read_bytes, write_units};
use byteorder::{ByteOrder, LittleEndian};
use flash_model::{Flash, Result};
use sector_map::{SectorMap, Side};

/// Returns the unit of a size: the number in little-endian order, and four zero bytes.
fn size_unit(size: u32) -> [u8; 8]
    ensures { result ≡ size_bytes size }
{
    let mut unit = [0u8; 8];
    LittleEndian::write_u32(&mut unit, size);
    unit
}

/// Returns the size in a unit, if it is from 1 to `limit`.
fn size_in(unit: &[u8; 8], limit: u32) -> Option<u32>
    ensures { result ≡ size_in limit unit.now }
{
    let size = LittleEndian::read_u32(unit);
    if size > 0 && size <= limit && unit[4..] == [0, 0, 0, 0] {
        Some(size)
    } else {
        None
    }
}

/// Writes `swap_size` of a trailer: the number of bytes of each slot that a swap moves, from 1 to
/// the slot's length. The unit is erased.
///
/// The map is laid out on the flash. Images are numbered from 0, and the map has this image.
///
/// # Errors
/// - `Cut` if power failed: the unit holds any bytes, and all other bytes are unchanged.
/// - `Off` if the flash was off before: nothing changed.
pub fn write_size<F: Flash>(
    flash: &mut F,
    map: &SectorMap,
    image: u8,
    side: Side,
    size: u32,
) -> Result<()>
    requires image { HasImage map.now image (F.chip flash.old) }
    requires erased { are_erased
        (bytes_at map.now (F.chip flash.old) image side swap_size_place 8) ≡ true }
    ensures { WritesSize map.now image side size (F.chip flash.old) (F.chip flash.new) result }
{
    write_units(flash, map, image, side, SWAP_SIZE, &size_unit(size))
}

/// Reads `swap_size` of a trailer: the number of bytes of each slot that a swap moves. It is `None`
/// in each of these cases:
/// - The unit is erased.
/// - Its number isn't from 1 to the slot's length.
/// - Its last four bytes aren't zero.
///
/// The map is laid out on the flash. Images are numbered from 0, and the map has this image.
///
/// # Errors
/// `Off` if the flash was off. The flash never changes.
pub fn read_size<F: Flash>(
    flash: &mut F,
    map: &SectorMap,
    image: u8,
    side: Side,
) -> Result<Option<u32>>
    requires { HasImage map.now image (F.chip flash.old) }
    ensures { Tells (fields_at map.now (F.chip flash.old) image side).size
        (F.chip flash.old) (F.chip flash.new) result }
{
    let unit = read_bytes(flash, map, image, side, SWAP_SIZE)?;
    Ok(size_in(&unit, map.slot_length(image)))
}
