//! Reads and writes units of a trailer by their places: the number of bytes before the trailer's
//! end.

ghost use Rattle.std.specs.Prelude.{◌≡◌, ◌+◌, ◌<◌, ◌≤◌, true, length, slice_range};
ghost use Rattle.flash_model.specs.Units.{are_erased};
ghost use Rattle.trailer.specs.Fields.{bytes_at, is_set, place_of, trailer_bytes};
ghost use Rattle.trailer.specs.Reads.{HasPlace, HasRange, Tells};
ghost use Rattle.trailer.specs.Writes.{HasUnits, WritesUnits};

use flash_model::{Flash, Result, are_erased, is_erased};
use sector_map::{SectorMap, Side};

/// Returns the address `from_end` bytes before the end of a trailer.
#[tactic(auto, using(crate::proofs::Places::trailer_addressed))]
pub(crate) fn place_of(map: &SectorMap, image: u8, side: Side, from_end: u32) -> u32
    requires there { image < map.now.images }
    requires within { from_end ≤ map.now.sector_size }
    ensures { result ≡ place_of map.now image side from_end }
{
    map.trailer_start(image, side) + (map.sector_size - from_end)
}

/// Reads the `N` bytes that begin `from_end` bytes before the end of a trailer.
pub(crate) fn read_bytes<F: Flash, const N: usize>(
    flash: &mut F,
    map: &SectorMap,
    image: u8,
    side: Side,
    from_end: u32,
) -> Result<[u8; N]>
    requires { HasPlace map.now image from_end N (F.chip flash.old) }
    ensures { Tells (bytes_at map.now (F.chip flash.old) image side from_end N)
        (F.chip flash.old) (F.chip flash.new) result }
{
    let mut bytes = [0u8; N];
    flash.read(place_of(map, image, side, from_end), &mut bytes)?;
    Ok(bytes)
}

/// Returns whether the unit that begins `from_end` bytes before the end of a trailer is set.
pub(crate) fn is_unit_set<F: Flash>(
    flash: &mut F,
    map: &SectorMap,
    image: u8,
    side: Side,
    from_end: u32,
) -> Result<bool>
    requires { HasPlace map.now image from_end 8 (F.chip flash.old) }
    ensures { Tells (is_set (bytes_at map.now (F.chip flash.old) image side from_end 8))
        (F.chip flash.old) (F.chip flash.new) result }
{
    let unit: [u8; 8] = read_bytes(flash, map, image, side, from_end)?;
    Ok(!are_erased(&unit))
}

/// Reads the `N` bytes of a trailer from `offset` in its sector on.
pub(crate) fn read_range<F: Flash, const N: usize>(
    flash: &mut F,
    map: &SectorMap,
    image: u8,
    side: Side,
    offset: u32,
) -> Result<[u8; N]>
    requires { HasRange map.now image offset N (F.chip flash.old) }
    ensures { Tells (slice_range
        (trailer_bytes map.now (F.chip flash.old) image side) offset (offset + N))
        (F.chip flash.old) (F.chip flash.new) result }
{
    let mut bytes = [0u8; N];
    flash.read(map.trailer_start(image, side) + offset, &mut bytes)?;
    Ok(bytes)
}

/// Returns whether `length` bytes of a trailer are erased, from `offset` in its sector on.
pub(crate) fn is_range_erased<F: Flash>(
    flash: &mut F,
    map: &SectorMap,
    image: u8,
    side: Side,
    offset: u32,
    length: u32,
) -> Result<bool>
    requires { HasRange map.now image offset length (F.chip flash.old) }
    ensures { Tells (are_erased (slice_range
        (trailer_bytes map.now (F.chip flash.old) image side) offset (offset + length)))
        (F.chip flash.old) (F.chip flash.new) result }
{
    is_erased(flash, map.trailer_start(image, side) + offset, length)
}

/// Programs whole units that begin `from_end` bytes before the end of a trailer. They are erased.
pub(crate) fn write_units<F: Flash>(
    flash: &mut F,
    map: &SectorMap,
    image: u8,
    side: Side,
    from_end: u32,
    units: &[u8],
) -> Result<()>
    requires units { HasUnits map.now image from_end (length units.now) (F.chip flash.old) }
    requires erased { are_erased
        (bytes_at map.now (F.chip flash.old) image side from_end (length units.now)) ≡ true }
    ensures { WritesUnits map.now image side from_end units.now
        (F.chip flash.old) (F.chip flash.new) result }
{
    flash.program(place_of(map, image, side, from_end), units)
}
