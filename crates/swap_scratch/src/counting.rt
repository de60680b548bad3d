//! Finds the status count after each step of a swap, with few reads of the trailer. A read can be
//! slow: a flash that keeps its writes in a journal searches the journal for each read.

ghost use Rattle.std.specs.Prelude.{◌*◌, ◌<◌, ◌≤◌};
ghost use Rattle.sector_map.specs.Map.{HasImage, slot_sectors};
ghost use Rattle.trailer.specs.Status.{status_count_of};
ghost use Rattle.swap_scratch.specs.Counting.{FindsCount, IsAfterStep};

use flash_model::{Flash, Result};
use sector_map::{SectorMap, Side};
use trailer::{are_units_erased, status_count_from, status_units};

/// The number of status units that are read together: 64 bytes.
const BLOCK: u32 = 8;

/// What a swap knows of the status units of a trailer.
#[derive(Clone, Copy)]
pub(crate) struct KnownUnits {
    /// The status count.
    pub count: u32,
    /// The number after the last unit that is known to be erased: the units from `count` up to this
    /// one, not including it, are erased.
    pub clear: u32,
}

/// Finds the status count, and erased units from there on. The caller knows that the units before
/// number `from` are set. `from` is the number of a unit of the trailer.
///
/// One read finds whether the next units are all erased. If one of them is set, the count is found
/// by reading on, as at the start of a swap that was interrupted. On a flash that holds no valid
/// state an erased unit may also precede a set one.
pub(crate) fn count_from<F: Flash>(
    flash: &mut F,
    map: &SectorMap,
    image: u8,
    side: Side,
    from: u32,
) -> Result<KnownUnits>
    requires image { HasImage map.now image (F.chip flash.old) }
    requires set { from ≤ status_count_of map.now (F.chip flash.old) image side }
    requires unit { from < 3 * slot_sectors map.now image }
    ensures { FindsCount map.now image side (F.chip flash.old) (F.chip flash.new) result }
{
    let all = status_units(map, image);
    let units = (all - from).min(BLOCK);
    if are_units_erased(flash, map, image, side, from, units)? {
        return Ok(KnownUnits {
            count: from,
            clear: from + units,
        });
    }
    let count = status_count_from(flash, map, image, side, from)?;
    let clear = (count + 1).min(all);
    Ok(KnownUnits { count, clear })
}

/// Finds the status count after a step, which set unit `known.count` and changed no other unit.
/// Reads nothing if the next unit is known to be erased.
pub(crate) fn next_count<F: Flash>(
    flash: &mut F,
    map: &SectorMap,
    image: u8,
    side: Side,
    known: KnownUnits,
) -> Result<KnownUnits>
    requires image { HasImage map.now image (F.chip flash.old) }
    requires step { IsAfterStep map.now (F.chip flash.old) image side known }
    ensures { FindsCount map.now image side (F.chip flash.old) (F.chip flash.new) result }
{
    let next = known.count + 1;
    if next < known.clear {
        return Ok(KnownUnits {
            count: next,
            clear: known.clear,
        });
    }
    if next == status_units(map, image) {
        return Ok(KnownUnits {
            count: next,
            clear: next,
        });
    }
    count_from(flash, map, image, side, next)
}
