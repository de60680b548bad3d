//! Finds the number of sectors of each slot that a swap moves.

ghost use Rattle.std.specs.Prelude.{◌≡◌, ◌<◌, IfSome, Option};
ghost use Rattle.sector_map.specs.Map.{HasImage, slot_sectors};
ghost use Rattle.swap_scratch.specs.Used.{sectors_for};
ghost use Rattle.swap_scratch.specs.Steps.{ReadsUsed};

use flash_model::{Flash, Result};
use sector_map::{SectorMap, Side};
use trailer::read_size;

/// The number of sectors that hold a size, or all sectors of the slot if there is no size.
fn sectors_for(map: &SectorMap, image: u8, size: Option<u32>) -> u32
    requires there { image < map.now.images }
    requires some { IfSome size (λ n. 0 < n) }
    ensures { result ≡ sectors_for (slot_sectors map.now image) map.now.sector_size size }
{
    match size {
        Some(size) => (size - 1) / map.sector_size + 1,
        None => map.slot_sectors(image),
    }
}

/// Reads how many sectors of each slot of an image a swap moves.
#[tactic(auto, using(crate::proofs::Sizes::used_is, crate::proofs::Sizes::some_size))]
pub(crate) fn used_sectors<F: Flash>(
    flash: &mut F,
    map: &SectorMap,
    image: u8,
    side: Side,
) -> Result<u32>
    requires image { HasImage map.now image (F.chip flash.old) }
    ensures { ReadsUsed map.now image side (F.chip flash.old) (F.chip flash.new) result }
{
    let size = read_size(flash, map, image, side)?;
    Ok(sectors_for(map, image, size))
}
