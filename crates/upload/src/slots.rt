//! Writing and erasing a secondary slot.

ghost use Rattle.std.specs.Prelude.{◌≡◌, ℕ, ◌*◌, ◌<◌, length};
ghost use Rattle.sector_map.specs.Map.{HasImage, slot_sectors};
ghost use Rattle.upload.specs.Slots.{Appends, ErasesSector, ErasesSlot, HasRoomBehind};

use flash_model::{Flash, Result, is_erased};
use sector_map::{SectorMap, Side};

/// Programs units of a secondary slot that are erased. No bytes program nothing.
pub(crate) fn write_slot<F: Flash>(
    flash: &mut F,
    map: &SectorMap,
    image: u8,
    at: u32,
    bytes: &[u8],
) -> Result<()>
    requires behind { HasRoomBehind map.now image at (length bytes.now) (F.chip flash.old) }
    requires units { (k : ℕ) × (length bytes.now ≡ 8 * k) }
    ensures { Appends map.now image at bytes.now (length bytes.now)
        (F.chip flash.old) (F.chip flash.new) result }
{
    if bytes.is_empty() {
        return Ok(());
    }
    flash.program(map.slot_start(image, Side::Secondary) + at, bytes)
}

/// Erases a sector of a secondary slot, unless all its bytes are erased.
fn erase_sector<F: Flash>(flash: &mut F, map: &SectorMap, image: u8, index: u32) -> Result<()>
    requires image { HasImage map.now image (F.chip flash.old) }
    requires within { index < slot_sectors map.now image }
    ensures { ErasesSector map.now image index (F.chip flash.old) (F.chip flash.new) result }
{
    let sector = map.slot(image, Side::Secondary) + index;
    if is_erased(flash, map.sector_start(sector), map.sector_size)? {
        return Ok(());
    }
    flash.erase(sector)
}

/// Erases each sector of a secondary slot that isn't erased.
pub(crate) fn erase_slot<F: Flash>(flash: &mut F, map: &SectorMap, image: u8) -> Result<()>
    requires { HasImage map.now image (F.chip flash.old) }
    ensures { ErasesSlot map.now image (F.chip flash.old) (F.chip flash.new) result }
{
    for index in 0..map.slot_sectors(image) {
        erase_sector(flash, map, image, index)?;
    }
    Ok(())
}
