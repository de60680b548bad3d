//! Reads the table of a device at rest from the bytes of its flash.

ghost use Rattle.flash_model.specs.Blanks.{IsBlankOf};
ghost use Rattle.device_texts.specs.FlashOf.{IsFlashOf};

use device_texts::flash_of;
use inputs::table_on;
use reports::Table;
use sector_map::SectorMap;
use std::alloc::{AllocError, Global};
use std::marker::Brand;
use std::sync::ledger::{Blank, Ledger};

/// The table of a device whose flash has these bytes. There is none if the device isn't at rest, a
/// running image can't be read, or the number of bytes isn't that of the map.
pub fn resting_table(
    alloc: Global,
    map: &SectorMap,
    bytes: &[u8],
) -> Result<Option<Table>, AllocError> {
    if bytes.len() != map.bytes_in_all() as usize {
        return Ok(None);
    }
    let bytes = Vec::from_slice(alloc, bytes)?;
    Ok(table_of_flash::<Brand>(alloc, Blank::new(2), map, bytes))
}

/// The table of a device whose flash has these bytes.
fn table_of_flash<L: Ledger>(
    alloc: Global,
    blank: Blank,
    map: &SectorMap,
    bytes: Vec<u8>,
) -> Option<Table>
    requires blank { IsBlankOf blank L.name L.parts 2 }
    requires whole { IsFlashOf map.now bytes.items }
{
    let mut flash = flash_of::<L>(alloc, blank, map, bytes);
    table_on(&mut flash, map)
}
