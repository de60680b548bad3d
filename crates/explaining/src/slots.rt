//! Explains why a slot doesn't begin with an intact image.

ghost use Rattle.std.specs.Prelude.{◌≡◌, ◌<◌};
ghost use Rattle.device_texts.specs.FlashOf.{IsFlashOf, flash_of};
ghost use Rattle.image_reading.specs.Slot.{slot_bytes};

use crate::Result;
use crate::image_notes::explain_bytes;
use device_texts::NoteList;
use sector_map::{SectorMap, Side};

/// The bytes of a slot on a flash of these bytes. They are empty if the flash has no such slot.
pub fn slot_of<'f>(map: &SectorMap, flash: &'f [u8], image: u8, side: Side) -> &'f [u8]
    ensures { image < map.now.images → IsFlashOf map.now flash.now
        → result.now ≡ slot_bytes map.now (flash_of map.now flash.now) image side }
{
    if image >= map.images {
        return &[];
    }
    let start = map.slot_start(image, side) as usize;
    let end = start + map.slot_length(image) as usize;
    if end > flash.len() {
        return &[];
    }
    &flash[start..end]
}

/// Adds why a slot with these bytes doesn't begin with an intact image: it is erased, or a check of
/// its bytes fails.
pub fn explain_slot(notes: &mut NoteList, slot: &[u8], image: u8, side: Side) -> Result {
    if slot.is_empty() || slot.iter().any(|byte| *byte != 0xff) {
        return explain_bytes(notes, slot);
    }
    let name = match side {
        Side::Primary => "primary",
        Side::Secondary => "secondary",
    };
    let count = slot.len();
    notes.add(format_args!(
        "the {name} slot of image {image} is erased: its {count} bytes are 0xff"
    ))
}
