//! The description of the image in a slot.

ghost use Rattle.std.specs.Prelude.{◌≡◌, ◌<◌, ◌≤◌, IfSome, None};
ghost use Rattle.flash_model.specs.Blanks.{IsBlankOf};
ghost use Rattle.c_interface.specs.Setup.{HasRoom};
ghost use Rattle.c_interface.specs.Slots.{AnswersSlot, DescribesSlot, IsSide};

use crate::description::{Description, NO_DESCRIPTION, description_of};
use crate::numbers::{DONE, NO_IMAGE};
use crate::setup::{Setup, check_setup};
use image_reading::{SlotError, describe_slot};
use sector_map::{SectorMap, Side};
use slice_flash::ReadOnlyFlash;
use std::marker::Brand;
use std::sync::ledger::{Blank, Ledger};

/// The side of this number.
fn side_of(number: u8) -> Option<Side>
    ensures some { IfSome result (IsSide number) }
    ensures none { result ≡ None → 2 ≤ number }
{
    match number {
        0 => Some(Side::Primary),
        1 => Some(Side::Secondary),
        _ => None,
    }
}

/// Describes the image that a slot begins with, in bytes that a map is laid out on.
fn describe_on<L: Ledger>(
    blank: Blank,
    map: &SectorMap,
    bytes: &[u8],
    image: u8,
    side: Side,
    description: &mut Description,
) -> u32
    requires blank { IsBlankOf blank L.name L.parts 1 }
    requires room { HasRoom map.now bytes.now }
    requires there { image < map.now.images }
    ensures { DescribesSlot map.now bytes.now image side description.new result }
{
    let mut flash = ReadOnlyFlash::<L>::new(blank, bytes, map.sector_size);
    match describe_slot(&mut flash, map, image, side) {
        Ok(found) => {
            *description = description_of(&found);
            DONE
        }
        Err(SlotError::Image(fault)) => {
            *description = NO_DESCRIPTION;
            u32::from(fault.code())
        }
        Err(_) => unreachable!(),
    }
}

/// Describes the image at the front of a slot. The bytes after it are ignored. Images are numbered
/// from 0; side 0 is the primary slot, 1 the secondary one.
///
/// Returns 0 if it is intact, else the number of the first check that fails, 1 to 15, or why there
/// is no such slot. The description is all zero then.
#[unsafe(no_mangle)]
pub extern "C" fn bootswap_slot(
    setup: &Setup,
    flash: &[u8],
    image: u8,
    side: u8,
    description: &mut Description,
) -> u32
    ensures { AnswersSlot setup.now image side flash.now description.new result }
{
    *description = NO_DESCRIPTION;
    let checked = match check_setup(setup, flash) {
        Ok(checked) => checked,
        Err(number) => return number,
    };
    if image >= checked.map.images {
        return NO_IMAGE;
    }
    let Some(side) = side_of(side) else {
        return NO_IMAGE;
    };
    describe_on::<Brand>(Blank::new(1), &checked.map, flash, image, side, description)
}
