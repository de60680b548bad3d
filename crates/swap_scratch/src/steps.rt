//! Takes the steps of the swap of one image: each step copies a sector, and is then counted by a
//! status unit.

ghost use Rattle.std.specs.Prelude.{◌/◌, ◌%◌};
ghost use Rattle.sector_map.specs.Map.{HasImage, IsLaidOut};
ghost use Rattle.swap_scratch.specs.Place.{sectors_of_swap, IsMove};
ghost use Rattle.swap_scratch.specs.Steps.{IsNextStep, IsStep, MovesSector, TakesStep};

use crate::copying::copy_sector;
use flash_model::{Flash, Result};
use sector_map::{SectorMap, Side};
use trailer::push_status;

/// The source and the target sector of step `status`, counted from 0. The steps go from the highest
/// index of the used sectors to the lowest.
#[tactic(auto, using(crate::proofs::Sizes::slot_addressed))]
fn sectors_of_step(map: &SectorMap, image: u8, used: u32, status: u32) -> (u32, u32)
    requires { IsStep map.now image used status }
    ensures { IsMove (sectors_of_swap map.now image used) (status / 3) (status % 3)
        result.0 result.1 }
{
    let index = used - 1 - status / 3;
    let primary = map.slot(image, Side::Primary) + index;
    let secondary = map.slot(image, Side::Secondary) + index;
    match status % 3 {
        0 => (secondary, map.scratch()),
        1 => (primary, secondary),
        _ => (map.scratch(), primary),
    }
}

/// Copies the sector of step `status`, counted from 0.
fn move_sector<F: Flash>(
    flash: &mut F,
    map: &SectorMap,
    image: u8,
    used: u32,
    status: u32,
) -> Result<()>
    requires laid_out { IsLaidOut map.now (F.chip flash.old) }
    requires step { IsStep map.now image used status }
    ensures { MovesSector map.now image used status (F.chip flash.old) (F.chip flash.new) result }
{
    let (from, to) = sectors_of_step(map, image, used, status);
    copy_sector(flash, from, to)
}

/// Takes step `status`, counted from 0, and counts it. If the flash is at no place of a swap, units
/// after the first erased one may be set. Then the count increases by more than one. The trailer
/// isn't read: since it counts `status` steps, the unit of this number is erased.
pub(crate) fn take_step<F: Flash>(
    flash: &mut F,
    map: &SectorMap,
    image: u8,
    side: Side,
    used: u32,
    status: u32,
) -> Result<()>
    requires image { HasImage map.now image (F.chip flash.old) }
    requires step { IsNextStep map.now image side used status (F.chip flash.old) }
    ensures { TakesStep map.now image side status (F.chip flash.old) (F.chip flash.new) result }
{
    move_sector(flash, map, image, used, status)?;
    push_status(flash, map, image, side, status)
}
