//! Prepares the trailers of a set to count the steps of a swap.

ghost use Rattle.std.specs.Prelude.{◌≡◌, true};
ghost use Rattle.decision.specs.Telling.{Tells};
ghost use Rattle.sector_map.specs.Map.{HasImage, IsLaidOut};
ghost use Rattle.common.specs.Masks.{is_member};
ghost use Rattle.image_reading.specs.Slot.{slot_bytes};
ghost use Rattle.flash_contents.specs.Starting.{IsHeld};
ghost use Rattle.boot_core.specs.Preparing.{IsImageHeld, IsSetHeld, IsSizeIn, IsSwapSizeIn, IsUsedIn};
ghost use Rattle.boot_core.specs.Preparing.{Prepares, PreparesImage, PreparesMember};

use common::mask::is_member;
use flash_model::{Flash, Result};
use image_reading::{Desc, image_length, intact_image_into};
use sector_map::{SectorMap, Side};
use trailer::{clear, write_size};

/// The length of the image that a slot begins with. The caller knows that the image is intact, so no
/// digest is taken.
fn known_length<F: Flash>(flash: &mut F, map: &SectorMap, image: u8, side: Side) -> Result<u32>
    requires there { HasImage map.now image (F.chip flash.old) }
    requires held { IsHeld (slot_bytes map.now (F.chip flash.old) image side) }
    ensures { Tells (IsSizeIn map.now image (IsUsedIn map.now image side))
        (F.chip flash.old) (F.chip flash.new) result }
{
    let length = image_length(flash, map, image, side)?;
    Ok(length as u32)
}

/// How many bytes of a slot a swap has to move: the length of its intact image, or the length of
/// the slot if it begins with none.
fn seen_length<F: Flash>(flash: &mut F, map: &SectorMap, image: u8, side: Side) -> Result<u32>
    requires { HasImage map.now image (F.chip flash.old) }
    ensures { Tells (IsSizeIn map.now image (IsUsedIn map.now image side))
        (F.chip flash.old) (F.chip flash.new) result }
{
    let mut description = Desc::default();
    if intact_image_into(flash, map, image, side, &mut description)? {
        return Ok(description.length as u32);
    }
    Ok(map.slot_length(image))
}

/// How many bytes of a slot a swap has to move, with or without a look at the image's digest.
fn used_length<F: Flash>(
    flash: &mut F,
    map: &SectorMap,
    image: u8,
    side: Side,
    is_intact: bool,
) -> Result<u32>
    requires there { HasImage map.now image (F.chip flash.old) }
    requires held { is_intact ≡ true
        → IsHeld (slot_bytes map.now (F.chip flash.old) image side) }
    ensures { Tells (IsSizeIn map.now image (IsUsedIn map.now image side))
        (F.chip flash.old) (F.chip flash.new) result }
{
    if is_intact {
        known_length(flash, map, image, side)
    } else {
        seen_length(flash, map, image, side)
    }
}

/// How many bytes of each slot of an image a swap has to move.
fn swap_length<F: Flash>(flash: &mut F, map: &SectorMap, image: u8, is_intact: bool) -> Result<u32>
    requires there { HasImage map.now image (F.chip flash.old) }
    requires held { is_intact ≡ true → IsImageHeld map.now image (F.chip flash.old) }
    ensures { Tells (IsSizeIn map.now image (IsSwapSizeIn map.now image))
        (F.chip flash.old) (F.chip flash.new) result }
{
    let running = used_length(flash, map, image, Side::Primary, is_intact)?;
    let asked = used_length(flash, map, image, Side::Secondary, is_intact)?;
    Ok(running.max(asked))
}

/// Prepares a trailer to count the steps of a swap: erases it, and writes the size of the swap.
fn prepare_image<F: Flash>(
    flash: &mut F,
    map: &SectorMap,
    image: u8,
    side: Side,
    is_intact: bool,
) -> Result<()>
    requires there { HasImage map.now image (F.chip flash.old) }
    requires held { is_intact ≡ true → IsImageHeld map.now image (F.chip flash.old) }
    ensures { PreparesImage map.now image side (F.chip flash.old) (F.chip flash.new) result }
{
    clear(flash, map, image, side)?;
    let size = swap_length(flash, map, image, is_intact)?;
    write_size(flash, map, image, side, size)
}

/// Prepares the trailer of an image if the image is in a mask.
fn prepare_member<F: Flash>(
    flash: &mut F,
    map: &SectorMap,
    mask: u8,
    side: Side,
    image: u8,
    is_intact: bool,
) -> Result<()>
    requires there { HasImage map.now image (F.chip flash.old) }
    requires held { is_intact ≡ true → is_member mask image ≡ true
        → IsImageHeld map.now image (F.chip flash.old) }
    ensures { PreparesMember map.now mask side image (F.chip flash.old) (F.chip flash.new) result }
{
    if is_member(mask, image) {
        prepare_image(flash, map, image, side, is_intact)?;
    }
    Ok(())
}

/// Prepares the trailers of a set on one side to count the steps of a swap, one trailer after the
/// other. Then no status unit of them is set. Each holds how many bytes its swap moves: the longer
/// length of the two images, or the slot's if one slot begins with none. If the caller knows that
/// all images of the set are intact, on both sides (`are_intact`), no digest is taken.
///
/// # Errors
/// `Cut`: power failed. These trailers hold any bytes, and all else is unchanged. `Off`: the flash
/// was off before. Nothing changed.
pub(crate) fn prepare_set<F: Flash>(
    flash: &mut F,
    map: &SectorMap,
    mask: u8,
    side: Side,
    are_intact: bool,
) -> Result<()>
    requires laid_out { IsLaidOut map.now (F.chip flash.old) }
    requires held { are_intact ≡ true → IsSetHeld map.now mask (F.chip flash.old) }
    ensures { Prepares map.now mask side (F.chip flash.old) (F.chip flash.new) result }
{
    for image in 0..map.images {
        prepare_member(flash, map, mask, side, image, are_intact)?;
    }
    Ok(())
}
