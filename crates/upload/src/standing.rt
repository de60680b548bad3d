//! Whether saved uploads match the contents of a flash.

ghost use Rattle.std.specs.Prelude.{◌≡◌, ◌↔◌, ◌≤◌, ℕ, IfOk, Some, IsTrue, length, take};
ghost use Rattle.std.specs.Prelude.{IfSome, None};
ghost use Rattle.sector_map.specs.Map.{HasImage, IsLaidOut, length_of};
ghost use Rattle.sector_map.specs.Part.{Slot};
ghost use Rattle.sector_map.specs.declared.layout.Side.TheVariants.{Secondary};
ghost use Rattle.trailer.specs.Reads.{Decides};
ghost use Rattle.trailer.specs.Standing.{incoming_slot};
ghost use Rattle.upload.specs.Sessions.{IsWritten};
ghost use Rattle.upload.specs.Standing.{HasCounts, TellsOpen, TellsStand};

use crate::sessions::{UNIT, Upload, Uploads};
use common::limits::MOST_IMAGES;
use flash_model::{Flash, Result, is_erased};
use sector_map::{SectorMap, Side};
use trailer::is_blank;

/// Returns how many bytes of an upload are written, or none if its counts don't fit each other and
/// the slot of its image.
pub(crate) fn written_of(map: &SectorMap, image: u8, upload: &Upload) -> Option<u32>
    ensures some { IfSome result (λ written. HasCounts map.now image written upload.now) }
    ensures none { result ≡ None → (written : ℕ) → HasCounts map.now image written upload.now → ⊥ }
{
    let held = upload.held.len();
    if image >= map.images || held >= UNIT || upload.received < held as u32 {
        return None;
    }
    let written = upload.received - held as u32;
    if written % UNIT as u32 != 0 || upload.size < upload.received {
        return None;
    }
    if map.slot_length(image) < upload.size {
        return None;
    }
    Some(written)
}

/// Returns whether a secondary slot is erased from byte `at` on.
fn is_erased_behind<F: Flash>(flash: &mut F, map: &SectorMap, image: u8, at: u32) -> Result<bool>
    requires image { HasImage map.now image (F.chip flash.old) }
    requires within { at ≤ length_of map.now (Slot image Secondary) }
    ensures { Decides (IsWritten (incoming_slot map.now (F.chip flash.old) image)
        (take at (incoming_slot map.now (F.chip flash.old) image)))
        (F.chip flash.old) (F.chip flash.new) result }
{
    let start = map.slot_start(image, Side::Secondary);
    is_erased(flash, start + at, map.slot_length(image) - at)
}

/// Returns whether an upload of an image matches the flash.
fn stands<F: Flash>(flash: &mut F, map: &SectorMap, image: u8, upload: &Upload) -> Result<bool>
    requires { IsLaidOut map.now (F.chip flash.old) }
    ensures { TellsOpen map.now image (Some upload.now)
        (F.chip flash.old) (F.chip flash.new) result }
{
    let Some(written) = written_of(map, image, upload) else {
        return Ok(false);
    };
    let is_erased = is_erased_behind(flash, map, image, written)?;
    let is_blank = is_blank(flash, map, image, Side::Secondary)?;
    // `&&` would add an exit path, which has to be proved.
    Ok(is_erased & is_blank)
}

/// Returns whether the upload of an image matches the flash, if one is open.
fn stands_if_open<F: Flash>(
    flash: &mut F,
    map: &SectorMap,
    image: u8,
    upload: &Option<Upload>,
) -> Result<bool>
    requires { IsLaidOut map.now (F.chip flash.old) }
    ensures { TellsOpen map.now image upload.now (F.chip flash.old) (F.chip flash.new) result }
{
    match upload {
        Some(upload) => stands(flash, map, image, upload),
        None => Ok(true),
    }
}

/// Returns whether each open upload of a table matches the flash. The table has an entry an image.
fn all_stand<F: Flash>(flash: &mut F, map: &SectorMap, sessions: &[Option<Upload>]) -> Result<bool>
    requires laid_out { IsLaidOut map.now (F.chip flash.old) }
    requires few { length sessions.now ≤ MOST_IMAGES }
    ensures { TellsStand map.now sessions.now (F.chip flash.old) (F.chip flash.new) result }
{
    for image in 0..sessions.len() {
        let is_standing = stands_if_open(flash, map, image as u8, &sessions[image])?;
        if !is_standing {
            return Ok(false);
        }
    }
    Ok(true)
}

impl Uploads {
    /// Returns whether each open upload matches the flash, as the calls that opened and filled it
    /// left it.
    ///
    /// That is so if the written bytes are complete units of the image's secondary slot and the
    /// slot is erased after them. Its trailer has to read as an erased one, and the upload has to
    /// fit the slot. It is for a caller that saves uploads between calls, and can't know what
    /// happened to the flash meanwhile.
    ///
    /// The map has to be laid out on the flash. The call reads the slots of open uploads after the
    /// written bytes. It doesn't allocate.
    ///
    /// # Errors
    /// `Off`: the flash was off when it was read. It is read if the counts of the first open upload
    /// fit each other and the slot. Nothing changes in any case.
    pub fn stand<F: Flash>(&self, flash: &mut F, map: &SectorMap) -> Result<bool>
        requires { IsLaidOut map.now (F.chip flash.old) }
        ensures { TellsStand map.now self.now.sessions
            (F.chip flash.old) (F.chip flash.new) result }
    {
        all_stand(flash, map, &self.sessions)
    }
}
