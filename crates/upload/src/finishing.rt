//! Finishing an upload: its last unit, its checks, and its request.

ghost use Rattle.std.specs.Prelude.{◌≡◌, ◌+◌, ◌-◌, ◌++◌, ◌≤◌, ◌<◌, Some, length, replicate};
ghost use Rattle.flash_model.specs.Chip.{IsErased};
ghost use Rattle.sector_map.specs.Map.{HasImage, IsLaidOut, length_of, start_of};
ghost use Rattle.sector_map.specs.Part.{Slot};
ghost use Rattle.sector_map.specs.declared.layout.Side.TheVariants.{Secondary};
ghost use Rattle.upload.specs.View.{view};
ghost use Rattle.upload.specs.Sessions.{IsOpenAt, upload_at};
ghost use Rattle.upload.specs.declared.sessions.Upload.{Upload};
ghost use Rattle.upload.specs.Slots.{Appends, HasRoomBehind};
ghost use Rattle.upload.specs.Finishing.{FinishesTaken, FinishesUpload, JudgesSlot, ReadsDigest};

use crate::adding::extend;
use crate::sessions::{UNIT, Upload, Uploads};
use crate::slots::write_slot;
use arrayvec::ArrayVec;
use flash_model::{Flash, Result};
use image_reading::{Desc, SlotError, describe_file_into, digest_file};
use machine::UploadError;
use sector_map::{SectorMap, Side};
use trailer::request;

const ERASED_UNIT: [u8; UNIT] = [0xff, 0xff, 0xff, 0xff, 0xff, 0xff, 0xff, 0xff];

/// Fills a unit with 0xFF, which is what erased flash reads.
fn fill(unit: &mut ArrayVec<u8, UNIT>)
    requires { length unit.old.items ≤ 8 }
    ensures { unit.new.items
        ≡ unit.old.items ++ replicate (8 - length unit.old.items) 0xff }
{
    let missing = UNIT - unit.len();
    extend(unit, &ERASED_UNIT[..missing]);
}

/// Writes the bytes that were held in memory, with their unit filled. If there are none, nothing is
/// written.
fn write_last<F: Flash>(
    flash: &mut F,
    map: &SectorMap,
    image: u8,
    start: u32,
    mut unit: ArrayVec<u8, UNIT>,
) -> Result<()>
    requires behind { HasRoomBehind map.now image start (length unit.items) (F.chip flash.old) }
    requires few { length unit.items < 8 }
    requires whole { 0 < length unit.items → IsErased (F.chip flash.old)
        (start_of map.now (Slot image Secondary) + start) 8 }
    ensures { Appends map.now image start unit.items 8
        (F.chip flash.old) (F.chip flash.new) result }
{
    if unit.is_empty() {
        return Ok(());
    }
    fill(&mut unit);
    write_slot(flash, map, image, start, unit.as_slice())
}

/// Returns the SHA-256 of the first `size` bytes of a secondary slot.
fn digest_incoming<F: Flash>(
    flash: &mut F,
    map: &SectorMap,
    image: u8,
    size: u32,
) -> Result<[u8; 32]>
    requires image { HasImage map.now image (F.chip flash.old) }
    requires room { size ≤ length_of map.now (Slot image Secondary) }
    ensures { ReadsDigest map.now image size (F.chip flash.old) (F.chip flash.new) result }
{
    // This read succeeds only on a flash that is on. The contract of `digest_file` doesn't say so.
    flash.read(0, &mut [])?;
    digest_file(flash, map, image, Side::Secondary, size)
}

/// Checks the first `size` bytes of a secondary slot: first their digest, then whether they are an
/// intact image. It isn't inlined: the description takes stack only during this call.
#[inline(never)]
fn judge<F: Flash>(
    flash: &mut F,
    map: &SectorMap,
    image: u8,
    size: u32,
    digest: &[u8; 32],
) -> Result<(), UploadError>
    requires image { HasImage map.now image (F.chip flash.old) }
    requires room { size ≤ length_of map.now (Slot image Secondary) }
    ensures { JudgesSlot map.now image size digest.now
        (F.chip flash.old) (F.chip flash.new) result }
{
    let found = digest_incoming(flash, map, image, size)?;
    if found != *digest {
        return Err(UploadError::DigestWrong);
    }
    let mut description = Desc::default();
    match describe_file_into(flash, map, image, Side::Secondary, size, &mut description) {
        Ok(()) => Ok(()),
        Err(SlotError::Image(fault)) => Err(UploadError::NotAnImage(fault)),
        Err(SlotError::Flash(error)) => Err(UploadError::Flash(error)),
        Err(SlotError::NoMemory) => unreachable!(),
    }
}

/// Finishes an upload that was taken out of the table.
fn finish_upload<F: Flash>(
    flash: &mut F,
    map: &SectorMap,
    image: u8,
    upload: Upload,
) -> Result<(), UploadError>
    requires laid_out { IsLaidOut map.now (F.chip flash.old) }
    requires open { IsOpenAt (view map.now (F.chip flash.old)) image upload }
    ensures { FinishesTaken map.now image upload (F.chip flash.old) (F.chip flash.new) result }
{
    if upload.received != upload.size {
        return Err(UploadError::SizeWrong);
    }
    let start = upload.received - upload.held.len() as u32;
    write_last(flash, map, image, start, upload.held)?;
    judge(flash, map, image, upload.size, &upload.digest)?;
    request(flash, map, image, upload.kind)?;
    Ok(())
}

impl Uploads {
    /// Finishes the upload of an image: checks the complete file, and requests the image as its
    /// manifest says.
    ///
    /// `image` is the image's number from 0. The call writes the bytes that were held in memory,
    /// with their unit filled with 0xFF. Then it checks the length, the digest and the image. The
    /// upload is closed in any case.
    ///
    /// The map has to be laid out on the flash, and has to be that of the [`accept`](Self::accept)
    /// which opened the upload. Slot and trailer have to be as the earlier calls left them.
    ///
    /// # Errors
    /// If several checks fail, the first in this order is returned.
    ///
    /// - `NoSession`: no upload of the image is open. Nothing changed.
    /// - `SizeWrong`: fewer bytes were sent than the manifest says. Nothing is written or
    ///   requested.
    /// - `DigestWrong`: the SHA-256 of the bytes isn't the manifest's. Nothing is requested, and at
    ///   most the unit of the held bytes is written.
    /// - `NotAnImage`: the bytes aren't an intact image. The error has the first check that fails.
    ///   The flash is as after `DigestWrong`.
    /// - `Flash` with `Cut`: power failed after the check of the length. All uploads are closed.
    ///   The image has either no request or the one of its manifest.
    /// - `Flash` with `Off`: the length was right, and the flash was off. All uploads are closed,
    ///   and nothing is requested for the image.
    pub fn finish<F: Flash>(
        &mut self,
        flash: &mut F,
        map: &SectorMap,
        image: u8,
    ) -> Result<(), UploadError>
        requires laid_out { IsLaidOut map.now (F.chip flash.old) }
        requires open { (u : Upload) → upload_at self.old.sessions image ≡ Some u
            → IsOpenAt (view map.now (F.chip flash.old)) image u }
        ensures { FinishesUpload map.now image self.old.sessions self.new.sessions
            (F.chip flash.old) (F.chip flash.new) result }
    {
        let Some(upload) = self.take(image) else {
            return Err(UploadError::NoSession);
        };
        let answer = finish_upload(flash, map, image, upload);
        self.close_after(&answer);
        answer
    }
}
