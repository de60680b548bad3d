//! Adding a piece to an upload.

ghost use Rattle.std.specs.Prelude.{◌↔◌, ◌+◌, ◌≤◌, IsTrue};
ghost use Rattle.sector_map.specs.Map.{IsLaidOut};
ghost use Rattle.upload.specs.Adding.{TakesPiece};

use crate::adding::add_bytes;
use crate::sessions::{Upload, Uploads};
use flash_model::Flash;
use machine::UploadError;
use sector_map::SectorMap;

/// Returns whether an upload takes `count` bytes more: its size allows them.
fn has_room(upload: &Upload, count: usize) -> bool
    ensures { IsTrue result ↔ upload.now.received + count ≤ upload.now.size }
{
    match upload.size.checked_sub(upload.received) {
        Some(room) => count <= room as usize,
        None => false,
    }
}

impl Uploads {
    /// Appends bytes to the upload of an image.
    ///
    /// `image` is the image's number from 0. Complete units of 8 bytes are programmed into the
    /// secondary slot. The bytes of an incomplete unit are held in memory until the next call.
    ///
    /// The map has to be laid out on the flash, and has to be that of the [`accept`](Self::accept)
    /// which opened the upload. The upload may come from a caller that saved it, and needn't match
    /// the flash. Before it programs units, the call checks that the counts of the upload fit each
    /// other and the slot, that the trailer of the slot reads as erased, and that these units are
    /// erased. It doesn't read the other bytes of the slot: [`stand`](Self::stand) does.
    ///
    /// # Errors
    /// - `NoSession`: no upload of the image is open, or the open one doesn't match the flash as
    ///   far as this call checks it. Nothing changed.
    /// - `TooMuch`: with these bytes the upload is longer than its manifest says. This upload is
    ///   closed, and no other. Nothing is written or requested.
    /// - `Flash` with `Cut`: all checks passed, and power failed. All uploads are closed, and
    ///   nothing is requested for the image.
    /// - `Flash` with `Off`: the flash was off when the trailer was read. All uploads are closed.
    ///
    /// Bytes that complete no unit don't touch the flash, so the errors of the flash can't occur,
    /// and the checks of the flash don't take place.
    pub fn piece<F: Flash>(
        &mut self,
        flash: &mut F,
        map: &SectorMap,
        image: u8,
        bytes: &[u8],
    ) -> Result<(), UploadError>
        requires laid_out { IsLaidOut map.now (F.chip flash.old) }
        ensures { TakesPiece map.now image bytes.now self.old.sessions self.new.sessions
            (F.chip flash.old) (F.chip flash.new) result }
    {
        let Some(mut upload) = self.take(image) else {
            return Err(UploadError::NoSession);
        };
        if !has_room(&upload, bytes.len()) {
            return Err(UploadError::TooMuch);
        }
        match add_bytes(flash, map, image, &mut upload, bytes) {
            Ok(true) => {
                self.put(image, upload);
                Ok(())
            }
            Ok(false) => {
                self.put(image, upload);
                Err(UploadError::NoSession)
            }
            Err(error) => {
                self.close();
                Err(UploadError::Flash(error))
            }
        }
    }
}
