//! Withdrawing a request.

ghost use Rattle.sector_map.specs.Map.{HasImage, IsLaidOut};
ghost use Rattle.upload.specs.Withdrawing.{WithdrawsRequest, WithdrawsStanding};

use crate::sessions::Uploads;
use flash_model::Flash;
use machine::UploadError;
use sector_map::SectorMap;
use trailer::{standing, withdraw};

/// Withdraws the request of an image, if one is pending.
#[tactic(auto, using(crate::proofs::Requested::stands_in_units))]
fn withdraw_standing<F: Flash>(flash: &mut F, map: &SectorMap, image: u8) -> Result<(), UploadError>
    requires { HasImage map.now image (F.chip flash.old) }
    ensures { WithdrawsStanding map.now image (F.chip flash.old) (F.chip flash.new) result }
{
    if standing(flash, map, image)?.is_none() {
        return Err(UploadError::NothingRequested);
    }
    withdraw(flash, map, image)?;
    Ok(())
}

impl Uploads {
    /// Withdraws the request of an image.
    ///
    /// `image` is the image's number from 0. An open upload stays open: its image has no request.
    ///
    /// The map has to be laid out on the flash.
    ///
    /// # Errors
    /// - `NothingRequested`: nothing is requested for the image, or there is no such image. Nothing
    ///   changed.
    /// - `Flash` with `Cut`: power failed. All uploads are closed, and the request is unchanged or
    ///   withdrawn.
    /// - `Flash` with `Off`: the flash was off. All uploads are closed, and nothing else changed.
    pub fn withdraw<F: Flash>(
        &mut self,
        flash: &mut F,
        map: &SectorMap,
        image: u8,
    ) -> Result<(), UploadError>
        requires { IsLaidOut map.now (F.chip flash.old) }
        ensures { WithdrawsRequest map.now image self.old.sessions self.new.sessions
            (F.chip flash.old) (F.chip flash.new) result }
    {
        if image >= map.images {
            return Err(UploadError::NothingRequested);
        }
        let answer = withdraw_standing(flash, map, image);
        self.close_after(&answer);
        answer
    }
}
