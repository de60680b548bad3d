//! Explains which images are on trial though they were requested permanently.

use crate::Result;
use common::limits::MOST_IMAGES;
use common::mask::is_member;
use device_texts::NoteList;
use reports::Report;
use sector_map::{SectorMap, Side};

/// The distance in bytes of the unit `image_ok` from the end of its trailer's sector. The unit is
/// set if the request is permanent.
const IMAGE_OK: usize = 24;

/// The length of a unit in bytes.
const UNIT: usize = 8;

/// The permanent requests of a device, as far as the run shows them.
#[derive(Clone, Copy, Default)]
pub struct Trials {
    /// Whether the request of each image is permanent.
    permanent: [bool; MOST_IMAGES],
    /// Whether each image is on trial, and was requested permanently.
    tried: [bool; MOST_IMAGES],
}

impl Trials {
    /// The requests on the flash of these bytes. No image is on trial.
    pub fn on(map: &SectorMap, flash: &[u8]) -> Trials {
        let mut trials = Trials::default();
        for image in 0..map.images {
            trials.request(image, is_permanent(map, flash, image));
        }
        trials
    }

    /// Notes that the image is requested, permanently or for a test.
    pub fn request(&mut self, image: u8, permanent: bool) {
        if let Some(one) = self.permanent.get_mut(usize::from(image)) {
            *one = permanent;
        }
    }

    /// Notes that a boot gave this report. The images that it took are permanent if `stays` is set,
    /// else on trial. Adds which images are on trial though they were requested permanently.
    pub fn begin(&mut self, notes: &mut NoteList, report: &Report, stays: bool) -> Result {
        self.tried = [false; MOST_IMAGES];
        for (image, reported) in report.images.iter().enumerate() {
            let permanent = self.permanent.get(image).copied().unwrap_or(false);
            if reported.is_taken && permanent && !stays {
                if let Some(one) = self.tried.get_mut(image) {
                    *one = true;
                }
                notes.add(format_args!(
                    "image {image} is requested permanently, and on trial: another image of the \
                     set is for a test, and the set is tried and reverts as a whole"
                ))?;
            }
        }
        Ok(())
    }

    /// Notes that the images of a set reverted. Adds which of them were requested permanently.
    pub fn revert(&mut self, notes: &mut NoteList, set: u8) -> Result {
        for image in 0..MOST_IMAGES as u8 {
            let tried = self.tried.get(usize::from(image)).copied().unwrap_or(false);
            if tried && is_member(set, image) {
                notes.add(format_args!(
                    "image {image} was requested permanently, and reverts: the set was on trial as \
                     a whole"
                ))?;
            }
        }
        self.tried = [false; MOST_IMAGES];
        Ok(())
    }
}

/// Whether the flash of these bytes holds a permanent request for an image.
fn is_permanent(map: &SectorMap, flash: &[u8], image: u8) -> bool {
    if image >= map.images {
        return false;
    }
    let end = map.trailer_start(image, Side::Secondary) as usize + map.sector_size as usize;
    let start = end.saturating_sub(IMAGE_OK);
    match flash.get(start..start.saturating_add(UNIT)) {
        Some(unit) => unit.iter().any(|byte| *byte != 0xff),
        None => false,
    }
}
