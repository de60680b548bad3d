//! Reads which versions run at the end of a run.

ghost use Rattle.std.specs.Prelude.{◌≡◌, option_map, true};
ghost use Rattle.sector_map.specs.Map.{IsLaidOut};
ghost use Rattle.sweep.specs.Scenario.{HaveVersions};

use arrayvec::ArrayVec;
use common::limits::MOST_IMAGES;
use decision::read_slot;
use flash_model::Flash;
use sector_map::{SectorMap, Side};
use version_order::Version;

/// The versions in the primary slots of a flash with power, image by image. `None` if an image is
/// damaged.
pub(crate) fn running_versions<F: Flash>(
    flash: &mut F,
    map: &SectorMap,
) -> Option<ArrayVec<Version, MOST_IMAGES>>
    requires laid_out { IsLaidOut map.now (F.chip flash.old) }
    requires on { (F.chip flash.old).is_on ≡ true }
    ensures { HaveVersions map.now (F.chip flash.old)
        (option_map (λ versions. versions.items) result) }
{
    let mut versions = ArrayVec::new();
    for image in 0..map.images {
        match read_slot(flash, map, image, Side::Primary) {
            Ok(Some(entry)) => versions.push(entry.version),
            Ok(None) => return None,
            Err(_) => unreachable!(),
        }
    }
    Some(versions)
}
