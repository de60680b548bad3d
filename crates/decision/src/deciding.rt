//! The decision of a boot, from the table that it reads.

ghost use Rattle.sector_map.specs.Map.{IsLaidOut};
ghost use Rattle.decision.specs.Deciding.{FindsDecision};
ghost use Rattle.decision.specs.Places.{finding_in, read_as};

use crate::device_table::read_table_into;
use crate::places::Verdict;
use chooser::choose_into;
use common::limits::MOST_IMAGES;
use flash_contents::Finding;
use flash_model::{Flash, Result};
use reports::{Report, Table};
use sector_map::SectorMap;
use validity::is_valid;

/// Reads the table of a device, and returns the decision on its requests.
///
/// The decision is the right report with the greatest set, if the running images are intact and
/// valid. Otherwise it is the lowest damaged image, or that the running set isn't valid. `mask` has
/// bit i set if the slots of image i are swapped. `floors` are the security counters below which no
/// image is taken, one for each image. The map has to be laid out on the flash.
///
/// # Errors
/// `Off`: the flash was off. Nothing changes in any case.
///
/// # Examples
///
/// ```text
/// // `flash` has an image in each of two primary slots, and nothing is requested.
/// let map = SectorMap::new(512, &[2, 2])?;
/// assert!(rt; map.fits(flash));
/// let finding = find(flash, &map, 0b00, &[0; 8])?;
/// assert!(rt; matches!(&finding, Finding::Decided { report, .. } if report.refusals.is_empty()));
/// ```
pub fn find<F: Flash>(
    flash: &mut F,
    map: &SectorMap,
    mask: u8,
    floors: &[u32; MOST_IMAGES],
) -> Result<Finding>
    requires laid_out { IsLaidOut map.now (F.chip flash.old) }
    ensures { FindsDecision map.now mask floors.now (F.chip flash.old) (F.chip flash.new) result }
{
    let mut table = Table::default();
    let mut report = Report::default();
    match find_into(flash, map, mask, floors, &mut table, &mut report)? {
        Verdict::Decided => Ok(Finding::Decided { table, report }),
        Verdict::Damaged(image) => Ok(Finding::Damaged(image)),
        Verdict::Invalid => Ok(Finding::Invalid),
    }
}

/// Reads the table of a device into a place and the decision on its requests into another, as
/// `find`.
///
/// # Errors
/// `Off`: the flash was off. Nothing changes on the flash in any case.
pub fn find_into<F: Flash>(
    flash: &mut F,
    map: &SectorMap,
    mask: u8,
    floors: &[u32; MOST_IMAGES],
    table: &mut Table,
    report: &mut Report,
) -> Result<Verdict>
    requires laid_out { IsLaidOut map.now (F.chip flash.old) }
    ensures { FindsDecision map.now mask floors.now (F.chip flash.old) (F.chip flash.new)
        (read_as (finding_in table.new report.new) result) }
{
    match read_table_into(flash, map, mask, floors, table)? {
        Some(image) => Ok(Verdict::Damaged(image)),
        None => {
            if !is_valid(table) {
                return Ok(Verdict::Invalid);
            }
            choose_into(table, report);
            Ok(Verdict::Decided)
        }
    }
}
