//! What follows from the decision of a boot: the set to take, the raised floors and the reply. It
//! also finds the decision of a record again.

ghost use Rattle.std.specs.Prelude.{◌<◌, ◌≤◌, ◌≡◌, ℕ, ◌^◌, length};
ghost use Rattle.sector_map.specs.Map.{HasImage, IsLaidOut};
ghost use Rattle.common.specs.Masks.{is_member};
ghost use Rattle.reports.specs.declared.table.Table.{Table};
ghost use Rattle.reports.specs.declared.report.Report.{Report};
ghost use Rattle.reports.specs.Combination.{entry_in};
ghost use Rattle.reports.specs.Rightness.{taken_in};
ghost use Rattle.flash_contents.specs.Reading.{AreRaisedBy};
ghost use Rattle.decision.specs.Telling.{Tells};
ghost use Rattle.decision.specs.Places.{finding_in, read_as};
ghost use Rattle.boot_core.specs.Places.{reply_in};
ghost use Rattle.boot_core.specs.Deciding.{AnswersFinding, AreForGoodIn, FindsAgain, IsForGoodIn};

use crate::outcome::Outcome;
use arrayvec::ArrayVec;
use common::limits::MOST_IMAGES;
use common::mask::{is_member, mask_of};
use decision::{Verdict, find_into};
use flash_model::{Flash, Result};
use machine::Fault;
use reports::{Image, Report, Request, Table};
use sector_map::SectorMap;
use trailer::{Kind, standing};

/// The mask of the images that a report takes.
pub(crate) fn taken_mask(report: &Report) -> u8
    // The mask has an image exactly if the report takes it.
    ensures each { (i : ℕ) → is_member result i ≡ taken_in report.now i }
    // No other mask of 8 bits does.
    ensures only { (mask : ℕ) → mask < 2 ^ 8
        → ((i : ℕ) → is_member mask i ≡ taken_in report.now i) → mask ≡ result }
{
    let mut members: ArrayVec<bool, MOST_IMAGES> = ArrayVec::new();
    for image in report.images.iter() {
        members.push(image.is_taken);
    }
    mask_of(&members)
}

/// Finds the decision of a record again after the slots of its set were swapped. `floors` are those
/// of the record.
///
/// `Damaged` names the lowest image that can't be read: its old bytes aren't intact, or its new
/// bytes if it is in the set. `Invalid` says that the table isn't valid, or has another greatest
/// set. If the record is of a decision, neither is found.
///
/// # Errors
/// `Off`: the flash was off. Nothing changes in any case.
pub(crate) fn find_again<F: Flash>(
    flash: &mut F,
    map: &SectorMap,
    mask: u8,
    floors: &[u32; MOST_IMAGES],
    table: &mut Table,
    report: &mut Report,
) -> Result<Verdict>
    requires laid_out { IsLaidOut map.now (F.chip flash.old) }
    ensures { FindsAgain map.now mask floors.now (F.chip flash.old) (F.chip flash.new)
        (read_as (finding_in table.new report.new) result) }
{
    match find_into(flash, map, mask, floors, table, report)? {
        Verdict::Decided => {
            if taken_mask(report) != mask {
                return Ok(Verdict::Invalid);
            }
            Ok(Verdict::Decided)
        }
        verdict => Ok(verdict),
    }
}

/// The security counter of the image that runs after a set is taken.
fn counter_in(image: &Image, is_taken: bool) -> u32
    ensures { result ≡ (entry_in image.now is_taken).counter }
{
    match &image.request {
        Request::Entry(entry) if is_taken => entry.counter,
        _ => image.running.counter,
    }
}

/// Raises floors to the security counters of the images that run after a set is taken.
fn raised(images: &[Image], mask: u8, floors: &[u32; MOST_IMAGES]) -> [u32; MOST_IMAGES]
    requires { length images.now ≤ MOST_IMAGES }
    ensures { AreRaisedBy images.now mask (length images.now) floors.now result }
{
    let mut raised = *floors;
    for number in 0..images.len() {
        let is_taken = is_member(mask, number as u8);
        raised[number] = floors[number].max(counter_in(&images[number], is_taken));
    }
    raised
}

/// Raises floors to the security counters of the images that run after a set of a table is taken.
/// No floor falls.
pub(crate) fn raised_floors(
    table: &Table,
    mask: u8,
    floors: &[u32; MOST_IMAGES],
) -> [u32; MOST_IMAGES]
    ensures { AreRaisedBy table.now.images.items mask (length table.now.images.items)
        floors.now result }
{
    raised(&table.images, mask, floors)
}

/// Whether a permanent request is pending for an image.
fn is_for_good<F: Flash>(flash: &mut F, map: &SectorMap, image: u8) -> Result<bool>
    requires { HasImage map.now image (F.chip flash.old) }
    ensures { Tells (IsForGoodIn map.now image) (F.chip flash.old) (F.chip flash.new) result }
{
    let standing = standing(flash, map, image)?;
    Ok(matches!(standing, Some(Kind::Permanent)))
}

/// Whether each image of a set has a permanent request.
///
/// # Errors
/// `Off`: the flash was off. Nothing changes in any case.
pub(crate) fn asks_for_good<F: Flash>(flash: &mut F, map: &SectorMap, mask: u8) -> Result<bool>
    requires laid_out { IsLaidOut map.now (F.chip flash.old) }
    ensures { Tells (AreForGoodIn map.now mask) (F.chip flash.old) (F.chip flash.new) result }
{
    for image in 0..map.images {
        if is_member(mask, image) && !is_for_good(flash, map, image)? {
            return Ok(false);
        }
    }
    Ok(true)
}

/// The reply of a boot to what it found.
pub(crate) fn reply_to(verdict: Verdict, permanent: bool) -> Outcome
    ensures { (table : Table) (report : Report)
        → AnswersFinding (finding_in table report verdict) permanent (reply_in table report result) }
{
    match verdict {
        Verdict::Decided => Outcome::Booted { permanent },
        Verdict::Damaged(image) => Outcome::Refused(Fault::RunningDamaged(image)),
        Verdict::Invalid => Outcome::Refused(Fault::InvalidSet),
    }
}
