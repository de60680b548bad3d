//! A boot from a record `Trial`: the trial is over, goes on, or reverts, by what trailers and slots
//! hold.
//!
//! It continues in `steady` or in `back`.

ghost use Rattle.std.specs.Prelude.{◌<◌, ◌≤◌, ◌≡◌, ℕ, false, slice_index, Some};
ghost use Rattle.common.specs.Limits.{MOST_BOOTS_LEFT};
ghost use Rattle.decision.specs.Places.{read_as};
ghost use Rattle.boot_core.specs.Places.{reply_in};
ghost use Rattle.reports.specs.declared.table.Table.{Table};
ghost use Rattle.reports.specs.declared.report.Report.{Report};
ghost use Rattle.boot_core.specs.FromTrial.{AreConfirmedIn, BeginsBack, BootsAgain, BootsBack, BootsConfirmed, BootsFromTrial, DecidesTrial, IsConfirmedIn, IsFloorIn, IsGoingOn, RaisesFloors, RecordsOver};
ghost use Rattle.flash_contents.specs.Reading.{AreSetOk};
ghost use Rattle.flash_contents.specs.Starting.{AreIntact};
ghost use Rattle.upload.specs.View.{view};
ghost use Rattle.boot_core.specs.Recorded.{HasRecord, HasRecordOf};
ghost use Rattle.decision.specs.Telling.{Tells};
ghost use Rattle.sector_map.specs.Map.{HasImage, IsLaidOut};
ghost use Rattle.set_log.specs.Log.{state_of};
ghost use Rattle.set_log.specs.declared.state.RecordKind.{RecordKind};

use crate::back::revert;
use crate::looking::lowest_damaged;
use crate::outcome::Outcome;
use crate::preparing::prepare_set;
use crate::recording::append_state;
use crate::steady::boot_from_steady;
use common::limits::MOST_IMAGES;
use common::mask::is_member;
use decision::read_slot;
use flash_contents::Passage;
use flash_model::{Flash, Result};
use machine::Fault;
use reports::{Report, Table};
use sector_map::{SectorMap, Side};
use set_log::{RecordKind, State, append};
use trailer::read_trailer;

/// Whether an image is confirmed.
fn is_confirmed<F: Flash>(flash: &mut F, map: &SectorMap, image: u8) -> Result<bool>
    requires { HasImage map.now image (F.chip flash.old) }
    ensures { Tells (IsConfirmedIn map.now image) (F.chip flash.old) (F.chip flash.new) result }
{
    let trailer = read_trailer(flash, map, image, Side::Primary)?;
    Ok(trailer.image_ok)
}

/// Whether each image of a set is confirmed.
fn is_all_confirmed<F: Flash>(flash: &mut F, map: &SectorMap, mask: u8) -> Result<bool>
    requires { IsLaidOut map.now (F.chip flash.old) }
    ensures { Tells (AreConfirmedIn map.now mask) (F.chip flash.old) (F.chip flash.new) result }
{
    for image in 0..map.images {
        if is_member(mask, image) {
            let confirmed = is_confirmed(flash, map, image)?;
            if !confirmed {
                return Ok(false);
            }
        }
    }
    Ok(true)
}

/// Raises a floor to the security counter of a running image. A damaged image raises nothing.
fn floor_of<F: Flash>(flash: &mut F, map: &SectorMap, image: u8, floor: u32) -> Result<u32>
    requires { HasImage map.now image (F.chip flash.old) }
    ensures { Tells (IsFloorIn map.now image floor) (F.chip flash.old) (F.chip flash.new) result }
{
    match read_slot(flash, map, image, Side::Primary)? {
        None => Ok(floor),
        Some(entry) => Ok(floor.max(entry.counter)),
    }
}

/// Raises floors to the security counters of the running images. Floors past the last image stay.
fn raise_running<F: Flash>(
    flash: &mut F,
    map: &SectorMap,
    floors: &[u32; MOST_IMAGES],
) -> Result<[u32; MOST_IMAGES]>
    requires { IsLaidOut map.now (F.chip flash.old) }
    ensures { RaisesFloors map.now floors.now (F.chip flash.old) (F.chip flash.new) result }
{
    let mut raised = *floors;
    for image in 0..map.images {
        let floor = floor_of(flash, map, image, floors[usize::from(image)])?;
        raised[usize::from(image)] = floor;
    }
    Ok(raised)
}

/// Whether a set on trial can be tried again: a boot is left, and each running image is intact, in
/// the set or not.
fn goes_on<F: Flash>(flash: &mut F, map: &SectorMap, left: u8) -> Result<bool>
    requires { IsLaidOut map.now (F.chip flash.old) }
    ensures { Tells (IsGoingOn map.now left) (F.chip flash.old) (F.chip flash.new) result }
{
    if left == 0 {
        return Ok(false);
    }
    match lowest_damaged(flash, map, u8::MAX, Side::Primary)? {
        None => Ok(true),
        Some(_) => Ok(false),
    }
}

/// Decides how a boot continues from a trial that isn't confirmed, and whose set can't be tried
/// again. The set reverts if each of its old images is intact. Otherwise nothing is moved: the set
/// stays on trial, or the boot is refused if a running image is damaged too.
fn decide_back<F: Flash>(flash: &mut F, map: &SectorMap, state: &State) -> Result<Passage>
    requires laid_out { IsLaidOut map.now (F.chip flash.old) }
    requires read { state_of map.now (F.chip flash.old) ≡ Some state.now }
    requires unconfirmed { AreSetOk (view map.now (F.chip flash.old)) state.now.mask false }
    requires done { IsGoingOn map.now state.now.left (F.chip flash.old) false }
    ensures { DecidesTrial map.now state.now (F.chip flash.old) (F.chip flash.new) result }
{
    match lowest_damaged(flash, map, state.mask, Side::Secondary)? {
        None => Ok(Passage::Back),
        Some(_) => match lowest_damaged(flash, map, u8::MAX, Side::Primary)? {
            None => Ok(Passage::Stays),
            Some(image) => Ok(Passage::Refused(image)),
        },
    }
}

/// Decides how a boot continues from a trial. The trial is over if each image of the set is
/// confirmed. Otherwise the set is tried again, or reverts if no boot is left or a running image is
/// damaged.
fn decide_trial<F: Flash>(flash: &mut F, map: &SectorMap, state: &State) -> Result<Passage>
    requires laid_out { IsLaidOut map.now (F.chip flash.old) }
    requires read { state_of map.now (F.chip flash.old) ≡ Some state.now }
    ensures { DecidesTrial map.now state.now (F.chip flash.old) (F.chip flash.new) result }
{
    let confirmed = is_all_confirmed(flash, map, state.mask)?;
    if confirmed {
        return Ok(Passage::Over);
    }
    let again = goes_on(flash, map, state.left)?;
    if again {
        return Ok(Passage::Again);
    }
    decide_back(flash, map, state)
}

/// From `Trial` to `Steady`: records that the trial is over, with these floors. Past the last image
/// they are those of the old record.
fn record_over<F: Flash>(
    flash: &mut F,
    map: &SectorMap,
    state: &State,
    floors: [u32; MOST_IMAGES],
) -> Result<State>
    requires laid_out { IsLaidOut map.now (F.chip flash.old) }
    requires read { state_of map.now (F.chip flash.old) ≡ Some state.now }
    requires rest { (i : ℕ) → map.now.images ≤ i
        → slice_index floors i ≡ slice_index state.now.floors i }
    ensures { RecordsOver map.now state.now floors (F.chip flash.old) (F.chip flash.new) result }
{
    append_state(flash, map, State::steady(state.sequence, floors))
}

/// From a trial whose set is completely confirmed: records that the trial is over, with raised
/// floors, and makes the decision.
fn boot_over<F: Flash>(
    flash: &mut F,
    map: &SectorMap,
    state: &State,
    left: u8,
    table: &mut Table,
    report: &mut Report,
) -> Result<Outcome>
    requires recorded { HasRecord map.now state.now (F.chip flash.old) }
    requires few { left ≤ MOST_BOOTS_LEFT }
    ensures { BootsConfirmed map.now state.now left (F.chip flash.old) (F.chip flash.new)
        (read_as (reply_in table.new report.new) result) }
{
    let floors = raise_running(flash, map, &state.floors)?;
    let steady = record_over(flash, map, state, floors)?;
    boot_from_steady(flash, map, &steady, left, table, report)
}

/// From a trial that goes on: records that it has one boot less.
fn boot_again<F: Flash>(flash: &mut F, map: &SectorMap, state: &State) -> Result<Outcome>
    requires recorded { HasRecordOf map.now RecordKind.Trial state.now (F.chip flash.old) }
    requires more { 0 < state.now.left }
    requires intact { AreIntact (view map.now (F.chip flash.old)) }
    ensures { (table : Table) (report : Report) → BootsAgain map.now state.now
        (F.chip flash.old) (F.chip flash.new) (read_as (reply_in table report) result) }
{
    let left = state.left - 1;
    let tried = State {
        permanent: false,
        left,
        ..*state
    };
    append(flash, map, &tried)?;
    Ok(Outcome::TrialAgain {
        set: state.mask,
        left,
    })
}

/// From `Trial` to `Back`: prepares the secondary trailers of the set to count the swap back, and
/// then records that the set reverts. The primary trailers stay, since they say that this is a
/// trial.
fn begin_back<F: Flash>(flash: &mut F, map: &SectorMap, state: &State) -> Result<State>
    requires { HasRecordOf map.now RecordKind.Trial state.now (F.chip flash.old) }
    ensures { BeginsBack map.now state.now (F.chip flash.old) (F.chip flash.new) result }
{
    prepare_set(flash, map, state.mask, Side::Secondary, false)?;
    let back = State {
        kind: RecordKind::Back,
        permanent: false,
        left: 0,
        ..*state
    };
    append_state(flash, map, back)
}

/// From a trial that reverts: swaps the set back.
fn boot_back<F: Flash>(flash: &mut F, map: &SectorMap, state: &State) -> Result<Outcome>
    requires { HasRecordOf map.now RecordKind.Trial state.now (F.chip flash.old) }
    ensures { (table : Table) (report : Report) → BootsBack map.now state.now
        (F.chip flash.old) (F.chip flash.new) (read_as (reply_in table report) result) }
{
    let back = begin_back(flash, map, state)?;
    revert(flash, map, &back)
}

/// From a record `Trial`: ends the trial, goes on with it, or reverts its set. If an old image isn't
/// intact, it moves nothing.
pub(crate) fn boot_from_trial<F: Flash>(
    flash: &mut F,
    map: &SectorMap,
    state: &State,
    left: u8,
    table: &mut Table,
    report: &mut Report,
) -> Result<Outcome>
    requires recorded { HasRecordOf map.now RecordKind.Trial state.now (F.chip flash.old) }
    requires few { left ≤ MOST_BOOTS_LEFT }
    ensures { BootsFromTrial map.now state.now left (F.chip flash.old) (F.chip flash.new)
        (read_as (reply_in table.new report.new) result) }
{
    match decide_trial(flash, map, state)? {
        Passage::Over => boot_over(flash, map, state, left, table, report),
        Passage::Back => boot_back(flash, map, state),
        Passage::Again => boot_again(flash, map, state),
        Passage::Stays => Ok(Outcome::TrialAgain {
            set: state.mask,
            left: 0,
        }),
        Passage::Refused(image) => Ok(Outcome::Refused(Fault::RunningDamaged(image))),
    }
}
