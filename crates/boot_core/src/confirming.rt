//! Confirms an image of a set on trial.

ghost use Rattle.std.specs.Prelude.{◌≡◌, true, Some};
ghost use Rattle.boot_core.specs.Confirming.{Confirms, ConfirmsImage};
ghost use Rattle.boot_core.specs.Device.{seen};
ghost use Rattle.boot_core.specs.Taking.{ConfirmsHere};
ghost use Rattle.sector_map.specs.Map.{IsLaidOut};
ghost use Rattle.set_log.specs.Log.{state_of};
ghost use Rattle.set_log.specs.declared.state.RecordKind.{RecordKind};
ghost use Rattle.upload.specs.Sessions.{AllOpenAt};
ghost use Rattle.upload.specs.View.{view};

use crate::intake::stop;
use common::mask::is_member;
use flash_model::{Flash, Result};
use machine::Fault;
use sector_map::SectorMap;
use set_log::{LogError, RecordKind, State, read_state};
use trailer::set_ok;
use upload::Uploads;

/// What a confirmation did.
pub(crate) enum Confirmation {
    /// The image is confirmed.
    Done,
    /// The image isn't on trial, and nothing is written.
    NotOnTrial,
    /// The log says that a boot was interrupted, and nothing is written. Only a boot goes on from
    /// there.
    NotBooted,
}

/// Confirms an image if it is in the set of this record, and returns whether it is. The record is
/// that of a trial.
fn confirm_image<F: Flash>(flash: &mut F, map: &SectorMap, state: &State, image: u8) -> Result<bool>
    requires laid_out { IsLaidOut map.now (F.chip flash.old) }
    requires read { state_of map.now (F.chip flash.old) ≡ Some state.now }
    ensures { ConfirmsImage map.now state.now.mask image
        (F.chip flash.old) (F.chip flash.new) result }
{
    if image >= map.images {
        return Ok(false);
    }
    if !is_member(state.mask, image) {
        return Ok(false);
    }
    set_ok(flash, map, image)?;
    Ok(true)
}

/// Confirms an image of the set that this record has on trial.
fn confirm_tried<F: Flash>(
    flash: &mut F,
    map: &SectorMap,
    state: &State,
    image: u8,
) -> Result<Confirmation>
    requires laid_out { IsLaidOut map.now (F.chip flash.old) }
    requires read { state_of map.now (F.chip flash.old) ≡ Some state.now }
    requires kind { state.now.kind ≡ RecordKind.Trial }
    requires on { (F.chip flash.old).is_on ≡ true }
    ensures { Confirms map.now image (F.chip flash.old) (F.chip flash.new) result }
{
    match confirm_image(flash, map, state, image) {
        Ok(true) => Ok(Confirmation::Done),
        Ok(false) => Ok(Confirmation::NotOnTrial),
        Err(error) => Err(error),
    }
}

/// Confirms an image if it is on trial.
fn confirm<F: Flash>(flash: &mut F, map: &SectorMap, image: u8) -> Result<Confirmation>
    requires laid_out { IsLaidOut map.now (F.chip flash.old) }
    ensures { Confirms map.now image (F.chip flash.old) (F.chip flash.new) result }
{
    match read_state(flash, map) {
        Ok(state) => match state.kind {
            RecordKind::Trial => confirm_tried(flash, map, &state, image),
            RecordKind::Steady => Ok(Confirmation::NotOnTrial),
            RecordKind::Swap | RecordKind::Settle | RecordKind::Back | RecordKind::BackSettle => {
                Ok(Confirmation::NotBooted)
            }
        },
        Err(LogError::NoLog) => Ok(Confirmation::NotOnTrial),
        Err(LogError::Flash(error)) => Err(error),
    }
}

/// Confirms an image of the set on trial on a device that is held in parts, as `Device::confirm`,
/// with its errors.
///
/// - `flash`, `map`: the map is laid out on the flash.
/// - `uploads`: the open uploads, which match the flash.
/// - `is_booted`: whether the device is booted.
/// - `image`: its number, from 0.
///
/// If the flash stopped the call, the device isn't booted afterwards, and no upload is open. Does
/// not allocate.
pub fn confirm_on<F: Flash>(
    flash: &mut F,
    map: &SectorMap,
    uploads: &mut Uploads,
    is_booted: &mut bool,
    image: u8,
) -> Result<(), Fault>
    requires laid_out { IsLaidOut map.now (F.chip flash.old) }
    requires opens { AllOpenAt (view map.now (F.chip flash.old)) uploads.old.sessions }
    ensures { ConfirmsHere map.now image
        (seen (F.chip flash.old) uploads.old.sessions is_booted.old)
        (seen (F.chip flash.new) uploads.new.sessions is_booted.new) result }
{
    if !*is_booted {
        return Err(Fault::NotBooted);
    }
    match confirm(flash, map, image) {
        Ok(Confirmation::Done) => Ok(()),
        Ok(Confirmation::NotOnTrial) => Err(Fault::NotOnTrial),
        Ok(Confirmation::NotBooted) => Err(Fault::NotBooted),
        Err(error) => Err(stop(uploads, is_booted, Fault::Flash(error))),
    }
}
