//! A call on a device in the caller's memory: the bytes of its flash, and its saved state.

ghost use Rattle.std.specs.Prelude.{◌≡◌, ◌+◌, [], IfErr, IfOk, List, Option, false, true};
ghost use Rattle.flash_model.specs.Blanks.{IsBlankOf};
ghost use Rattle.sector_map.specs.Map.{IsLaidOut};
ghost use Rattle.machine.specs.Steps.{cut_of};
ghost use Rattle.boot_core.specs.Device.{seen};
ghost use Rattle.slice_flash.specs.Rows.{fixed_by};
ghost use Rattle.upload.specs.declared.sessions.Upload.{Upload};
ghost use Rattle.c_interface.specs.Calls.{CallsOn, IsJournaled, IsRefusedBefore, StepsBetween};
ghost use Rattle.c_interface.specs.Calls.{StepsOn};
ghost use Rattle.c_interface.specs.SavedState.{IsSavedFor, IsSavedWith, IsTakenBy, SavesDevice};
ghost use Rattle.c_interface.specs.SavedState.{is_piece};
ghost use Rattle.c_interface.specs.DeviceCall.{DeviceCall};
ghost use Rattle.c_interface.specs.Setup.{HasRoom, IsTrial};

use crate::answers::Answer;
use crate::calls::Call;
use crate::cuts::{CutRow, MOST_CUTS, table_of};
use crate::numbers::TOO_MANY;
use crate::saved_state::{NOT_BOOTED, SavedState, load_uploads, put_uploads};
use crate::setup::{CheckedSetup, Setup, check_setup};
use flash_model::Flash;
use sector_map::SectorMap;
use slice_flash::{ArmedCut, SliceFlash};
use std::marker::Brand;
use std::sync::ledger::{Blank, Ledger};
use upload::Uploads;

/// Loads the saved uploads, if the saved state is a booted device, and returns whether it is. They
/// may not match the flash.
fn saved_uploads(saved: &SavedState, uploads: &mut Uploads) -> bool
    ensures some { result ≡ true → IsSavedWith saved.now uploads.new.sessions }
    ensures none { result ≡ false → (sessions : List (Option Upload))
        → IsSavedWith saved.now sessions → ⊥ }
{
    if saved.is_booted != 1 {
        return false;
    }
    load_uploads(&saved.uploads, &mut uploads.sessions)
}

/// Loads the uploads that a call takes from a saved state, if that is a booted device, and returns
/// whether the call takes them. They have to match the flash. To check that, their slots are read,
/// which would make an upload in many pieces slow. So a piece takes the uploads unchecked:
/// `boot_core` checks the range that it writes.
fn take_uploads<F: Flash>(
    flash: &mut F,
    map: &SectorMap,
    saved: &SavedState,
    unchecked: bool,
    uploads: &mut Uploads,
) -> bool
    requires laid_out { IsLaidOut map.now (F.chip flash.old) }
    requires on { (F.chip flash.old).is_on ≡ true }
    ensures same { F.chip flash.new ≡ F.chip flash.old }
    ensures some { result ≡ true → (call : DeviceCall) → is_piece call ≡ unchecked
        → IsTakenBy call map.now (F.chip flash.old) saved.now uploads.new.sessions }
    ensures none { result ≡ false → (call : DeviceCall) → is_piece call ≡ unchecked
        → (sessions : List (Option Upload))
        → IsTakenBy call map.now (F.chip flash.old) saved.now sessions → ⊥ }
{
    if !saved_uploads(saved, uploads) {
        return false;
    }
    if unchecked {
        return true;
    }
    match uploads.stand(flash, map) {
        Ok(true) => true,
        _ => false,
    }
}

/// Restores the device on which a call is made, and returns whether it is booted: it is, with the
/// uploads that the call takes from the saved state, or it isn't if the call takes none.
#[inline(never)]
fn restore<F: Flash>(
    flash: &mut F,
    map: &SectorMap,
    saved: &SavedState,
    unchecked: bool,
    uploads: &mut Uploads,
) -> bool
    requires laid_out { IsLaidOut map.now (F.chip flash.old) }
    requires on { (F.chip flash.old).is_on ≡ true }
    ensures same { F.chip flash.new ≡ F.chip flash.old }
    ensures restored { (call : DeviceCall) → is_piece call ≡ unchecked
        → IsSavedFor call map.now saved.now
        (seen (F.chip flash.old) uploads.new.sessions result) }
{
    if take_uploads(flash, map, saved, unchecked, uploads) {
        return true;
    }
    *uploads = Uploads::new();
    false
}

/// Saves the state of the device until the next call.
#[inline(never)]
fn save(uploads: &Uploads, is_booted: bool, saved: &mut SavedState)
    ensures { SavesDevice saved.new uploads.now.sessions is_booted }
{
    if !is_booted {
        *saved = NOT_BOOTED;
        return;
    }
    saved.is_booted = 1;
    saved.unused = [0; 3];
    put_uploads(&uploads.sessions, &mut saved.uploads);
}

/// Restores the state of the device over a flash with power, makes the call, writes the answer, and
/// saves the state.
pub(crate) fn resume_and_run<F: Flash, C: Call>(
    flash: &mut F,
    checked: &CheckedSetup,
    saved: &mut SavedState,
    call: &C,
    answer: &mut C::Answer,
)
    requires laid_out { IsLaidOut checked.now.map (F.chip flash.old) }
    requires on { (F.chip flash.old).is_on ≡ true }
    requires images { checked.now.identity.images ≡ checked.now.map.images }
    requires trial { IsTrial checked.now.boots }
    ensures fixed { (F.chip flash.new).fixed ≡ (F.chip flash.old).fixed }
    ensures cuts { (F.chip flash.new).cuts
        ≡ (F.chip flash.old).cuts + cut_of (C.Answer.reply answer.new) }
    ensures dark { cut_of (C.Answer.reply answer.new) ≡ 1 → (F.chip flash.new).is_on ≡ false }
    ensures laid { IsLaidOut checked.now.map (F.chip flash.new) }
    ensures journal { IsJournaled checked.now.map (C.call call.now) (F.chip flash.old)
        (F.chip flash.new) }
    ensures steps { StepsBetween checked.now (C.call call.now) (F.chip flash.old).bytes saved.old
        (F.chip flash.new).bytes saved.new (C.Answer.reply answer.new) (F.chip flash.old)
        (F.chip flash.new) }
{
    let mut uploads = Uploads::new();
    let mut is_booted = restore(flash, &checked.map, saved, call.is_piece(), &mut uploads);
    call.make(flash, checked, &mut uploads, &mut is_booted, answer);
    save(&uploads, is_booted, saved);
}

/// Runs a call on the flash of these bytes, writes the answer, and returns the number of writes
/// that the call began. The writes in the table are cut.
fn run_over_bytes<L: Ledger, C: Call>(
    blank: Blank,
    checked: &CheckedSetup,
    bytes: &mut [u8],
    table: &[ArmedCut<'_>],
    saved: &mut SavedState,
    call: &C,
    answer: &mut C::Answer,
) -> u64
    requires blank { IsBlankOf blank L.name L.parts 2 }
    requires room { HasRoom checked.now.map bytes.old }
    requires images { checked.now.identity.images ≡ checked.now.map.images }
    requires trial { IsTrial checked.now.boots }
    ensures { StepsOn checked.now (fixed_by table.now [] 0) (C.call call.now) bytes.old saved.old
        bytes.new saved.new (C.Answer.reply answer.new) result }
{
    let mut flash = SliceFlash::<L>::new(blank, bytes, checked.map.sector_size, table);
    resume_and_run(&mut flash, checked, saved, call, answer);
    flash.writes()
}

/// Checks the setup and the number of cuts, makes a call on the device in these bytes, writes the
/// reply, and returns the number of writes that the call began.
///
/// # Errors
/// The number to return. Nothing has changed then.
pub(crate) fn call_device<C: Call>(
    setup: &Setup,
    bytes: &mut [u8],
    saved: &mut SavedState,
    cuts: &[CutRow],
    call: &C,
    answer: &mut C::Answer,
) -> Result<u64, u32>
    ensures outcome { IfOk result (λ writes. CallsOn setup.now cuts.now (C.call call.now) bytes.old
        saved.old bytes.new saved.new (C.Answer.reply answer.new) writes) }
    ensures refused { IfErr result (λ number. IsRefusedBefore setup.now cuts.now bytes.old number
        × (bytes.new ≡ bytes.old) × (saved.new ≡ saved.old)) }
{
    let checked = match check_setup(setup, bytes) {
        Ok(checked) => checked,
        Err(number) => return Err(number),
    };
    if cuts.len() > MOST_CUTS {
        return Err(TOO_MANY);
    }
    let table = table_of(cuts);
    let rows = &table[..cuts.len()];
    Ok(run_over_bytes::<Brand, C>(Blank::new(2), &checked, bytes, rows, saved, call, answer))
}
