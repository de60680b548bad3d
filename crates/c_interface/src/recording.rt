//! Calls on a device in the caller's memory, which is only read: a journal records their writes.

ghost use Rattle.std.specs.Prelude.{◌≡◌, IfErr, IfOk};
ghost use Rattle.boot_core.specs.Answers.{reply_of_result};
ghost use Rattle.flash_model.specs.Blanks.{IsBlankOf};
ghost use Rattle.c_interface.specs.Recording.{ProvisionsOf, ProvisionsRecorded, RecordsOn};
ghost use Rattle.c_interface.specs.Recording.{StepsRecorded};
ghost use Rattle.c_interface.specs.Setup.{HasRoom, IsRefusedSetup, IsTrial};
ghost use Rattle.slice_flash.specs.Overlay.{replayed};

use crate::answers::Answer;
use crate::borrowed::resume_and_run;
use crate::calls::Call;
use crate::provisioning::provision_flash;
use crate::saved_state::SavedState;
use crate::setup::{CheckedSetup, Setup, check_setup};
use machine::Fault;
use sector_map::SectorMap;
use slice_flash::OverlayFlash;
use std::marker::Brand;
use std::sync::ledger::{Blank, Ledger};

/// The number of writes that a call with a journal made, and the number of the journal's bytes that
/// record them.
#[derive(Drop)]
pub(crate) struct RecordedWrites {
    pub(crate) writes: u64,
    pub(crate) used: u64,
}

/// Runs a call on the flash of these bytes, records its writes, and writes the answer.
fn run_recorded<L: Ledger, C: Call>(
    blank: Blank,
    checked: &CheckedSetup,
    bytes: &[u8],
    journal: &mut [u8],
    saved: &mut SavedState,
    call: &C,
    answer: &mut C::Answer,
) -> RecordedWrites
    requires blank { IsBlankOf blank L.name L.parts 3 }
    requires room { HasRoom checked.now.map bytes.now }
    requires images { checked.now.identity.images ≡ checked.now.map.images }
    requires trial { IsTrial checked.now.boots }
    ensures { StepsRecorded checked.now (C.call call.now) bytes.now saved.old
        (replayed bytes.now journal.new result.writes) saved.new journal.old journal.new
        (C.Answer.reply answer.new) result.writes result.used }
{
    let mut flash = OverlayFlash::<L>::new(blank, bytes, checked.map.sector_size, journal);
    resume_and_run(&mut flash, checked, saved, call, answer);
    let writes = flash.writes();
    let used = flash.used() as u64;
    RecordedWrites { writes, used }
}

/// Checks the setup, makes a call on the device in these bytes, records its writes, and writes the
/// answer.
///
/// # Errors
/// The number to return. Nothing has changed then.
pub(crate) fn record_device<C: Call>(
    setup: &Setup,
    bytes: &[u8],
    journal: &mut [u8],
    saved: &mut SavedState,
    call: &C,
    answer: &mut C::Answer,
) -> Result<RecordedWrites, u32>
    ensures outcome { IfOk result (λ outcome. RecordsOn setup.now (C.call call.now) bytes.now
        saved.old (replayed bytes.now journal.new outcome.writes) saved.new journal.old journal.new
        (C.Answer.reply answer.new) outcome.writes outcome.used) }
    ensures refused { IfErr result (λ number. IsRefusedSetup setup.now bytes.now number
        × (saved.new ≡ saved.old) × (journal.new ≡ journal.old)) }
{
    match check_setup(setup, bytes) {
        Ok(checked) => Ok(run_recorded::<Brand, C>(
            Blank::new(3),
            &checked,
            bytes,
            journal,
            saved,
            call,
            answer,
        )),
        Err(number) => Err(number),
    }
}

/// Provisions bytes as the flash of a device of this map, records the writes, and writes the
/// answer.
fn provision_recorded<L: Ledger>(
    blank: Blank,
    map: &SectorMap,
    bytes: &[u8],
    journal: &mut [u8],
    given: &mut Result<(), Fault>,
) -> RecordedWrites
    requires blank { IsBlankOf blank L.name L.parts 3 }
    requires room { HasRoom map.now bytes.now }
    ensures { ProvisionsRecorded map.now bytes.now (replayed bytes.now journal.new result.writes)
        journal.old journal.new (reply_of_result given.new) result.writes result.used }
{
    let mut flash = OverlayFlash::<L>::new(blank, bytes, map.sector_size, journal);
    *given = provision_flash(&mut flash, map);
    let writes = flash.writes();
    let used = flash.used() as u64;
    RecordedWrites { writes, used }
}

/// Checks the setup, provisions these bytes, records the writes, and writes the answer.
///
/// # Errors
/// The number to return. Nothing has changed then.
pub(crate) fn record_provision(
    setup: &Setup,
    bytes: &[u8],
    journal: &mut [u8],
    given: &mut Result<(), Fault>,
) -> Result<RecordedWrites, u32>
    ensures outcome { IfOk result (λ outcome. ProvisionsOf setup.now bytes.now
        (replayed bytes.now journal.new outcome.writes) journal.old journal.new
        (reply_of_result given.new) outcome.writes outcome.used) }
    ensures refused { IfErr result (λ number. IsRefusedSetup setup.now bytes.now number
        × (journal.new ≡ journal.old)) }
{
    match check_setup(setup, bytes) {
        Ok(checked) => Ok(provision_recorded::<Brand>(
            Blank::new(3),
            &checked.map,
            bytes,
            journal,
            given,
        )),
        Err(number) => Err(number),
    }
}
