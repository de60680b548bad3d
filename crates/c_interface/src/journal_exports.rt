//! The calls of a device with a journal of its writes, as C makes them.

ghost use Rattle.std.specs.Prelude.{◌≡◌};
ghost use Rattle.c_interface.specs.Answers.{HasNoTexts, HasTexts};
ghost use Rattle.c_interface.specs.Lifecycle.{HoldsFirstIn, IsBoot};
ghost use Rattle.c_interface.specs.Numbers.{DONE};
ghost use Rattle.c_interface.specs.Recording.{AcceptsRecorded, AnswersProvisionRecorded};
ghost use Rattle.c_interface.specs.Recording.{AnswersRecorded, performed};
ghost use Rattle.c_interface.specs.DeviceCall as call;

use crate::answers::Answer;
use crate::boot_answer::{BootAnswer, number_of, put_result, put_texts};
use crate::call_result::{CallResult, put_no_result};
use crate::calls::{Accept, Boot, Call, Confirm, Finish, Piece, Withdraw};
use crate::exports::put_manifest;
use crate::numbers::TOO_MANY;
use crate::recording::{RecordedWrites, record_device, record_provision};
use crate::saved_state::SavedState;
use crate::setup::Setup;
use manifest::{Manifest, ManifestRow};

/// Makes a call on the device of a setup, records its writes, reports its outcome, and returns the
/// number of its reply.
fn record_and_report<C: Call>(
    setup: &Setup,
    flash: &[u8],
    saved: &mut SavedState,
    journal: &mut [u8],
    asked: &C,
    answer: &mut C::Answer,
    call_result: &mut CallResult,
) -> u32
    ensures { AnswersRecorded setup.now (C.call asked.now) flash.now saved.old
        (performed flash.now journal.new call_result.new) saved.new journal.old journal.new
        call_result.new (HasNoTexts call_result.new) result }
{
    match record_device(setup, flash, journal, saved, asked, answer) {
        Ok(outcome) => answer.report(outcome.writes, outcome.used, call_result),
        Err(number) => {
            put_no_result(call_result);
            number
        }
    }
}

/// Provisions bytes as the flash of a device, as `bootswap_simulate_provision` does, and records
/// the writes in the journal. A journal of `BOOTSWAP_JOURNAL_PROVISION` bytes has room for them.
///
/// Returns `DONE`, `REFUSED`, or why no call was made; or `CUT`, only if the journal was too short.
/// After `CUT` it may be called again.
#[unsafe(no_mangle)]
pub extern "C" fn bootswap_journal_provision(
    setup: &Setup,
    flash: &[u8],
    journal: &mut [u8],
    call_result: &mut CallResult,
) -> u32
    ensures first { result ≡ DONE → HoldsFirstIn setup.now flash.now
        (performed flash.now journal.new call_result.new) }
    ensures all { AnswersProvisionRecorded setup.now flash.now
        (performed flash.now journal.new call_result.new) journal.old journal.new call_result.new
        result }
{
    let mut given = Ok(());
    match record_provision(setup, flash, journal, &mut given) {
        Ok(outcome) => given.report(outcome.writes, outcome.used, call_result),
        Err(number) => {
            put_no_result(call_result);
            number
        }
    }
}

/// Boots the device, as `bootswap_simulate_boot` does but without texts, and records the writes in
/// the journal. If the journal is too short, the call returns `CUT` after the writes that fit, and
/// the next boot continues.
///
/// Returns `BOOTED`, `REVERTED` or `TRIAL_AGAIN`, and the device is booted; or `REFUSED`, `CUT`, or
/// why no call was made: then nothing changed.
#[unsafe(no_mangle)]
pub extern "C" fn bootswap_journal_boot(
    setup: &Setup,
    flash: &[u8],
    saved: &mut SavedState,
    journal: &mut [u8],
    call_result: &mut CallResult,
) -> u32
    ensures boot { IsBoot setup.now flash.now saved.old
        (performed flash.now journal.new call_result.new) saved.new result }
    ensures all { AnswersRecorded setup.now call.Boot flash.now saved.old
        (performed flash.now journal.new call_result.new) saved.new journal.old journal.new
        call_result.new (HasNoTexts call_result.new) result }
{
    let mut answer = BootAnswer::new();
    record_and_report(
        setup,
        flash,
        saved,
        journal,
        &Boot,
        &mut answer,
        call_result,
    )
}

/// Boots the device, as `bootswap_journal_boot` does. A boot that decides also writes its table and
/// its report as texts. A text that is longer than its buffer is left out, and its length is 0.
///
/// Returns `BOOTED`, `REVERTED` or `TRIAL_AGAIN`, and the device is booted; or `REFUSED`, `CUT`, or
/// why no call was made: then nothing changed.
#[unsafe(no_mangle)]
pub extern "C" fn bootswap_journal_boot_with_texts(
    setup: &Setup,
    flash: &[u8],
    saved: &mut SavedState,
    journal: &mut [u8],
    table: &mut [u8],
    report: &mut [u8],
    call_result: &mut CallResult,
) -> u32
    ensures boot { IsBoot setup.now flash.now saved.old
        (performed flash.now journal.new call_result.new) saved.new result }
    ensures all { AnswersRecorded setup.now call.Boot flash.now saved.old
        (performed flash.now journal.new call_result.new) saved.new journal.old journal.new
        call_result.new (HasTexts call_result.new.table_length
        call_result.new.report_length table.old table.new report.old report.new) result }
{
    let mut answer = BootAnswer::new();
    match record_device(setup, flash, journal, saved, &Boot, &mut answer) {
        Ok(outcome) => {
            let RecordedWrites { writes, used } = outcome;
            let lengths = put_texts(&answer, table, report);
            put_result(&answer, writes, used, lengths, call_result);
            number_of(&answer)
        }
        Err(number) => {
            put_no_result(call_result);
            number
        }
    }
}

/// Accepts a manifest, as `bootswap_simulate_accept` does, and records the writes in the journal. A
/// journal of `BOOTSWAP_JOURNAL_ACCEPT` bytes has room for them.
///
/// Returns `DONE`, `REFUSED`, or why no call was made, which includes `TOO_MANY` components: then
/// nothing changed; or `CUT`, only if the journal was too short.
#[unsafe(no_mangle)]
pub extern "C" fn bootswap_journal_accept(
    setup: &Setup,
    flash: &[u8],
    saved: &mut SavedState,
    journal: &mut [u8],
    manifest: &ManifestRow,
    call_result: &mut CallResult,
) -> u32
    ensures { AcceptsRecorded setup.now manifest.now flash.now saved.old
        (performed flash.now journal.new call_result.new) saved.new journal.old journal.new
        call_result.new result }
{
    let mut accepted = Manifest::default();
    if !put_manifest(manifest, &mut accepted) {
        put_no_result(call_result);
        return TOO_MANY;
    }
    let call = Accept(&accepted);
    let mut given = Ok(());
    record_and_report(setup, flash, saved, journal, &call, &mut given, call_result)
}

/// Adds bytes to the upload of an image, as `bootswap_simulate_piece` does, and records the writes
/// in the journal. A journal of `BOOTSWAP_JOURNAL_PIECE` bytes has room for them. Images are
/// numbered from 0.
///
/// Returns `DONE`, `REFUSED`, or why no call was made; or `CUT`, only if the journal was too short.
#[unsafe(no_mangle)]
pub extern "C" fn bootswap_journal_piece(
    setup: &Setup,
    flash: &[u8],
    saved: &mut SavedState,
    journal: &mut [u8],
    image: u8,
    bytes: &[u8],
    call_result: &mut CallResult,
) -> u32
    ensures { AnswersRecorded setup.now (call.Piece image bytes.entry) flash.now saved.old
        (performed flash.now journal.new call_result.new) saved.new journal.old journal.new
        call_result.new (HasNoTexts call_result.new) result }
{
    let call = Piece(image, bytes);
    let mut given = Ok(());
    record_and_report(setup, flash, saved, journal, &call, &mut given, call_result)
}

/// Finishes the upload of an image, as `bootswap_simulate_finish` does, and records the writes in
/// the journal. A journal of `BOOTSWAP_JOURNAL_FINISH` bytes has room for them. Images are numbered
/// from 0.
///
/// Returns `DONE`, `REFUSED`, or why no call was made; or `CUT`, only if the journal was too short.
#[unsafe(no_mangle)]
pub extern "C" fn bootswap_journal_finish(
    setup: &Setup,
    flash: &[u8],
    saved: &mut SavedState,
    journal: &mut [u8],
    image: u8,
    call_result: &mut CallResult,
) -> u32
    ensures { AnswersRecorded setup.now (call.Finish image) flash.now saved.old
        (performed flash.now journal.new call_result.new) saved.new journal.old journal.new
        call_result.new (HasNoTexts call_result.new) result }
{
    let call = Finish(image);
    let mut given = Ok(());
    record_and_report(setup, flash, saved, journal, &call, &mut given, call_result)
}

/// Withdraws the request of an image, as `bootswap_simulate_withdraw` does, and records the writes
/// in the journal. A journal of `BOOTSWAP_JOURNAL_WITHDRAW` bytes has room for them. Images are
/// numbered from 0.
///
/// Returns `DONE`, `REFUSED`, or why no call was made; or `CUT`, only if the journal was too short.
#[unsafe(no_mangle)]
pub extern "C" fn bootswap_journal_withdraw(
    setup: &Setup,
    flash: &[u8],
    saved: &mut SavedState,
    journal: &mut [u8],
    image: u8,
    call_result: &mut CallResult,
) -> u32
    ensures { AnswersRecorded setup.now (call.Withdraw image) flash.now saved.old
        (performed flash.now journal.new call_result.new) saved.new journal.old journal.new
        call_result.new (HasNoTexts call_result.new) result }
{
    let call = Withdraw(image);
    let mut given = Ok(());
    record_and_report(setup, flash, saved, journal, &call, &mut given, call_result)
}

/// Confirms an image of the set on trial, as `bootswap_simulate_confirm` does, and records the
/// writes in the journal. A journal of `BOOTSWAP_JOURNAL_CONFIRM` bytes has room for them. Images
/// are numbered from 0.
///
/// Returns `DONE`, `REFUSED`, or why no call was made; or `CUT`, only if the journal was too short.
#[unsafe(no_mangle)]
pub extern "C" fn bootswap_journal_confirm(
    setup: &Setup,
    flash: &[u8],
    saved: &mut SavedState,
    journal: &mut [u8],
    image: u8,
    call_result: &mut CallResult,
) -> u32
    ensures { AnswersRecorded setup.now (call.Confirm image) flash.now saved.old
        (performed flash.now journal.new call_result.new) saved.new journal.old journal.new
        call_result.new (HasNoTexts call_result.new) result }
{
    let call = Confirm(image);
    let mut given = Ok(());
    record_and_report(setup, flash, saved, journal, &call, &mut given, call_result)
}
