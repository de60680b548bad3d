//! The calls of a device, as C makes them.

ghost use Rattle.c_interface.specs.Answers.{Accepts, Answers, HasNoTexts, HasTexts};
ghost use Rattle.std.specs.Prelude.{◌≡◌, ◌<◌, false, true};
ghost use Rattle.c_interface.specs.Lifecycle.{IsBoot};
ghost use Rattle.c_interface.specs.Numbers.{MOST_COMPONENTS};
ghost use Rattle.manifest.specs.Rows.{IsManifestOf};
ghost use Rattle.c_interface.specs.SavedState.{IsNotBooted};
ghost use Rattle.c_interface.specs.DeviceCall as call;

use crate::answers::Answer;
use crate::boot_answer::{BootAnswer, number_of, put_result, put_texts};
use crate::borrowed::call_device;
use crate::call_result::{CallResult, put_no_result};
use crate::calls::{Accept, Boot, Call, Confirm, Finish, Piece, Withdraw};
use crate::cuts::CutRow;
use crate::numbers::TOO_MANY;
use crate::saved_state::{NOT_BOOTED, SavedState};
use crate::setup::Setup;
use manifest::{Manifest, ManifestRow, manifest_in};

/// Writes the manifest of a row, unless the row has too many components, and returns whether it
/// did. Copies of the manifest take stack only here.
#[inline(never)]
pub(crate) fn put_manifest(row: &ManifestRow, manifest: &mut Manifest) -> bool
    ensures some { result ≡ true → IsManifestOf row.now manifest.new }
    ensures none { result ≡ false → MOST_COMPONENTS < row.now.count }
{
    match manifest_in(row) {
        Some(given) => {
            *manifest = given;
            true
        }
        None => false,
    }
}

/// Makes a call on the device of a setup, reports its outcome, and returns the number of its reply.
fn call_and_report<C: Call>(
    setup: &Setup,
    flash: &mut [u8],
    saved: &mut SavedState,
    cuts: &[CutRow],
    asked: &C,
    answer: &mut C::Answer,
    call_result: &mut CallResult,
) -> u32
    ensures { Answers setup.now cuts.now (C.call asked.now) flash.old saved.old flash.new saved.new
        call_result.new (HasNoTexts call_result.new) result }
{
    match call_device(setup, flash, saved, cuts, asked, answer) {
        Ok(writes) => answer.report(writes, 0, call_result),
        Err(number) => {
            put_no_result(call_result);
            number
        }
    }
}

/// Boots the device. A boot that decides also writes its table and its report as texts. A text that
/// is longer than its buffer is left out, and its length is 0.
///
/// Returns `BOOTED`, `REVERTED` or `TRIAL_AGAIN`, and the device is booted; or `REFUSED`, `CUT`, or
/// why no call was made: then nothing changed.
#[unsafe(no_mangle)]
pub extern "C" fn bootswap_simulate_boot(
    setup: &Setup,
    flash: &mut [u8],
    saved: &mut SavedState,
    cuts: &[CutRow],
    table: &mut [u8],
    report: &mut [u8],
    call_result: &mut CallResult,
) -> u32
    ensures boot { IsBoot setup.now flash.old saved.old flash.new saved.new result }
    ensures all { Answers setup.now cuts.now call.Boot flash.old saved.old flash.new saved.new
        call_result.new (HasTexts call_result.new.table_length call_result.new.report_length
        table.old table.new report.old report.new) result }
{
    let mut answer = BootAnswer::new();
    match call_device(setup, flash, saved, cuts, &Boot, &mut answer) {
        Ok(writes) => {
            let lengths = put_texts(&answer, table, report);
            put_result(&answer, writes, 0, lengths, call_result);
            number_of(&answer)
        }
        Err(number) => {
            put_no_result(call_result);
            number
        }
    }
}

/// Accepts a manifest, given by its fields: opens an upload for each image it lists, and cancels
/// pending requests for those images. A manifest with two components for the same image is refused.
///
/// Returns `DONE`, `REFUSED`, `CUT`, or why no call was made, which includes `TOO_MANY` components:
/// then nothing changed.
#[unsafe(no_mangle)]
pub extern "C" fn bootswap_simulate_accept(
    setup: &Setup,
    flash: &mut [u8],
    saved: &mut SavedState,
    cuts: &[CutRow],
    manifest: &ManifestRow,
    call_result: &mut CallResult,
) -> u32
    ensures { Accepts setup.now cuts.now manifest.now flash.old saved.old flash.new saved.new
        call_result.new result }
{
    let mut accepted = Manifest::default();
    if !put_manifest(manifest, &mut accepted) {
        put_no_result(call_result);
        return TOO_MANY;
    }
    let call = Accept(&accepted);
    let mut given = Ok(());
    call_and_report(setup, flash, saved, cuts, &call, &mut given, call_result)
}

/// Adds bytes to the upload of an image, after those that were received before. Images are numbered
/// from 0.
///
/// The saved uploads are taken without a check that they match the flash, which every other call
/// makes. Before it writes, the call checks only the number of received bytes, the trailer of the
/// slot, and that the range to write is erased. If one of these doesn't match, the piece is refused
/// with `NoSession`. Whatever was saved, a flash at rest without a trial holds the same state
/// afterwards, and `bootswap_simulate_finish` requests nothing of an upload that doesn't match.
///
/// Returns `DONE`, `REFUSED`, `CUT`, or why no call was made: then nothing changed.
#[unsafe(no_mangle)]
pub extern "C" fn bootswap_simulate_piece(
    setup: &Setup,
    flash: &mut [u8],
    saved: &mut SavedState,
    cuts: &[CutRow],
    image: u8,
    bytes: &[u8],
    call_result: &mut CallResult,
) -> u32
    ensures { Answers setup.now cuts.now (call.Piece image bytes.entry) flash.old saved.old
        flash.new saved.new call_result.new (HasNoTexts call_result.new) result }
{
    let call = Piece(image, bytes);
    let mut given = Ok(());
    call_and_report(setup, flash, saved, cuts, &call, &mut given, call_result)
}

/// Finishes the upload of an image. The image is requested if the upload is complete, has the
/// digest that the manifest names, and is an intact image. Images are numbered from 0.
///
/// Returns `DONE`, `REFUSED`, `CUT`, or why no call was made: then nothing changed.
#[unsafe(no_mangle)]
pub extern "C" fn bootswap_simulate_finish(
    setup: &Setup,
    flash: &mut [u8],
    saved: &mut SavedState,
    cuts: &[CutRow],
    image: u8,
    call_result: &mut CallResult,
) -> u32
    ensures { Answers setup.now cuts.now (call.Finish image) flash.old saved.old flash.new
        saved.new call_result.new (HasNoTexts call_result.new) result }
{
    let call = Finish(image);
    let mut given = Ok(());
    call_and_report(setup, flash, saved, cuts, &call, &mut given, call_result)
}

/// Withdraws the request of an image. Images are numbered from 0.
///
/// Returns `DONE`, `REFUSED`, `CUT`, or why no call was made: then nothing changed.
#[unsafe(no_mangle)]
pub extern "C" fn bootswap_simulate_withdraw(
    setup: &Setup,
    flash: &mut [u8],
    saved: &mut SavedState,
    cuts: &[CutRow],
    image: u8,
    call_result: &mut CallResult,
) -> u32
    ensures { Answers setup.now cuts.now (call.Withdraw image) flash.old saved.old flash.new
        saved.new call_result.new (HasNoTexts call_result.new) result }
{
    let call = Withdraw(image);
    let mut given = Ok(());
    call_and_report(setup, flash, saved, cuts, &call, &mut given, call_result)
}

/// Confirms an image of the set on trial. Images are numbered from 0.
///
/// Returns `DONE`, `REFUSED`, `CUT`, or why no call was made: then nothing changed.
#[unsafe(no_mangle)]
pub extern "C" fn bootswap_simulate_confirm(
    setup: &Setup,
    flash: &mut [u8],
    saved: &mut SavedState,
    cuts: &[CutRow],
    image: u8,
    call_result: &mut CallResult,
) -> u32
    ensures { Answers setup.now cuts.now (call.Confirm image) flash.old saved.old flash.new
        saved.new call_result.new (HasNoTexts call_result.new) result }
{
    let call = Confirm(image);
    let mut given = Ok(());
    call_and_report(setup, flash, saved, cuts, &call, &mut given, call_result)
}

/// Resets the device: all uploads are closed, and it isn't booted. It also makes the first saved
/// state of a device that was just provisioned.
#[unsafe(no_mangle)]
pub extern "C" fn bootswap_reset(saved: &mut SavedState)
    ensures { IsNotBooted saved.new }
{
    *saved = NOT_BOOTED;
}
