//! Provisioning: making the flash of a device.

ghost use Rattle.std.specs.Prelude.{◌≡◌, []};
ghost use Rattle.boot_core.specs.Answers.{reply_of_result};
ghost use Rattle.boot_core.specs.Provisions.{Provisions};
ghost use Rattle.sector_map.specs.Map.{IsLaidOut};
ghost use Rattle.flash_model.specs.Blanks.{IsBlankOf};
ghost use Rattle.slice_flash.specs.Rows.{fixed_by};
ghost use Rattle.c_interface.specs.Lifecycle.{HoldsFirstIn};
ghost use Rattle.c_interface.specs.Numbers.{DONE};
ghost use Rattle.c_interface.specs.Provisioning.{AnswersProvision, ProvisionsOn};
ghost use Rattle.c_interface.specs.Setup.{HasRoom};

use crate::answers::Answer;
use crate::call_result::{CallResult, put_no_result};
use crate::cuts::{CutRow, MOST_CUTS, table_of};
use crate::numbers::TOO_MANY;
use crate::setup::{Setup, check_setup};
use boot_core::provision;
use flash_model::Flash;
use machine::Fault;
use sector_map::SectorMap;
use slice_flash::{ArmedCut, SliceFlash};
use std::marker::Brand;
use std::sync::ledger::{Blank, Ledger};

/// Provisions a flash, as `boot_core` does. A table of the images takes stack only here.
#[inline(never)]
pub(crate) fn provision_flash<F: Flash>(flash: &mut F, map: &SectorMap) -> Result<(), Fault>
    requires laid_out { IsLaidOut map.now (F.chip flash.old) }
    ensures { Provisions map.now (F.chip flash.old) (F.chip flash.new) result }
{
    provision(flash, map)
}

/// Provisions bytes as the flash of a device of this map, writes the answer, and returns the number
/// of writes that it began.
fn provision_on<L: Ledger>(
    blank: Blank,
    map: &SectorMap,
    bytes: &mut [u8],
    table: &[ArmedCut<'_>],
    given: &mut Result<(), Fault>,
) -> u64
    requires blank { IsBlankOf blank L.name L.parts 2 }
    requires room { HasRoom map.now bytes.old }
    ensures { ProvisionsOn map.now (fixed_by table.now [] 0) bytes.old bytes.new
        (reply_of_result given.new) result }
{
    let mut flash = SliceFlash::<L>::new(blank, bytes, map.sector_size, table);
    *given = provision_flash(&mut flash, map);
    flash.writes()
}

/// Provisions bytes as the flash of a device. The images at the front of the primary slots run,
/// nothing is requested, no set is on trial, the sequence number is 0, and the floors are the
/// security counters of the running images. Slots and scratch are unchanged.
///
/// Returns `DONE`; or `CUT`, after which it may be called again. Nothing has changed if it returns
/// why no call was made, or `REFUSED`: with reason 5 and the lowest image whose primary slot begins
/// with no intact image, or with reason 6 if the images don't fit each other.
#[unsafe(no_mangle)]
pub extern "C" fn bootswap_simulate_provision(
    setup: &Setup,
    flash: &mut [u8],
    cuts: &[CutRow],
    call_result: &mut CallResult,
) -> u32
    ensures first { result ≡ DONE → HoldsFirstIn setup.now flash.old flash.new }
    ensures all { AnswersProvision setup.now cuts.now flash.old flash.new call_result.new result }
{
    let checked = match check_setup(setup, flash) {
        Ok(checked) => checked,
        Err(number) => {
            put_no_result(call_result);
            return number;
        }
    };
    if cuts.len() > MOST_CUTS {
        put_no_result(call_result);
        return TOO_MANY;
    }
    let table = table_of(cuts);
    let mut given = Ok(());
    let rows = &table[..cuts.len()];
    let writes = provision_on::<Brand>(Blank::new(2), &checked.map, flash, rows, &mut given);
    given.report(writes, 0, call_result)
}
