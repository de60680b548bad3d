//! A boot from a record `Back` or `BackSettle`: swaps the set back, so that the old images run.
//!
//! It continues a boot from `trial`, or one that a power cut interrupted.

ghost use Rattle.reports.specs.declared.table.Table.{Table};
ghost use Rattle.reports.specs.declared.report.Report.{Report};
ghost use Rattle.decision.specs.Places.{read_as};
ghost use Rattle.boot_core.specs.Places.{reply_in};
ghost use Rattle.boot_core.specs.FromBack.{BootsFromBack, BootsFromBackSettle, FinishesBack, RecordsBack, RecordsReturned, Reverts, SettlesAndReturns, SwapsBack};
ghost use Rattle.boot_core.specs.Recorded.{HasRecord, HasRecordOf};
ghost use Rattle.set_log.specs.declared.state.RecordKind.{RecordKind};

use crate::looking::lowest_damaged;
use crate::outcome::Outcome;
use crate::recording::append_state;
use crate::settle::settle_set;
use flash_model::{Flash, Result};
use machine::Fault;
use sector_map::{SectorMap, Side};
use set_log::{RecordKind, State, append};
use swap_scratch::swap_set;
use trailer::Settling;

/// In `Back`: finishes the swap back from wherever it is.
fn swap_back<F: Flash>(flash: &mut F, map: &SectorMap, state: &State) -> Result<()>
    requires { HasRecordOf map.now RecordKind.Back state.now (F.chip flash.old) }
    ensures { SwapsBack map.now state.now (F.chip flash.old) (F.chip flash.new) result }
{
    swap_set(flash, map, state.mask, Side::Secondary)
}

/// From `Back` to `BackSettle`, once the set is swapped back: records that.
fn record_back<F: Flash>(flash: &mut F, map: &SectorMap, state: &State) -> Result<State>
    requires { HasRecordOf map.now RecordKind.Back state.now (F.chip flash.old) }
    ensures { RecordsBack map.now state.now (F.chip flash.old) (F.chip flash.new) result }
{
    let settle = State {
        kind: RecordKind::BackSettle,
        permanent: false,
        ..*state
    };
    append_state(flash, map, settle)
}

/// From `BackSettle`, after the trailers are settled: records that the old images run.
fn record_returned<F: Flash>(flash: &mut F, map: &SectorMap, state: &State) -> Result<()>
    requires { HasRecord map.now state.now (F.chip flash.old) }
    ensures { RecordsReturned map.now (F.chip flash.old) (F.chip flash.new) result }
{
    append(flash, map, &State::steady(state.sequence, state.floors))
}

/// From `BackSettle` to `Steady`: settles the trailers, and records that the old images run.
fn settle_and_return<F: Flash>(flash: &mut F, map: &SectorMap, state: &State) -> Result<()>
    requires { HasRecord map.now state.now (F.chip flash.old) }
    ensures { SettlesAndReturns map.now state.now (F.chip flash.old) (F.chip flash.new) result }
{
    settle_set(flash, map, state.mask, Settling::Back)?;
    record_returned(flash, map, state)
}

/// From `Back` to `Steady`, once the set is swapped back: records that, settles the trailers, and
/// records that the old images run.
fn finish_back<F: Flash>(flash: &mut F, map: &SectorMap, state: &State) -> Result<()>
    requires { HasRecordOf map.now RecordKind.Back state.now (F.chip flash.old) }
    ensures { FinishesBack map.now state.now (F.chip flash.old) (F.chip flash.new) result }
{
    let settle = record_back(flash, map, state)?;
    settle_and_return(flash, map, &settle)
}

/// From a record `Back` that this boot has made, after it found the old images intact: swaps the set
/// back, and replies that it reverted.
pub(crate) fn revert<F: Flash>(flash: &mut F, map: &SectorMap, state: &State) -> Result<Outcome>
    requires { HasRecordOf map.now RecordKind.Back state.now (F.chip flash.old) }
    ensures { (table : Table) (report : Report) → Reverts map.now state.now
        (F.chip flash.old) (F.chip flash.new) (read_as (reply_in table report) result) }
{
    swap_back(flash, map, state)?;
    finish_back(flash, map, state)?;
    Ok(Outcome::Reverted(state.mask))
}

/// From a record `Back`: finishes the swap back, and replies that the set reverted. If an image of
/// the set isn't intact then, nothing more is written: the record stays, so each later boot is
/// refused too.
pub(crate) fn boot_from_back<F: Flash>(
    flash: &mut F,
    map: &SectorMap,
    state: &State,
) -> Result<Outcome>
    requires { HasRecordOf map.now RecordKind.Back state.now (F.chip flash.old) }
    ensures { (table : Table) (report : Report) → BootsFromBack map.now state.now
        (F.chip flash.old) (F.chip flash.new) (read_as (reply_in table report) result) }
{
    swap_back(flash, map, state)?;
    match lowest_damaged(flash, map, state.mask, Side::Primary)? {
        Some(image) => Ok(Outcome::Refused(Fault::RunningDamaged(image))),
        None => {
            finish_back(flash, map, state)?;
            Ok(Outcome::Reverted(state.mask))
        }
    }
}

/// From a record `BackSettle`: settles the set that was swapped back, and replies that it reverted.
/// If an image of the set isn't intact, nothing is written, and the boot is refused.
pub(crate) fn boot_from_back_settle<F: Flash>(
    flash: &mut F,
    map: &SectorMap,
    state: &State,
) -> Result<Outcome>
    requires { HasRecordOf map.now RecordKind.BackSettle state.now (F.chip flash.old) }
    ensures { (table : Table) (report : Report) → BootsFromBackSettle map.now state.now
        (F.chip flash.old) (F.chip flash.new) (read_as (reply_in table report) result) }
{
    match lowest_damaged(flash, map, state.mask, Side::Primary)? {
        Some(lost) => Ok(Outcome::Refused(Fault::RunningDamaged(lost))),
        None => {
            settle_and_return(flash, map, state)?;
            Ok(Outcome::Reverted(state.mask))
        }
    }
}
