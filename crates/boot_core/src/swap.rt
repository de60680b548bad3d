//! A boot from a record `Swap`: swaps the slots of the set, from wherever the swap is.
//!
//! It continues a boot from `steady`, or one that a power cut interrupted, and continues in
//! `settle`.

ghost use Rattle.std.specs.Prelude.{◌≡◌, ◌≤◌};
ghost use Rattle.common.specs.Limits.{MOST_BOOTS_LEFT};
ghost use Rattle.decision.specs.Places.{finding_in, read_as};
ghost use Rattle.boot_core.specs.Places.{reply_in};
ghost use Rattle.boot_core.specs.FromSwap.{BootsFromSwap, FinishesSwap, SwapsForth};
ghost use Rattle.boot_core.specs.Recorded.{HasRecordOf};
ghost use Rattle.set_log.specs.declared.state.RecordKind.{RecordKind};

use crate::deciding::{find_again, reply_to};
use crate::outcome::Outcome;
use crate::settle::settle_found;
use decision::Verdict;
use flash_model::{Flash, Result};
use reports::{Report, Table};
use sector_map::{SectorMap, Side};
use set_log::{RecordKind, State, append};
use swap_scratch::swap_set;

/// The record `Settle` after a record `Swap`.
fn settling(state: &State) -> State
    ensures { result ≡ record state.now { kind = RecordKind.Settle } }
{
    State {
        kind: RecordKind::Settle,
        ..*state
    }
}

/// From `Swap` to `Settle`: finishes the swap from wherever it is, finds the decision again, and
/// records that the set is swapped. If the decision isn't found, only the swap is written.
fn swap_forth<F: Flash>(
    flash: &mut F,
    map: &SectorMap,
    state: &State,
    table: &mut Table,
    report: &mut Report,
) -> Result<Verdict>
    requires { HasRecordOf map.now RecordKind.Swap state.now (F.chip flash.old) }
    ensures { SwapsForth map.now state.now (F.chip flash.old) (F.chip flash.new)
        (read_as (finding_in table.new report.new) result) }
{
    let mask = state.mask;
    swap_set(flash, map, mask, Side::Primary)?;
    match find_again(flash, map, mask, &state.floors, table, report)? {
        Verdict::Decided => {
            append(flash, map, &settling(state))?;
            Ok(Verdict::Decided)
        }
        finding => Ok(finding),
    }
}

/// From `Swap` on: finishes the swap from wherever it is, finds the decision again, and settles the
/// set. Records that the set is permanent, or on trial with `left` more boots. If the decision
/// isn't found, only the swap is written.
pub(crate) fn finish_swap<F: Flash>(
    flash: &mut F,
    map: &SectorMap,
    state: &State,
    left: u8,
    table: &mut Table,
    report: &mut Report,
) -> Result<Verdict>
    requires recorded { HasRecordOf map.now RecordKind.Swap state.now (F.chip flash.old) }
    requires few { left ≤ MOST_BOOTS_LEFT }
    ensures { FinishesSwap map.now state.now left (F.chip flash.old) (F.chip flash.new)
        (read_as (finding_in table.new report.new) result) }
{
    match swap_forth(flash, map, state, table, report)? {
        Verdict::Decided => {
            let settle = settling(state);
            settle_found(flash, map, &settle, left, Verdict::Decided, table, report)
        }
        finding => Ok(finding),
    }
}

/// From a record `Swap`: finishes the upgrade that it began.
pub(crate) fn boot_from_swap<F: Flash>(
    flash: &mut F,
    map: &SectorMap,
    state: &State,
    left: u8,
    table: &mut Table,
    report: &mut Report,
) -> Result<Outcome>
    requires recorded { HasRecordOf map.now RecordKind.Swap state.now (F.chip flash.old) }
    requires few { left ≤ MOST_BOOTS_LEFT }
    ensures { BootsFromSwap map.now state.now left (F.chip flash.old) (F.chip flash.new)
        (read_as (reply_in table.new report.new) result) }
{
    let finding = finish_swap(flash, map, state, left, table, report)?;
    Ok(reply_to(finding, state.permanent))
}
