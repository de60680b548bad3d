//! A boot from a record `Steady`: makes the decision, and begins an upgrade if a set is chosen.
//!
//! It continues in `swap`.

ghost use Rattle.std.specs.Prelude.{◌≤◌};
ghost use Rattle.common.specs.Limits.{MOST_BOOTS_LEFT};
ghost use Rattle.decision.specs.Places.{read_as};
ghost use Rattle.boot_core.specs.Places.{reply_in};
ghost use Rattle.boot_core.specs.FromSteady.{BeginsSwap, BootsFromSteady, Upgrades};
ghost use Rattle.boot_core.specs.Recorded.{CanTake, HasRecord};

use crate::deciding::{asks_for_good, reply_to, taken_mask};
use crate::outcome::Outcome;
use crate::preparing::prepare_set;
use crate::recording::append_state;
use crate::swap::finish_swap;
use decision::{Verdict, find_into};
use flash_model::{Flash, Result};
use machine::Fault;
use reports::{Report, Table};
use sector_map::{SectorMap, Side};
use set_log::{RecordKind, State};

/// From `Steady` to `Swap`: prepares the trailers of the set to count the swap, and then records
/// the decision. So no swap begins before its record is in the log.
fn begin_swap<F: Flash>(
    flash: &mut F,
    map: &SectorMap,
    state: &State,
    mask: u8,
    permanent: bool,
) -> Result<State>
    requires { CanTake map.now state.now mask (F.chip flash.old) }
    ensures { BeginsSwap map.now state.now mask permanent
        (F.chip flash.old) (F.chip flash.new) result }
{
    prepare_set(flash, map, mask, Side::Primary, true)?;
    let swap = State {
        kind: RecordKind::Swap,
        mask,
        permanent,
        left: 0,
        ..*state
    };
    append_state(flash, map, swap)
}

/// From `Steady`: takes a chosen set.
fn upgrade<F: Flash>(
    flash: &mut F,
    map: &SectorMap,
    state: &State,
    mask: u8,
    left: u8,
    table: &mut Table,
    report: &mut Report,
) -> Result<Outcome>
    requires chosen { CanTake map.now state.now mask (F.chip flash.old) }
    requires few { left ≤ MOST_BOOTS_LEFT }
    ensures { Upgrades map.now mask left (F.chip flash.old) (F.chip flash.new)
        (read_as (reply_in table.new report.new) result) }
{
    let permanent = asks_for_good(flash, map, mask)?;
    let swap = begin_swap(flash, map, state, mask, permanent)?;
    let finding = finish_swap(flash, map, &swap, left, table, report)?;
    Ok(reply_to(finding, permanent))
}

/// From `Steady`: makes the decision, and takes a chosen set.
pub(crate) fn boot_from_steady<F: Flash>(
    flash: &mut F,
    map: &SectorMap,
    state: &State,
    left: u8,
    table: &mut Table,
    report: &mut Report,
) -> Result<Outcome>
    requires recorded { HasRecord map.now state.now (F.chip flash.old) }
    requires few { left ≤ MOST_BOOTS_LEFT }
    ensures { BootsFromSteady map.now left (F.chip flash.old) (F.chip flash.new)
        (read_as (reply_in table.new report.new) result) }
{
    match find_into(flash, map, 0, &state.floors, table, report)? {
        Verdict::Damaged(image) => Ok(Outcome::Refused(Fault::RunningDamaged(image))),
        Verdict::Invalid => Ok(Outcome::Refused(Fault::InvalidSet)),
        Verdict::Decided => {
            let mask = taken_mask(report);
            if mask == 0 {
                return Ok(Outcome::Booted { permanent: false });
            }
            upgrade(flash, map, state, mask, left, table, report)
        }
    }
}
