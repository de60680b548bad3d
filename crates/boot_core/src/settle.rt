//! A boot from a record `Settle`: settles the trailers of a swapped set, which is then on trial or
//! permanent.
//!
//! It continues a boot from `swap`, or one that a power cut interrupted.

ghost use Rattle.std.specs.Prelude.{◌≤◌, ◌≡◌, ℕ, List, true, false, slice_index};
ghost use Rattle.common.specs.Limits.{MOST_BOOTS_LEFT};
ghost use Rattle.decision.specs.Places.{finding_in, read_as};
ghost use Rattle.boot_core.specs.Places.{reply_in};
ghost use Rattle.boot_core.specs.FromSettle.{BootsFromSettle, CanSettle, FinishesSettle, RecordsTaken, SettlesAndRecords, SettlesFound, SettlesMember, SettlesSet};
ghost use Rattle.boot_core.specs.Recorded.{HasRecord, HasRecordOf};
ghost use Rattle.sector_map.specs.Map.{HasImage, IsLaidOut};
ghost use Rattle.set_log.specs.declared.state.RecordKind.{RecordKind};
ghost use Rattle.trailer.specs.Settled.{is_confirmed};

use crate::deciding::{find_again, raised_floors, reply_to};
use crate::outcome::Outcome;
use common::limits::MOST_IMAGES;
use common::mask::is_member;
use decision::Verdict;
use flash_model::{Flash, Result};
use reports::{Report, Table};
use sector_map::SectorMap;
use set_log::{RecordKind, State, append};
use trailer::{Settling, settle};

/// What a set's trailers are settled for.
fn settling_for(permanent: bool) -> Settling
    ensures { is_confirmed result ≡ permanent }
{
    if permanent {
        Settling::Permanent
    } else {
        Settling::Test
    }
}

/// In `Settle` or `BackSettle`: settles the trailers of an image if it is in the set.
fn settle_member<F: Flash>(
    flash: &mut F,
    map: &SectorMap,
    mask: u8,
    image: u8,
    settling: Settling,
) -> Result<()>
    requires { HasImage map.now image (F.chip flash.old) }
    ensures { SettlesMember map.now mask image settling
        (F.chip flash.old) (F.chip flash.new) result }
{
    if is_member(mask, image) {
        settle(flash, map, image, settling)?;
    }
    Ok(())
}

/// In `Settle` or `BackSettle`: settles the trailers of each image of the set.
pub(crate) fn settle_set<F: Flash>(
    flash: &mut F,
    map: &SectorMap,
    mask: u8,
    settling: Settling,
) -> Result<()>
    requires { IsLaidOut map.now (F.chip flash.old) }
    ensures { SettlesSet map.now mask settling (F.chip flash.old) (F.chip flash.new) result }
{
    for image in 0..map.images {
        settle_member(flash, map, mask, image, settling)?;
    }
    Ok(())
}

/// From `Settle` to `Trial`: records that the set is on trial, with `left` more boots.
fn record_trial<F: Flash>(flash: &mut F, map: &SectorMap, state: &State, left: u8) -> Result<()>
    requires recorded { HasRecordOf map.now RecordKind.Settle state.now (F.chip flash.old) }
    requires few { left ≤ MOST_BOOTS_LEFT }
    ensures { (floors : List ℕ)
        → RecordsTaken map.now false left floors (F.chip flash.old) (F.chip flash.new) result }
{
    let trial = State {
        kind: RecordKind::Trial,
        permanent: false,
        left,
        ..*state
    };
    append(flash, map, &trial)
}

/// From `Settle` to `Steady`: records that the set is permanent, with these floors. Past the last
/// image they are those of the old record.
fn record_taken<F: Flash>(
    flash: &mut F,
    map: &SectorMap,
    state: &State,
    floors: [u32; MOST_IMAGES],
) -> Result<()>
    requires recorded { HasRecord map.now state.now (F.chip flash.old) }
    requires rest { (i : ℕ) → map.now.images ≤ i
        → slice_index floors i ≡ slice_index state.now.floors i }
    ensures { (left : ℕ)
        → RecordsTaken map.now true left floors (F.chip flash.old) (F.chip flash.new) result }
{
    append(flash, map, &State::steady(state.sequence, floors))
}

/// From `Settle` to `Trial` or `Steady`: settles the trailers, and records that the set is on trial
/// or permanent.
pub(crate) fn settle_and_record<F: Flash>(
    flash: &mut F,
    map: &SectorMap,
    state: &State,
    left: u8,
    floors: [u32; MOST_IMAGES],
) -> Result<()>
    requires recorded { HasRecordOf map.now RecordKind.Settle state.now (F.chip flash.old) }
    requires few { left ≤ MOST_BOOTS_LEFT }
    requires rest { (i : ℕ) → map.now.images ≤ i
        → slice_index floors i ≡ slice_index state.now.floors i }
    ensures { SettlesAndRecords map.now state.now left floors (F.chip flash.old) (F.chip flash.new)
        result }
{
    settle_set(flash, map, state.mask, settling_for(state.permanent))?;
    if state.permanent {
        record_taken(flash, map, state, floors)
    } else {
        record_trial(flash, map, state, left)
    }
}

/// From `Settle` on, with what was found of its decision. If that is a decision, settles the set
/// and records that it is permanent, or on trial with `left` more boots. Otherwise writes nothing.
/// Returns what was found.
pub(crate) fn settle_found<F: Flash>(
    flash: &mut F,
    map: &SectorMap,
    state: &State,
    left: u8,
    verdict: Verdict,
    table: &Table,
    report: &Report,
) -> Result<Verdict>
    requires { CanSettle map.now state.now left (finding_in table.now report.now verdict)
        (F.chip flash.old) }
    ensures { SettlesFound map.now state.now left (finding_in table.now report.now verdict)
        (F.chip flash.old) (F.chip flash.new) (read_as (finding_in table.now report.now) result) }
{
    match verdict {
        Verdict::Decided => {
            let floors = raised_floors(table, state.mask, &state.floors);
            settle_and_record(flash, map, state, left, floors)?;
            Ok(Verdict::Decided)
        }
        undecided => Ok(undecided),
    }
}

/// From `Settle` on: finds the decision again, settles the set, and records that it is permanent,
/// or on trial with `left` more boots. If the decision isn't found, nothing is written.
fn finish_settle<F: Flash>(
    flash: &mut F,
    map: &SectorMap,
    state: &State,
    left: u8,
    table: &mut Table,
    report: &mut Report,
) -> Result<Verdict>
    requires recorded { HasRecordOf map.now RecordKind.Settle state.now (F.chip flash.old) }
    requires few { left ≤ MOST_BOOTS_LEFT }
    ensures { FinishesSettle map.now state.now left (F.chip flash.old) (F.chip flash.new)
        (read_as (finding_in table.new report.new) result) }
{
    let finding = find_again(flash, map, state.mask, &state.floors, table, report)?;
    settle_found(flash, map, state, left, finding, table, report)
}

/// From a record `Settle`: finishes the upgrade whose set is swapped.
pub(crate) fn boot_from_settle<F: Flash>(
    flash: &mut F,
    map: &SectorMap,
    state: &State,
    left: u8,
    table: &mut Table,
    report: &mut Report,
) -> Result<Outcome>
    requires recorded { HasRecordOf map.now RecordKind.Settle state.now (F.chip flash.old) }
    requires few { left ≤ MOST_BOOTS_LEFT }
    ensures { BootsFromSettle map.now state.now left (F.chip flash.old) (F.chip flash.new)
        (read_as (reply_in table.new report.new) result) }
{
    let finding = finish_settle(flash, map, state, left, table, report)?;
    Ok(reply_to(finding, state.permanent))
}
