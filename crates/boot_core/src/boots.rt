//! Boots a device: reads the record in its log, and continues from there.

ghost use Rattle.std.specs.Prelude.{◌≤◌, ◌≡◌, true, IfOk};
ghost use Rattle.common.specs.Limits.{MOST_BOOTS_LEFT};
ghost use Rattle.decision.specs.Places.{read_as};
ghost use Rattle.boot_core.specs.Places.{reply_in};
ghost use Rattle.boot_core.specs.Answers.{IsBootReply, reply_of_boot};
ghost use Rattle.boot_core.specs.Booting.{BootsFrom, BootsFromAny, EndsUploadsAndBoots};
ghost use Rattle.boot_core.specs.Device.{seen};
ghost use Rattle.boot_core.specs.Recorded.{HasRecord};
ghost use Rattle.machine.specs.Boots.{is_answer};
ghost use Rattle.sector_map.specs.Map.{IsLaidOut};

use crate::back::{boot_from_back, boot_from_back_settle};
use crate::outcome::Outcome;
use crate::settle::boot_from_settle;
use crate::steady::boot_from_steady;
use crate::swap::boot_from_swap;
use crate::trial::boot_from_trial;
use flash_model::{Flash, Result};
use machine::{Fault, Reply};
use reports::{Report, Table};
use sector_map::SectorMap;
use set_log::{LogError, RecordKind, State, read_state};
use upload::Uploads;

/// Boots from the record in the log, by its kind.
fn boot_from<F: Flash>(
    flash: &mut F,
    map: &SectorMap,
    state: &State,
    left: u8,
    table: &mut Table,
    report: &mut Report,
) -> Result<Outcome>
    requires recorded { HasRecord map.now state.now (F.chip flash.old) }
    requires few { left ≤ MOST_BOOTS_LEFT }
    ensures { BootsFrom map.now state.now left (F.chip flash.old) (F.chip flash.new)
        (read_as (reply_in table.new report.new) result) }
{
    match state.kind {
        RecordKind::Steady => boot_from_steady(flash, map, state, left, table, report),
        RecordKind::Swap => boot_from_swap(flash, map, state, left, table, report),
        RecordKind::Settle => boot_from_settle(flash, map, state, left, table, report),
        RecordKind::Trial => boot_from_trial(flash, map, state, left, table, report),
        RecordKind::Back => boot_from_back(flash, map, state),
        RecordKind::BackSettle => boot_from_back_settle(flash, map, state),
    }
}

/// Boots: finishes what was interrupted, or decides which images run. A trial that begins has
/// `left` more boots.
fn boot<F: Flash>(
    flash: &mut F,
    map: &SectorMap,
    left: u8,
    table: &mut Table,
    report: &mut Report,
) -> Result<Outcome>
    requires laid_out { IsLaidOut map.now (F.chip flash.old) }
    requires few { left ≤ MOST_BOOTS_LEFT }
    ensures { BootsFromAny map.now left (F.chip flash.old) (F.chip flash.new)
        (read_as (reply_in table.new report.new) result) }
{
    match read_state(flash, map) {
        Ok(state) => boot_from(flash, map, &state, left, table, report),
        Err(LogError::NoLog) => Ok(Outcome::Refused(Fault::NotProvisioned)),
        Err(LogError::Flash(error)) => Err(error),
    }
}

/// Turns the outcome of a boot into its result, and sets whether the device is booted.
pub(crate) fn conclude(
    outcome: Outcome,
    table: &Table,
    report: &Report,
    is_booted: &mut bool,
) -> Result<Outcome, Fault>
    requires { IsBootReply (reply_in table.now report.now outcome) }
    ensures is { reply_of_boot (read_as (reply_in table.now report.now) result)
        ≡ reply_in table.now report.now outcome }
    ensures up { is_booted.new ≡ is_answer (reply_in table.now report.now outcome) }
    ensures answers { IfOk (read_as (reply_in table.now report.now) result)
        (λ given. is_answer given ≡ true) }
{
    match outcome {
        Outcome::Refused(fault) => {
            *is_booted = false;
            Err(fault)
        }
        Outcome::Booted { permanent } => {
            *is_booted = true;
            Ok(Outcome::Booted { permanent })
        }
        Outcome::Reverted(set) => {
            *is_booted = true;
            Ok(Outcome::Reverted(set))
        }
        Outcome::TrialAgain { set, left } => {
            *is_booted = true;
            Ok(Outcome::TrialAgain { set, left })
        }
    }
}

/// Boots a device that is held in parts, as `boot_device`. The table and the report of a decision
/// are written to the places of the caller, which may hold anything.
pub fn boot_device_into<F: Flash>(
    flash: &mut F,
    map: &SectorMap,
    uploads: &mut Uploads,
    is_booted: &mut bool,
    left: u8,
    table: &mut Table,
    report: &mut Report,
) -> Result<Outcome, Fault>
    requires laid_out { IsLaidOut map.now (F.chip flash.old) }
    requires few { left ≤ MOST_BOOTS_LEFT }
    ensures { EndsUploadsAndBoots map.now left
        (seen (F.chip flash.old) uploads.old.sessions is_booted.old)
        (seen (F.chip flash.new) uploads.new.sessions is_booted.new)
        (read_as (reply_in table.new report.new) result) }
{
    *uploads = Uploads::new();
    *is_booted = false;
    let outcome = boot(flash, map, left, table, report)?;
    conclude(outcome, table, report, is_booted)
}

/// Boots a device that is held in parts, as `Device::boot`, with its errors. The device is booted
/// exactly if this returns a reply. All uploads end.
///
/// - `flash`, `map`: the map is laid out on the flash.
/// - `uploads`: any. None is open afterwards.
/// - `is_booted`: any. Afterwards it says whether the device is booted.
/// - `left`: how many boots a trial that begins has after this one, 0 to 6.
///
/// Does not allocate.
pub fn boot_device<F: Flash>(
    flash: &mut F,
    map: &SectorMap,
    uploads: &mut Uploads,
    is_booted: &mut bool,
    left: u8,
) -> Result<Reply, Fault>
    requires laid_out { IsLaidOut map.now (F.chip flash.old) }
    requires few { left ≤ MOST_BOOTS_LEFT }
    ensures { EndsUploadsAndBoots map.now left
        (seen (F.chip flash.old) uploads.old.sessions is_booted.old)
        (seen (F.chip flash.new) uploads.new.sessions is_booted.new) result }
{
    let mut table = Table::default();
    let mut report = Report::default();
    match boot_device_into(
        flash,
        map,
        uploads,
        is_booted,
        left,
        &mut table,
        &mut report,
    ) {
        Ok(Outcome::Booted { permanent }) => Ok(Reply::Booted {
            table,
            report,
            permanent,
        }),
        Ok(Outcome::Reverted(set)) => Ok(Reply::Reverted(set)),
        Ok(Outcome::TrialAgain { set, left }) => Ok(Reply::TrialAgain { set, left }),
        Ok(Outcome::Refused(fault)) => Ok(Reply::Refused(fault)),
        Err(fault) => Err(fault),
    }
}
