//! Writes records so that a power cut leaves the old record or the new one.

ghost use Rattle.std.specs.Prelude.{◌≢◌, None};
ghost use Rattle.sector_map.specs.Map.{IsLaidOut};
ghost use Rattle.set_log.specs.Log.{log_bytes, record_of};
ghost use Rattle.set_log.specs.Ring.{IsActive};
ghost use Rattle.set_log.specs.Writing.{AppendsRecord, CanWrite, ErasesLog, MovesOn, StartsRecord, WritesRecord};

use crate::active_sector::{find_active, free_place, next_of};
use crate::format::RECORD;
use crate::places::{close, erase_sector, set_gate, write_body};
use flash_model::{Flash, Result};
use sector_map::SectorMap;

/// Writes a record at a free place of a sector, and then its gate. The record doesn't count until
/// its gate is set.
fn write_record<F: Flash>(
    flash: &mut F,
    map: &SectorMap,
    sector: u32,
    place: u32,
    body: &[u8; RECORD],
) -> Result<()>
    requires { CanWrite map.now sector place (F.chip flash.old) }
    ensures { WritesRecord map.now sector place body.now
        (F.chip flash.old) (F.chip flash.new) result }
{
    write_body(flash, map, sector, place, body)?;
    set_gate(flash, map, sector, place)
}

/// Erases the sector after the active one, writes the record there, and then closes the active one.
/// The active sector is read until its closing unit is set.
fn move_on<F: Flash>(flash: &mut F, map: &SectorMap, active: u32, body: &[u8; RECORD]) -> Result<()>
    requires laid_out { IsLaidOut map.now (F.chip flash.old) }
    requires active { IsActive map.now.sector_size
        (log_bytes map.now (F.chip flash.old)) active }
    ensures { MovesOn map.now active body.now (F.chip flash.old) (F.chip flash.new) result }
{
    let next = next_of(active);
    erase_sector(flash, map, next)?;
    write_record(flash, map, next, 0, body)?;
    close(flash, map, active)
}

/// Writes a record after the current one.
pub(crate) fn append_record<F: Flash>(
    flash: &mut F,
    map: &SectorMap,
    body: &[u8; RECORD],
) -> Result<()>
    requires laid_out { IsLaidOut map.now (F.chip flash.old) }
    requires has_record { record_of map.now (F.chip flash.old) ≢ None }
    ensures { AppendsRecord map.now body.now (F.chip flash.old) (F.chip flash.new) result }
{
    let Some(active) = find_active(flash, map)? else {
        return Ok(());
    };
    match free_place(flash, map, active)? {
        Some(place) => write_record(flash, map, active, place, body),
        None => move_on(flash, map, active, body),
    }
}

/// Erases the three sectors.
fn erase_log<F: Flash>(flash: &mut F, map: &SectorMap) -> Result<()>
    requires { IsLaidOut map.now (F.chip flash.old) }
    ensures { ErasesLog map.now (F.chip flash.old) (F.chip flash.new) result }
{
    erase_sector(flash, map, 0)?;
    erase_sector(flash, map, 1)?;
    erase_sector(flash, map, 2)?;
    Ok(())
}

/// Erases the log, writes a record at its first place, and closes the last sector. This makes the
/// first sector the active one.
pub(crate) fn start_record<F: Flash>(
    flash: &mut F,
    map: &SectorMap,
    body: &[u8; RECORD],
) -> Result<()>
    requires { IsLaidOut map.now (F.chip flash.old) }
    ensures { StartsRecord map.now body.now (F.chip flash.old) (F.chip flash.new) result }
{
    erase_log(flash, map)?;
    write_record(flash, map, 0, 0, body)?;
    close(flash, map, 2)
}
