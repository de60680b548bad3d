//! Finds the active sector of the log, its current record and its first free place.

ghost use Rattle.std.specs.Prelude.{◌≡◌, ◌<◌, ◌≤◌, MatchOption};
ghost use Rattle.sector_map.specs.Map.{IsLaidOut};
ghost use Rattle.set_log.specs.Log.{log_bytes, record_of};
ghost use Rattle.set_log.specs.Places.{Tells};
ghost use Rattle.set_log.specs.Reading.{FindsActive, FindsFree, ReadsLast};
ghost use Rattle.set_log.specs.Ring.{is_active, next_of, previous_of};

use crate::format::{GATE, PLACE, RECORD};
use crate::places::{is_closed, is_place_erased, read_place};
use flash_model::{Flash, Result, is_unit_erased};
use sector_map::SectorMap;

/// The number of sectors of the log.
const SECTORS: u32 = 3;

/// The next sector in the ring.
pub(crate) fn next_of(sector: u32) -> u32
    requires { sector < 3 }
    ensures { result ≡ next_of sector }
{
    (sector + 1) % SECTORS
}

/// The previous sector in the ring.
fn previous_of(sector: u32) -> u32
    requires { sector < 3 }
    ensures { result ≡ previous_of sector }
{
    (sector + 2) % SECTORS
}

/// Whether a sector is active: it is open, and the previous one is closed.
fn is_active<F: Flash>(flash: &mut F, map: &SectorMap, sector: u32) -> Result<bool>
    requires laid_out { IsLaidOut map.now (F.chip flash.old) }
    requires sector { sector < 3 }
    ensures { Tells (is_active map.now.sector_size (log_bytes map.now (F.chip flash.old)) sector)
        (F.chip flash.old) (F.chip flash.new) result }
{
    let closed = is_closed(flash, map, sector)?;
    let follows_closed = is_closed(flash, map, previous_of(sector))?;
    Ok(!closed && follows_closed)
}

/// Finds the active sector.
pub(crate) fn find_active<F: Flash>(flash: &mut F, map: &SectorMap) -> Result<Option<u32>>
    requires { IsLaidOut map.now (F.chip flash.old) }
    ensures { FindsActive map.now (F.chip flash.old) (F.chip flash.new) result }
{
    for sector in 0..SECTORS {
        if is_active(flash, map, sector)? {
            return Ok(Some(sector));
        }
    }
    Ok(None)
}

/// Reads the last gated record of a sector.
fn last_record<F: Flash>(
    flash: &mut F,
    map: &SectorMap,
    sector: u32,
) -> Result<Option<[u8; RECORD]>>
    requires laid_out { IsLaidOut map.now (F.chip flash.old) }
    requires sector { sector < 3 }
    ensures { ReadsLast map.now sector (F.chip flash.old) (F.chip flash.new) result }
{
    // Computed once: the loop runs for each place of the sector, in each call of a device.
    let start = map.record_start(sector, 0);
    let mut place = map.record_places();
    while place > 0 {
        if !is_unit_erased(flash, start + PLACE * (place - 1) + GATE)? {
            let body = read_place(flash, map, sector, place - 1)?;
            return Ok(Some(body));
        }
        place -= 1;
    }
    Ok(None)
}

/// Reads the current record: the last gated record of the active sector.
pub(crate) fn read_record<F: Flash>(flash: &mut F, map: &SectorMap) -> Result<Option<[u8; RECORD]>>
    requires { IsLaidOut map.now (F.chip flash.old) }
    ensures { Tells (record_of map.now (F.chip flash.old))
        (F.chip flash.old) (F.chip flash.new) result }
{
    let Some(active) = find_active(flash, map)? else {
        return Ok(None);
    };
    let found = last_record(flash, map, active)?;
    Ok(found)
}

/// Returns the index of a place if the sector has it.
fn place_among(place: u32, places: u32) -> Option<u32>
    ensures { MatchOption result (places ≤ place) (λ found. (found ≡ place) × (place < places)) }
{
    if place < places {
        return Some(place);
    }
    None
}

/// Finds the first place of a sector from which on all places are erased.
pub(crate) fn free_place<F: Flash>(
    flash: &mut F,
    map: &SectorMap,
    sector: u32,
) -> Result<Option<u32>>
    requires laid_out { IsLaidOut map.now (F.chip flash.old) }
    requires sector { sector < 3 }
    ensures { FindsFree map.now sector (F.chip flash.old) (F.chip flash.new) result }
{
    let places = map.record_places();
    let mut place = places;
    while place > 0 {
        if !is_place_erased(flash, map, sector, place - 1)? {
            return Ok(place_among(place, places));
        }
        place -= 1;
    }
    Ok(Some(0))
}
