//! Reads and writes single places and closing units of the log, addressed by sector and place.

ghost use Rattle.std.specs.Prelude.{◌<◌};
ghost use Rattle.sector_map.specs.Map.{IsLaidOut};
ghost use Rattle.set_log.specs.Places.{CanClose, CanSetGate, CanWriteBody, Closes, ErasesSector, HasPlace, ReadsPlace, SetsGate, Tells, TellsErased, WritesBody};
ghost use Rattle.set_log.specs.Log.{log_bytes};
ghost use Rattle.set_log.specs.Ring.{is_closed};

use crate::format::{GATE, PLACE, RECORD};
use flash_model::{Flash, Result, is_erased, is_unit_erased, set_unit};
use sector_map::SectorMap;

/// Whether a sector of the log is closed.
pub(crate) fn is_closed<F: Flash>(flash: &mut F, map: &SectorMap, sector: u32) -> Result<bool>
    requires laid_out { IsLaidOut map.now (F.chip flash.old) }
    requires sector { sector < 3 }
    ensures { Tells (is_closed map.now.sector_size (log_bytes map.now (F.chip flash.old)) sector)
        (F.chip flash.old) (F.chip flash.new) result }
{
    let erased = is_unit_erased(flash, map.closing_unit(sector))?;
    Ok(!erased)
}

/// Whether a place of a sector is erased.
pub(crate) fn is_place_erased<F: Flash>(
    flash: &mut F,
    map: &SectorMap,
    sector: u32,
    place: u32,
) -> Result<bool>
    requires { HasPlace map.now sector place (F.chip flash.old) }
    ensures { TellsErased map.now sector place (F.chip flash.old) (F.chip flash.new) result }
{
    is_erased(flash, map.record_start(sector, place), PLACE)
}

/// Reads the record of a place, gated or not.
pub(crate) fn read_place<F: Flash>(
    flash: &mut F,
    map: &SectorMap,
    sector: u32,
    place: u32,
) -> Result<[u8; RECORD]>
    requires { HasPlace map.now sector place (F.chip flash.old) }
    ensures { ReadsPlace map.now sector place (F.chip flash.old) (F.chip flash.new) result }
{
    let mut body = [0u8; RECORD];
    flash.read(map.record_start(sector, place), &mut body)?;
    Ok(body)
}

/// Writes a record, without its gate, at a place whose first 56 bytes are erased.
pub(crate) fn write_body<F: Flash>(
    flash: &mut F,
    map: &SectorMap,
    sector: u32,
    place: u32,
    body: &[u8; RECORD],
) -> Result<()>
    requires { CanWriteBody map.now sector place (F.chip flash.old) }
    ensures { WritesBody map.now sector place body.now
        (F.chip flash.old) (F.chip flash.new) result }
{
    flash.program(map.record_start(sector, place), body)
}

/// Sets the gate of a place. The gate must be erased.
pub(crate) fn set_gate<F: Flash>(
    flash: &mut F,
    map: &SectorMap,
    sector: u32,
    place: u32,
) -> Result<()>
    requires { CanSetGate map.now sector place (F.chip flash.old) }
    ensures { SetsGate map.now sector place (F.chip flash.old) (F.chip flash.new) result }
{
    set_unit(flash, map.record_start(sector, place) + GATE)
}

/// Closes an open sector.
pub(crate) fn close<F: Flash>(flash: &mut F, map: &SectorMap, sector: u32) -> Result<()>
    requires { CanClose map.now sector (F.chip flash.old) }
    ensures { Closes map.now sector (F.chip flash.old) (F.chip flash.new) result }
{
    set_unit(flash, map.closing_unit(sector))
}

/// Erases a sector of the log.
pub(crate) fn erase_sector<F: Flash>(flash: &mut F, map: &SectorMap, sector: u32) -> Result<()>
    requires laid_out { IsLaidOut map.now (F.chip flash.old) }
    requires sector { sector < 3 }
    ensures { ErasesSector map.now sector (F.chip flash.old) (F.chip flash.new) result }
{
    flash.erase(map.log_sector(sector))
}
